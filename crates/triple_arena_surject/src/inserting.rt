//! New sets, and new keys of a set.

ghost use Rattle.std.specs.Prelude.{◌≡◌, ◌↔◌, [], ◌∷◌, None, Err, IsSome, IfOk, OnOk, OnErr};
ghost use Rattle.triple_arena_ptr.specs.Numbers.{greatest_index};
ghost use Rattle.triple_arena.specs.Histories.{insertion, Continues};
ghost use Rattle.triple_arena_surject.specs.Surject.{found_at, IsNewSet, IsAdded};
ghost use Rattle.triple_arena_surject.specs.Room.{IsSame, HasKeyMore, HasValMore, GrowsWhereFull, KeepsVals, DependsOnKeys, DependsOnBoth};

use crate::member::{Member, Shared};
use crate::refusal::{SurjectError, told_of_chains, told_of_growth};
use crate::steps::{count_keys, put, put_alone, set_of, size_of, take};
use crate::surject::SurjectArena;
use triple_arena::{ArenaInsertTrait, ArenaTrait, CompactArenaTrait};
use triple_arena_chain::{Link, Place};
use triple_arena_ptr::{Ptr, PtrInx};

impl<
    P: Ptr,
    K,
    V,
    A: CompactArenaTrait<P, Link<P, Member<P, K>>> + ArenaInsertTrait<P, Link<P, Member<P, K>>>,
    B: ArenaInsertTrait<P, Shared<V>>,
> SurjectArena<P, K, V, A, B> {
    /// A new set of one key, with its value.
    ///
    /// `NoRoom` where the arena of values is full at its limit; else `NoMemory` where it is full and memory is
    /// refused, or there is no greater index; then so for the arena of keys. Then each pointer finds what it found,
    /// and key and value are dropped; the arena of values may have grown, if it was full. A full arena grows as its
    /// own insertions have it grow.
    pub fn insert(&mut self, key: K, value: V) -> Result<P, SurjectError>
    where
        K: Drop,
        V: Drop,
        // Done: the key stands alone in a set with this value, and there is one key and one set more.
        ensures inserted { IfOk result
            (λ p. IsNewSet self.old (P.numbers p) key value self.new) }
        ensures size { OnOk result (HasKeyMore A.capacity A.grown self.old self.new) }
        ensures vals { OnOk result (HasValMore B.capacity B.grown self.old self.new) }
        ensures history { IfOk result (λ p. Continues A.fits self.old.arena
            (insertion (P.numbers p) ∷ []) self.new.arena) }

        // Refused: each pointer finds what it found. Room or memory was refused: room for the value comes first.
        ensures refused { OnErr result (IsSame B.capacity B.grown self.old self.new) }
        ensures room { DependsOnBoth A.has_memory B.has_memory (greatest_index P.Inx.greatest)
            self.old result }

        // In each case an arena that had a place hasn't grown.
        ensures had_place { GrowsWhereFull self.old self.new }
    {
        match put(&mut self.sets, value) {
            Ok(set) => match put_alone(&mut self.keys, Member { key, set }) {
                Ok(p) => Ok(p),
                Err(refusal) => {
                    drop(take(&mut self.sets, set));
                    Err(told_of_chains(refusal))
                }
            },
            Err(refusal) => Err(told_of_growth(refusal)),
        }
    }

    /// A new key in the set of a pointer.
    ///
    /// `NoEntry` exactly where the pointer finds nothing; else `NoRoom` exactly where the arena of keys is full at
    /// its limit, else `NoMemory` where it is full and memory is refused, or there is no greater index. Then nothing
    /// changes, and the key is dropped.
    pub fn insert_key(&mut self, p: P, key: K) -> Result<P, SurjectError>
    where
        K: Drop,
        // Done: the key stands in the set of the pointer, and there is one key more.
        ensures added { IfOk result
            (λ q. IsAdded self.old (P.numbers p) (P.numbers q) key self.new) }
        ensures size { OnOk result (HasKeyMore A.capacity A.grown self.old self.new) }
        ensures history { IfOk result (λ q. Continues A.fits self.old.arena
            (insertion (P.numbers q) ∷ []) self.new.arena) }

        // Refused: nothing has changed. The pointer found nothing, or room or memory was refused.
        ensures refused { OnErr result (self.new ≡ self.old) }
        ensures no_entry { (result ≡ Err SurjectError.NoEntry)
            ↔ (found_at self.old (P.numbers p) ≡ None) }
        ensures room { IsSome (found_at self.old (P.numbers p))
            → DependsOnKeys A.has_memory (greatest_index P.Inx.greatest) self.old result }

        // In each case there are as many sets, and as much room for their values.
        ensures vals { KeepsVals self.old self.new }
    {
        let Some(set) = set_of(&self.keys, p) else {
            return Err(SurjectError::NoEntry);
        };
        // Neighbours lead to each other.
        let _len = self.keys.len();
        let count = size_of(&self.sets, set);
        match self.keys.insert(Place::After(p), Member { key, set }) {
            Ok(q) => {
                // By its value, which is a number of 64 bits, one more key is counted.
                let _more = self.keys.len();
                count_keys(&mut self.sets, set, count + 1);
                Ok(q)
            }
            Err(refusal) => Err(told_of_chains(refusal)),
        }
    }
}
