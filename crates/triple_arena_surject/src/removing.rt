//! Keys that go, and whole sets.

ghost use Rattle.std.specs.Prelude.{◌≡◌, not, [], ◌∷◌, None, Some, IfOk, OnOk, OnErr};
ghost use Rattle.triple_arena_base.specs.Invalidation.{allowed_option, is_success_option};
ghost use Rattle.triple_arena.specs.Ending.{told};
ghost use Rattle.triple_arena.specs.Histories.{clearing, CountsUp, Continues};
ghost use Rattle.triple_arena.specs.Walks.{keys};
ghost use Rattle.triple_arena_chain.specs.Endings.{EndsEntry, EndsEntries};
ghost use Rattle.triple_arena_surject.specs.Surject.{found_at, val_at, TellsKey, IsKeyRemoved, IsSetRemoved, IsRefusedWhere};
ghost use Rattle.triple_arena_surject.specs.Room.{AreNoSets, HasSameRoom, HasKeyLess, HasSetLess};

use crate::member::{Member, Shared};
use crate::refusal::SurjectError;
use crate::steps::{count_less, set_of, take, telling};
use crate::surject::SurjectArena;
use triple_arena::{ArenaInsertTrait, ArenaTrait, CompactArenaTrait};
use triple_arena_base::InvalidationOption;
use triple_arena_chain::Link;
use triple_arena_ptr::{Ptr, PtrGen};

impl<
    P: Ptr,
    K,
    V,
    A: CompactArenaTrait<P, Link<P, Member<P, K>>> + ArenaInsertTrait<P, Link<P, Member<P, K>>>,
    B: ArenaInsertTrait<P, Shared<V>>,
> SurjectArena<P, K, V, A, B> {
    /// Takes a key out of its set, and gives it; with the last key of a set the set's value too.
    ///
    /// `NoEntry` exactly where the pointer finds nothing; then nothing changes. `GenerationOverflow` exactly where the
    /// removal from the arena of keys wraps its counter (`answer`). A wrap in the arena of values isn't told: its
    /// pointers are seen by nobody.
    pub fn remove_key(&mut self, p: P) -> Result<InvalidationOption<(K, Option<V>)>, SurjectError>
        // Done: the key is gone, and comes back, told with a wrap if there was one; with it the value of its set, if it was
        // the last one there.
        ensures answer { IfOk result
            (TellsKey (A.ending_wraps self.old.arena) self.old (P.numbers p)) }
        ensures removed { OnOk result (IsKeyRemoved self.old (P.numbers p) self.new) }
        ensures ended { OnOk result (EndsEntry A.removes A.with_value A.fits P.Gen.generations
            (A.ending_wraps self.old.arena) self.old.arena (P.numbers p) self.new.arena) }
        ensures size { IfOk result
            (λ answer. HasKeyLess (allowed_option answer).1 self.old self.new) }

        // Refused: nothing has changed, and the pointer found nothing.
        ensures refused { OnErr result (self.new ≡ self.old) }
        ensures no_entry { IsRefusedWhere (found_at self.old (P.numbers p) ≡ None) result }

        // In each case the room stays.
        ensures room { HasSameRoom self.old self.new }
    {
        let Some(set) = set_of(&self.keys, p) else {
            return Err(SurjectError::NoEntry);
        };
        // Neighbours lead to each other.
        let _len = self.keys.len();
        let removed = self.keys.remove(p);
        let answer = removed.unwrap();
        let (member, wrapped) = answer.overflowing();
        let value = count_less(&mut self.sets, set);
        Ok(telling(wrapped, (member.key, value)))
    }

    /// Takes a whole set out, and gives its value; its keys are dropped.
    ///
    /// `NoEntry` exactly where the pointer finds nothing; then nothing changes. `GenerationOverflow` exactly where one
    /// of the removals from the arena of keys wraps its counter (`ended`). A wrap in the arena of values isn't told.
    pub fn remove(&mut self, p: P) -> Result<InvalidationOption<V>, SurjectError>
    where
        K: Drop,
        // Done: the set is gone with all its keys, and its value comes back, told with a wrap if there was one.
        ensures value { IfOk result (λ answer.
            val_at self.old (P.numbers p) ≡ Some (allowed_option answer)) }
        ensures removed { OnOk result (IsSetRemoved self.old (P.numbers p) self.new) }
        ensures ended { IfOk result (λ answer.
            EndsEntries A.removes A.with_value A.fits P.Gen.generations A.ending_wraps
            self.old.arena (not (is_success_option answer)) self.new.arena) }
        ensures size { OnOk result (HasSetLess self.old (P.numbers p) self.new) }

        // Refused: nothing has changed, and the pointer found nothing.
        ensures refused { OnErr result (self.new ≡ self.old) }
        ensures no_entry { IsRefusedWhere (found_at self.old (P.numbers p) ≡ None) result }

        // In each case the room stays.
        ensures room { HasSameRoom self.old self.new }
    {
        let Some(set) = set_of(&self.keys, p) else {
            return Err(SurjectError::NoEntry);
        };
        // Neighbours lead to each other.
        let _len = self.keys.len();
        let taken = take(&mut self.sets, set);
        let out = taken.unwrap();
        let removed = self.keys.remove_chain(p);
        let answer = removed.unwrap();
        let (_keys, wrapped) = answer.overflowing();
        // Keys are counted.
        let _left = self.keys.len();
        Ok(telling(wrapped, out.value))
    }

    /// Takes out every key and every set; keys and values are dropped, and the room of both stays.
    /// `GenerationOverflow` exactly where clearing the arena of keys wraps its counter (`answer`). A wrap in the arena
    /// of values isn't told.
    pub fn clear(&mut self) -> InvalidationOption<()>
    where
        K: Drop,
        V: Drop,
        ensures answer { result ≡ told (A.clearing_wraps self.old.arena) tt }
        ensures empty { AreNoSets self.old.key_capacity self.old.key_limit
            self.old.val_capacity self.old.val_limit self.new }
        ensures cleared { A.clears self.old.arena self.new.arena }
        ensures history { CountsUp P.Gen.generations (A.clearing_wraps self.old.arena)
            → Continues A.fits self.old.arena (clearing (keys (A.slots self.old.arena)) ∷ [])
            self.new.arena }
    {
        drop(self.sets.clear());
        self.keys.clear()
    }
}
