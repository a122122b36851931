//! Whole chains that are taken out.

ghost use Rattle.std.specs.Prelude.{◌≡◌, ◌≢◌, ◌+◌, ◌↔◌, not, [], ◌∷◌, None, Some, IsSome, IfSome, IfOk, OnOk, OnErr, Err};
ghost use Rattle.std.specs.Option.{option_map};
ghost use Rattle.std.specs.Result.{IfErr};
ghost use Rattle.triple_arena_base.specs.Invalidation.{allowed_option, is_success_option};
ghost use Rattle.triple_arena_ptr.specs.Pointers.{Pointer};
ghost use Rattle.triple_arena.specs.Ending.{told};
ghost use Rattle.triple_arena.specs.Histories.{clearing, CountsUp, Continues};
ghost use Rattle.triple_arena.specs.Walks.{keys};
ghost use Rattle.triple_arena_chain.specs.Endings.{EndsEntry, EndsEntries};
ghost use Rattle.triple_arena_chain.specs.Chains.{nodes, IsLinked, IsAlone, IsBeside, IsRemoved, IsChainRemoved};
ghost use Rattle.triple_arena_chain.specs.Room.{AreEmpty, KeepsRoom};

use crate::chains::Chains;
use crate::link::Link;
use crate::place::ChainError;
use crate::steps::{are_same, telling};
use triple_arena::{ArenaInsertTrait, ArenaTrait, CompactArenaTrait};
use triple_arena_base::InvalidationOption;
use triple_arena_ptr::{Ptr, PtrGen};

impl<P: Ptr, T, A: CompactArenaTrait<P, Link<P, T>> + ArenaInsertTrait<P, Link<P, T>>> Chains<
    P,
    T,
    A,
> {
    /// Takes out every entry of a pointer's chain, open or a ring, and gives how many those were.
    /// `GenerationOverflow` exactly where one of these removals wraps the arena's counter (`ended`).
    ///
    /// `NoEntry` exactly where the pointer finds nothing; then nothing changes.
    pub fn remove_chain(&mut self, p: P) -> Result<InvalidationOption<usize>, ChainError>
    where
        T: Drop,
        // Done: the entries of the chain are gone; how many comes back, told with a wrap if there was one.
        ensures removed { OnOk result
            (IsChainRemoved (nodes self.old) (P.numbers p) (nodes self.new)) }
        ensures len { IfOk result
            (λ answer. self.new.len + allowed_option answer ≡ self.old.len) }
        ensures ended { IfOk result (λ answer. EndsEntries A.removes A.with_value A.fits
            P.Gen.generations A.ending_wraps self.old.arena (not (is_success_option answer))
            self.new.arena) }

        // Refused: nothing has changed, and the pointer found nothing.
        ensures refused { OnErr result (self.new ≡ self.old) }
        ensures no_entry { (result ≡ Err ChainError.NoEntry)
            ↔ (nodes self.old (P.numbers p) ≡ None) }
        ensures refusal { IfErr result (λ refusal. refusal ≡ ChainError.NoEntry) }

        // In each case the room stays.
        ensures room { KeepsRoom self.old self.new }
    {
        let Some(_value) = self.get(p) else {
            return Err(ChainError::NoEntry);
        };
        let all = self.len();
        let mut wrapped = false;
        'chain: while let Some(q) = self.beside(p) {
            wrapped |= self.let_go(q);
        }
        wrapped |= self.let_go(p);
        Ok(telling(wrapped, all - self.len()))
    }

    /// Takes out every entry, of all chains; values are dropped, capacity and limit stay.
    /// `GenerationOverflow` exactly where clearing the arena wraps its counter (`answer`).
    pub fn clear(&mut self) -> InvalidationOption<()>
    where
        T: Drop,
        ensures answer { result ≡ told (A.clearing_wraps self.old.arena) tt }
        ensures empty { AreEmpty self.old.capacity self.old.limit self.new }
        ensures cleared { A.clears self.old.arena self.new.arena }
        ensures history { CountsUp P.Gen.generations (A.clearing_wraps self.old.arena)
            → Continues A.fits self.old.arena (clearing (keys (A.slots self.old.arena)) ∷ [])
            self.new.arena }
    {
        self.arena.clear()
    }

    // Takes out the entry of a pointer, which is there, drops its value, and tells whether that wrapped
    // the arena's counter.
    fn let_go(&mut self, p: P) -> bool
    where
        T: Drop,
        requires { IsSome (nodes self.old (P.numbers p)) }
        ensures removed { IsRemoved (nodes self.old) (P.numbers p) (nodes self.new) }
        ensures len { self.new.len + 1 ≡ self.old.len }
        ensures room { KeepsRoom self.old self.new }
        ensures wrapped { result ≡ A.ending_wraps self.old.arena }
        ensures ended { EndsEntry A.removes A.with_value A.fits P.Gen.generations
            (A.ending_wraps self.old.arena) self.old.arena (P.numbers p) self.new.arena }
    {
        let removed = self.remove(p);
        let answer = removed.unwrap();
        let (value, wrapped) = answer.overflowing();
        drop(value);
        wrapped
    }

    // An entry that stands beside one, if another does.
    fn beside(&self, p: P) -> Option<P>
        ensures some { IfSome result
            (λ q. IsBeside (nodes self.now) (P.numbers p) (P.numbers q)) }
        ensures none { result ≡ None → IsAlone (nodes self.now) (P.numbers p) }
        ensures linked { IsLinked (nodes self.now) }
    {
        // Neighbours lead to each other.
        let _len = self.len();
        match other(p, self.after(p)) {
            Some(q) => Some(q),
            None => other(p, self.before(p)),
        }
    }
}

// A neighbour, unless it is the entry itself.
fn other<P: Ptr>(p: P, neighbour: Option<P>) -> Option<P>
    ensures some { IfSome result
        (λ q. (option_map P.numbers neighbour ≡ Some (P.numbers q)) × (P.numbers q ≢ P.numbers p)) }
    ensures none { result ≡ None
        → (q : Pointer) → option_map P.numbers neighbour ≡ Some q → q ≡ P.numbers p }
{
    let q = neighbour?;
    if are_same(q, p) { None } else { Some(q) }
}
