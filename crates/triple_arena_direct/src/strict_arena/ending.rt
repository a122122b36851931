//! The ending of entries of a strict arena.

ghost use Rattle.std.specs.Prelude.{◌≡◌, ◌≢◌, true, IsSome, IfOk, OnOk, OnErr, None};
ghost use Rattle.std.specs.Option.{option_map};
ghost use Rattle.std.specs.Result.{result_map_both};
ghost use Rattle.triple_arena_ptr.specs.Numbers.{raise};
ghost use Rattle.triple_arena_ptr.specs.Pointers.{Pointer};
ghost use Rattle.triple_arena_traits.specs.Entries.{look_up};
ghost use Rattle.triple_arena_traits.specs.ArenaState.{entry};
ghost use Rattle.triple_arena_traits.specs.SlotSteps.{RisesByAtMost, IsTouched};
ghost use Rattle.triple_arena_traits.specs.Ending.{cleared};
ghost use Rattle.triple_arena_traits.specs.Walks.{keys};
ghost use Rattle.triple_arena_traits.specs.Histories.{removal, invalidation, clearing, Fits, Continues};
ghost use Rattle.triple_arena_direct.specs.Gone.{IsGoneForGood};
ghost use Rattle.triple_arena_direct.specs.StrictAnswers.{is_exhausted, is_exhausted_for_any, strict_of, strict_all, calls_if_ok};
ghost use Rattle.triple_arena_direct.specs.StrictCalls.{IsStrictStep, IsStrictEnding, to_remove, to_invalidate, to_clear};
ghost use Rattle.triple_arena_direct.specs.StrictDone.{IsStrictlyRemoved, IsStrictlyRenewed};

use super::StrictArena;
use crate::errors::StrictError;
use triple_arena::{ArenaSlot, ArenaTrait};
use triple_arena_ptr::{Ptr, PtrGen, PtrInx};
use triple_arena_stack::NonZeroInxGenericStack;

impl<P: Ptr, T, S: NonZeroInxGenericStack<ArenaSlot<P, T>>> StrictArena<P, T, S> {
    /// Takes out the entry under `p`, and gives its value. The counter is raised, and where generations
    /// count, `p` is gone for good (`IsGoneForGood`). It touches at most 6 slots, and where the counter is
    /// at its greatest value looks at one more.
    ///
    /// `InvalidPtr` exactly where `p` is invalid; else `Exhausted` exactly where the counter is at its
    /// greatest value. Then nothing changes but how many slots were touched.
    pub fn remove(&mut self, p: P) -> Result<T, StrictError>
        // Done, the entry is gone; refused, nothing changes but the count of touches. Other
        // pointers find what they found.
        ensures answer { result ≡ strict_of (is_exhausted P.Gen.generations self.old)
            (look_up self.old.slots (P.numbers p)) }
        ensures done { OnOk result
            (IsStrictlyRemoved self.old P.Gen.generations (P.numbers p) self.new) }
        ensures refused { OnErr result (IsTouched self.old self.new) }
        ensures bounded { RisesByAtMost 6 self.old.steps self.new.steps }
        ensures others { (q : Pointer) → q ≢ P.numbers p
            → look_up self.new.slots q ≡ look_up self.old.slots q }

        // It is one strict call, by which a history goes on where generations count.
        ensures call { IsStrictEnding S.kind P.Gen.generations
            self.old (to_remove (P.numbers p)) (calls_if_ok result (λ _. removal (P.numbers p))) self.new }
    {
        if self.is_exhausted_for(p) {
            return Err(StrictError::Exhausted);
        }
        self.arena.remove(p).allow().ok_or(StrictError::InvalidPtr)
    }

    /// Gives the entry under `p` a new pointer, under the raised counter. Where generations count, `p`
    /// is gone for good; where they don't, the pointer stays as it is. It touches at most 6 slots, and
    /// where the counter is at its greatest value looks at one more.
    ///
    /// `InvalidPtr` exactly where `p` is invalid; else `Exhausted` exactly where the counter is at its
    /// greatest value. Then nothing changes but how many slots were touched.
    pub fn invalidate(&mut self, p: P) -> Result<P, StrictError>
        // Done, the entry has another pointer; refused, nothing changes but the count of touches.
        // Pointers to other indexes find what they found.
        ensures answer { result_map_both P.numbers (λ e. e) result
            ≡ strict_of (is_exhausted P.Gen.generations self.old) (option_map
            (λ _. ((P.numbers p).0, raise P.Gen.generations self.old.counter))
            (look_up self.old.slots (P.numbers p))) }
        ensures done { IfOk result (λ q.
            IsStrictlyRenewed self.old P.Gen.generations (P.numbers p) (P.numbers q) self.new) }
        ensures refused { OnErr result (IsTouched self.old self.new) }
        ensures bounded { RisesByAtMost 6 self.old.steps self.new.steps }
        ensures others { (q : Pointer) → q.0 ≢ (P.numbers p).0
            → look_up self.new.slots q ≡ look_up self.old.slots q }

        // It is one strict call, by which a history goes on where generations count.
        ensures call { IsStrictEnding S.kind P.Gen.generations
            self.old (to_invalidate (P.numbers p))
            (calls_if_ok result (λ q. invalidation (P.numbers p) (P.numbers q))) self.new }
    {
        if self.is_exhausted_for(p) {
            return Err(StrictError::Exhausted);
        }
        let renewed = self.arena.invalidate(p).allow();
        renewed.ok_or(StrictError::InvalidPtr)
    }

    /// Drops all entries, and raises the counter once if there was one. The capacity stays.
    ///
    /// `Exhausted` exactly where there is an entry and the counter is at its greatest value. Then
    /// nothing changes.
    pub fn clear(&mut self) -> Result<(), StrictError>
    where
        T: Drop,
        // Done, no entry is left; refused, nothing changes.
        ensures answer { result
            ≡ strict_all (is_exhausted_for_any P.Gen.generations self.old) }
        ensures done { OnOk result (self.new
            ≡ cleared (raise P.Gen.generations) self.old) }
        ensures refused { OnErr result (self.new ≡ self.old) }
        ensures gone { OnOk result ((q : Pointer) → look_up self.new.slots q ≡ None) }

        // It is one strict call: where generations count, a history goes on by it, and the pointers of
        // all entries are gone for good.
        ensures call { IsStrictEnding S.kind P.Gen.generations
            self.old to_clear (calls_if_ok result (λ _. clearing (keys self.old.slots))) self.new }
        ensures gone_for_good { P.Gen.generations.counting ≡ true → OnOk result
            ((q : Pointer) → IsSome (look_up self.old.slots q) → IsGoneForGood self.new q) }
    {
        if self.is_exhausted_for_any() {
            return Err(StrictError::Exhausted);
        }
        let _answer = self.arena.clear();
        Ok(())
    }

    /// Takes out the entry at `inx`, and gives its generation and its value. The counter is raised,
    /// and where generations count, the entry's pointer is gone for good (`IsGoneForGood`). It touches
    /// at most 6 slots, and looks at two more.
    ///
    /// `InvalidPtr` exactly where there is no entry; else `Exhausted` exactly where the counter is at
    /// its greatest value. Then nothing changes but how many slots were touched.
    pub fn remove_inx(&mut self, inx: P::Inx) -> Result<(P::Gen, T), StrictError>
        // Done, the entry is gone; refused, nothing changes but the count of touches. Other
        // pointers find what they found.
        ensures answer { result_map_both (λ e. (P.Gen.number e.0, e.1)) (λ e. e) result
            ≡ strict_of (is_exhausted P.Gen.generations self.old)
            (entry self.old (P.Inx.number inx)) }
        ensures done { IfOk result (λ e. IsStrictlyRemoved self.old P.Gen.generations
            (P.Inx.number inx, P.Gen.number e.0) self.new) }
        ensures refused { OnErr result (IsTouched self.old self.new) }
        ensures bounded { RisesByAtMost 6 self.old.steps self.new.steps }
        ensures others { (q : Pointer) → q.0 ≢ P.Inx.number inx
            → look_up self.new.slots q ≡ look_up self.old.slots q }

        // It is one strict call: where generations count, a history goes on by it, and what was gone
        // for good stays so.
        ensures step { (p : Pointer) → p.0 ≡ P.Inx.number inx
            → IfOk result (λ e. p.1 ≡ P.Gen.number e.0)
            → IsStrictStep S.kind P.Gen.generations
            self.old (to_remove p) (calls_if_ok result (λ _. removal p)) self.new }
        ensures history { P.Gen.generations.counting ≡ true → Continues Fits self.old
            (calls_if_ok result (λ e. removal (P.Inx.number inx, P.Gen.number e.0))) self.new }
        ensures stays_gone { P.Gen.generations.counting ≡ true
            → (q : Pointer) → IsGoneForGood self.old q → IsGoneForGood self.new q }
    {
        match self.generation_at(inx) {
            None => Err(StrictError::InvalidPtr),
            Some(generation) => {
                let value = self.remove(P::_from_raw(inx, generation))?;
                Ok((generation, value))
            }
        }
    }
}
