//! Draining a strict arena.

ghost use Rattle.std.specs.Prelude.{◌≡◌, ◌↔◌, true, false, IsOk, IfOk, IfErr, IsSome, Some};
ghost use Rattle.std.specs.Borrow.{sem};
ghost use Rattle.std.specs.Iterator.{at_most};
ghost use Rattle.std.specs.Option.{option_map};
ghost use Rattle.triple_arena_ptr.specs.Numbers.{greatest_index, raise};
ghost use Rattle.triple_arena_ptr.specs.Pointers.{Pointer};
ghost use Rattle.triple_arena_traits.specs.Entries.{look_up};
ghost use Rattle.triple_arena_traits.specs.ArenaState.{arena_len};
ghost use Rattle.triple_arena_traits.specs.SlotSteps.{IsTouched};
ghost use Rattle.triple_arena_traits.specs.Compression.{raised_if_any};
ghost use Rattle.triple_arena_traits.specs.Walks.{Steps, IsBeforeAll};
ghost use Rattle.triple_arena_direct.specs.Gone.{IsGoneForGood};
ghost use Rattle.triple_arena_direct.specs.StrictAnswers.{is_exhausted_for_any};
ghost use Rattle.triple_arena_direct.specs.StrictRetain.{emptied};
ghost use Rattle.triple_arena_direct.specs.StrictDrains.{strict_drain_arena, strict_drain_lender, strict_drain_stand, strict_drain_rests, StrictDrainStep, TakesEntry};
ghost use Rattle.triple_arena_direct.specs.StrictDone.{IsStrictlyDraining};

use super::StrictArena;
use super::retain::{raise_if, take_out};
use crate::errors::StrictError;
use triple_arena::arena_iterators::PtrAdvancer;
use triple_arena::{ArenaSlot, ArenaTrait, LendingArena};
use triple_arena_base::Advancer;
use triple_arena_ptr::{Ptr, PtrGen, PtrInx};
use triple_arena_stack::{NonZeroInxGenericStack, NonZeroInxVec};

/// Takes the entries out of a strict arena, in the order of their indexes, under the one raise of the
/// counter that [`StrictArena::drain`] has made. Let go, it drops those that are left.
pub struct StrictDrain<
    'a,
    P: Ptr,
    T: Drop,
    S: NonZeroInxGenericStack<ArenaSlot<P, T>> = NonZeroInxVec<ArenaSlot<P, T>>,
> {
    arena: &'a mut StrictArena<P, T, S>,
    advancer: PtrAdvancer<P>,
}

impl<'a, P: Ptr, T: Drop, S: NonZeroInxGenericStack<ArenaSlot<P, T>>> Drop
    for StrictDrain<'a, P, T, S> {
    fn drop(self)
        ensures { self.exit.0.now ≡ emptied (strict_drain_arena self.entry) }
    {
        let StrictDrain { arena, advancer } = self;
        drop(advancer);
        arena.drop_rest();
    }
}

impl<'a, P: Ptr, T: Drop, S: NonZeroInxGenericStack<ArenaSlot<P, T>>> Iterator
    for StrictDrain<'a, P, T, S> {
    type Item = (P, T);

    ghost next_gives = { λ before item after. (strict_drain_lender after ≡ strict_drain_lender before)
        × IsTouched (emptied (strict_drain_arena before)) (emptied (strict_drain_arena after))
        × (IsBeforeAll (strict_drain_arena before).slots (strict_drain_stand before)
        → StrictDrainStep P.numbers (strict_drain_arena before) item (strict_drain_arena after)
        × IsBeforeAll (strict_drain_arena after).slots (strict_drain_stand after)) };

    ghost remaining = { λ drain. at_most (arena_len (strict_drain_arena drain)) };

    fn next(&mut self) -> Option<(P, T)> {
        let (p, value) = self.arena.take_next(&mut self.advancer)?;
        Some((p, value))
    }

    fn size_hint(&self) -> (usize, Option<usize>) {
        let left = self.len();
        (left, Some(left))
    }
}

impl<'a, P: Ptr, T: Drop, S: NonZeroInxGenericStack<ArenaSlot<P, T>>> ExactSizeIterator
    for StrictDrain<'a, P, T, S> {
    fn len(&self) -> usize {
        self.arena.len()
    }
}

impl<P: Ptr, T, S: NonZeroInxGenericStack<ArenaSlot<P, T>>> StrictArena<P, T, S> {
    /// Takes out the entries, in the order of their indexes, one with each step. The counter is raised
    /// once, at once, if there is an entry. Let go, it drops those that are left, so that the arena is
    /// empty whether the drain was walked or not; where generations count, the pointers of all entries
    /// are gone for good then (`IsGoneForGood`). The capacity stays.
    ///
    /// `Exhausted` exactly where there is an entry and the counter is at its greatest value. Then
    /// nothing changes.
    pub fn drain(&mut self) -> Result<StrictDrain<'_, P, T, S>, StrictError>
    where
        T: Drop,
        // Done: the drain begins before all entries, and let go it leaves an empty arena, as one strict
        // call.
        ensures variant { IsOk result ↔ (is_exhausted_for_any P.Gen.generations self.old ≡ false) }
        ensures done { IfOk result (λ drain. IsStrictlyDraining self.old P.Gen.generations S.kind
            (strict_drain_stand drain) (strict_drain_arena drain)) }

        // It holds this arena until then. Refused: the counter is exhausted, and nothing changes.
        ensures exhausted { IfErr result (λ e. e ≡ StrictError.Exhausted) }
        ensures same_reference { IfOk result
            (λ drain. strict_drain_lender drain ≡ self.entry.ghost_name) }
        ensures* refused { sem 𝓛 (strict_drain_rests
            ⟦<StrictArena<P, T, S> as LendingArena>⟧.arena_row self.entry result) }
    {
        if self.is_exhausted_for_any() {
            return Err(StrictError::Exhausted);
        }
        self.raise_if_any();
        Ok(StrictDrain {
            advancer: self.arena.advancer(),
            arena: self,
        })
    }

    // Raises the counter if there is an entry, where it isn't exhausted. Once all is dropped then, each pointer that
    // had an entry is gone for good.
    fn raise_if_any(&mut self)
        requires { is_exhausted_for_any P.Gen.generations self.old ≡ false }
        ensures state { self.new ≡ record self.old
            { counter = raised_if_any (raise P.Gen.generations) self.old } }
        ensures gone_for_good { P.Gen.generations.counting ≡ true → (q : Pointer)
            → IsSome (look_up self.old.slots q) → IsGoneForGood (emptied self.new) q }
        ensures stays_gone { P.Gen.generations.counting ≡ true → (q : Pointer)
            → IsGoneForGood self.old q → IsGoneForGood (emptied self.new) q }
    {
        let any = !self.arena.is_empty();
        raise_if(&mut self.arena, any);
    }

    // Goes on to the next entry, and takes it out; the counter stays.
    fn take_next(&mut self, advancer: &mut PtrAdvancer<P>) -> Option<(P, T)>
        ensures taken { TakesEntry P.numbers self.old result self.new }
        ensures steps { Steps (greatest_index P.Inx.greatest) self.old.slots advancer.old
            (option_map (λ e. P.numbers e.0) result) advancer.new }
        ensures leaves { IsTouched (emptied self.old) (emptied self.new) }
    {
        let p = advancer.advance(&self.arena)?;
        let value = take_out(&mut self.arena, p);
        Some((p, value))
    }

    // Drops the entries; the counter stays.
    fn drop_rest(&mut self)
    where
        T: Drop,
        ensures { self.new ≡ emptied self.old }
    {
        let counter = self.arena.generation();
        let _answer = self.arena.clear();
        self.arena.set_generation(counter);
    }
}
