//! Calls at two entries at once.

ghost use Rattle.std.specs.Prelude.{◌≡◌, ◌≢◌, IsSome, IfOk};
ghost use Rattle.std.specs.Int.NonZero.{non_zero_usize_get};
ghost use Rattle.triple_arena_stack.specs.Disjoint.{DisjointAnswer, MayWork, Worked};
ghost use Rattle.triple_arena_traits.specs.ArenaState.{slot_count, entry, with_value};
ghost use Rattle.triple_arena_traits.specs.DisjointEntries.{value_of};

use crate::base_arena::Arena;
use std::num::NonZeroUsize;
use triple_arena_base::GetDisjointMutError;
use triple_arena_ptr::{Ptr, PtrInx};
use triple_arena_slots::ArenaSlot;
use triple_arena_stack::NonZeroInxGenericStack;
use triple_arena_traits::pair_call::{EntriesCall, PairCall, ValuesCall};
use triple_arena_traits::{ArenaTrait, DisjointableArenaTrait};

impl<P: Ptr, T, S: NonZeroInxGenericStack<ArenaSlot<P, T>>> DisjointableArenaTrait<P, T>
    for Arena<P, T, S> {
    fn with_disjoint_mut<R, F: FnOnce(&mut T, &mut T) -> R>(
        &mut self,
        first: P,
        second: P,
        f: F,
    ) -> Result<R, GetDisjointMutError> {
        let (Some(first), Some(second)) = (self.find(first), self.find(second)) else {
            return Err(GetDisjointMutError::IndexOutOfBounds);
        };
        if first == second {
            return Err(GetDisjointMutError::OverlappingIndices);
        }
        Ok(self.work_on_two(first, second, ValuesCall { f }))
    }

    fn with_disjoint_inx_mut<R, F: FnOnce(P::Gen, &mut T, P::Gen, &mut T) -> R>(
        &mut self,
        first: P::Inx,
        second: P::Inx,
        f: F,
    ) -> Result<R, GetDisjointMutError> {
        let (i, j) = self.two_slots(first, second)?;
        let (Some(a), Some(b)) = (self.generation_at(first), self.generation_at(second)) else {
            return Err(GetDisjointMutError::IndexOutOfBounds);
        };
        Ok(self.work_on_two(i, j, EntriesCall { f, a, b }))
    }
}

impl<P: Ptr, T, S: NonZeroInxGenericStack<ArenaSlot<P, T>>> Arena<P, T, S> {
    // The numbers of two indexes that name two slots.
    fn two_slots(
        &self,
        first: P::Inx,
        second: P::Inx,
    ) -> Result<(NonZeroUsize, NonZeroUsize), GetDisjointMutError>
        ensures variant { DisjointAnswer (slot_count self.now)
            (P.Inx.number first) (P.Inx.number second) result }
        ensures numbers { IfOk result (λ both. (non_zero_usize_get both.0 ≡ P.Inx.number first)
            × (non_zero_usize_get both.1 ≡ P.Inx.number second)) }
    {
        let stack = self.slots.slots.uncounted_stack();
        let (Some(first), Some(second)) = (
            P::Inx::try_into_usize(first),
            P::Inx::try_into_usize(second),
        ) else {
            return Err(GetDisjointMutError::IndexOutOfBounds);
        };
        stack.check_disjoint(first, second)?;
        Ok((first, second))
    }

    // Makes the call at the values of the entries at two indexes.
    fn work_on_two<R, C: PairCall<T, R>>(
        &mut self,
        first: NonZeroUsize,
        second: NonZeroUsize,
        call: C,
    ) -> R
        requires first { IsSome (entry self.old (non_zero_usize_get first)) }
        requires second { IsSome (entry self.old (non_zero_usize_get second)) }
        requires apart { non_zero_usize_get first ≢ non_zero_usize_get second }
        requires callable { MayWork C.calls call (value_of (entry self.old (non_zero_usize_get first)))
            (value_of (entry self.old (non_zero_usize_get second))) }
        ensures { Worked C.calls call (value_of (entry self.old (non_zero_usize_get first)))
            (value_of (entry self.old (non_zero_usize_get second)))
            result (λ x y. self.new ≡ with_value
            (with_value self.old (non_zero_usize_get first) x) (non_zero_usize_get second) y) }
    {
        self.slots.slots.uncounted_work_on_two(first, second, call)
    }
}
