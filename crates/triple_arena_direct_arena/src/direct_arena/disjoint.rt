//! Calls at two entries at once.

ghost use Rattle.std.specs.Prelude.{◌≡◌, ◌≢◌, IfOk, [], IsSome, OnErr};
ghost use Rattle.std.specs.Int.NonZero.{non_zero_usize_get};
ghost use Rattle.triple_arena_traits.specs.Entries.{entry_in, look_up};
ghost use Rattle.triple_arena_traits.specs.Histories.{Continues};
ghost use Rattle.triple_arena_traits.specs.DisjointEntries.{value_of, DisjointPtrAnswer, DisjointInxAnswer, MayWorkAtEntries, WorkedAtEntries};
ghost use Rattle.triple_arena_stack.specs.Disjoint.{DisjointAnswer, MayWork, Worked};
ghost use Rattle.triple_arena_direct_arena.specs.DirectState.{direct_slot_count, direct_with_value};

use crate::direct_arena::DirectArena;
use crate::slot::DirectSlot;
use std::num::NonZeroUsize;
use triple_arena_base::GetDisjointMutError;
use triple_arena_ptr::{Ptr, PtrGen, PtrInx};
use triple_arena_stack::NonZeroInxGenericStack;
use triple_arena_traits::pair_call::{EntriesCall, PairCall, ValuesCall};
use triple_arena_traits::{ArenaTrait, DisjointableArenaTrait};

impl<P: Ptr, T, S: NonZeroInxGenericStack<DirectSlot<P, T>>> DisjointableArenaTrait<P, T>
    for DirectArena<P, T, S> {
    fn with_disjoint_mut<R, F: FnOnce(&mut T, &mut T) -> R>(
        &mut self,
        first: P,
        second: P,
        f: F,
    ) -> Result<R, GetDisjointMutError>
        requires { (P.numbers first).0 ≢ (P.numbers second).0 → MayWork F.FnOnce f
            (look_up self.old.slots (P.numbers first))
            (look_up self.old.slots (P.numbers second)) }
        ensures variant { DisjointPtrAnswer self.old.slots
            (P.numbers first) (P.numbers second) result }
        ensures refused { OnErr result (self.new ≡ self.old) }
        ensures worked { IfOk result (λ r. Worked F.FnOnce f
            (look_up self.old.slots (P.numbers first))
            (look_up self.old.slots (P.numbers second))
            r (λ x y. self.new ≡ direct_with_value
            (direct_with_value self.old (P.numbers first).0 x) (P.numbers second).0 y)) }
        ensures history { Continues (λ _ _. ⊥) self.old [] self.new }
    {
        let (Some(first), Some(second)) = (self.find(first), self.find(second)) else {
            return Err(GetDisjointMutError::IndexOutOfBounds);
        };
        if first == second {
            return Err(GetDisjointMutError::OverlappingIndices);
        }
        Ok(self.work_on_two(first, second, ValuesCall { f }))
    }

    fn with_disjoint_inx_mut<R, F: FnOnce(P::Gen, &mut T, P::Gen, &mut T) -> R>(
        &mut self,
        first: P::Inx,
        second: P::Inx,
        f: F,
    ) -> Result<R, GetDisjointMutError>
        requires { P.Inx.number first ≢ P.Inx.number second
            → MayWorkAtEntries P.Gen.number F.FnOnce f
            (entry_in self.old.slots (P.Inx.number first))
            (entry_in self.old.slots (P.Inx.number second)) }
        ensures variant { DisjointInxAnswer self.old.slots
            (P.Inx.number first) (P.Inx.number second) result }
        ensures refused { OnErr result (self.new ≡ self.old) }
        ensures worked { IfOk result (λ r. WorkedAtEntries P.Gen.number F.FnOnce f
            (entry_in self.old.slots (P.Inx.number first))
            (entry_in self.old.slots (P.Inx.number second))
            r (λ x y. self.new ≡ direct_with_value
            (direct_with_value self.old (P.Inx.number first) x) (P.Inx.number second) y)) }
        ensures history { Continues (λ _ _. ⊥) self.old [] self.new }
    {
        let (i, j) = self.two_slots(first, second)?;
        let (Some(a), Some(b)) = (self.generation_at(first), self.generation_at(second)) else {
            return Err(GetDisjointMutError::IndexOutOfBounds);
        };
        Ok(self.work_on_two(i, j, EntriesCall { f, a, b }))
    }
}

impl<P: Ptr, T, S: NonZeroInxGenericStack<DirectSlot<P, T>>> DirectArena<P, T, S> {
    // The numbers of two indexes that name two slots.
    fn two_slots(
        &self,
        first: P::Inx,
        second: P::Inx,
    ) -> Result<(NonZeroUsize, NonZeroUsize), GetDisjointMutError>
        ensures variant { DisjointAnswer (direct_slot_count self.now)
            (P.Inx.number first) (P.Inx.number second) result }
        ensures numbers { IfOk result (λ both. (non_zero_usize_get both.0 ≡ P.Inx.number first)
            × (non_zero_usize_get both.1 ≡ P.Inx.number second)) }
    {
        let stack = self.slots.uncounted_stack();
        let first = P::Inx::try_into_usize(first).ok_or(GetDisjointMutError::IndexOutOfBounds)?;
        let second = P::Inx::try_into_usize(second).ok_or(GetDisjointMutError::IndexOutOfBounds)?;
        stack.check_disjoint(first, second)?;
        Ok((first, second))
    }

    // Makes the call at the values of the entries at two indexes.
    fn work_on_two<R, C: PairCall<T, R>>(
        &mut self,
        first: NonZeroUsize,
        second: NonZeroUsize,
        call: C,
    ) -> R
        requires first { IsSome (entry_in self.old.slots (non_zero_usize_get first)) }
        requires second { IsSome (entry_in self.old.slots (non_zero_usize_get second)) }
        requires apart { non_zero_usize_get first ≢ non_zero_usize_get second }
        requires callable { MayWork C.calls call
            (value_of (entry_in self.old.slots (non_zero_usize_get first)))
            (value_of (entry_in self.old.slots (non_zero_usize_get second))) }
        ensures { Worked C.calls call
            (value_of (entry_in self.old.slots (non_zero_usize_get first)))
            (value_of (entry_in self.old.slots (non_zero_usize_get second)))
            result (λ x y. self.new ≡ direct_with_value
            (direct_with_value self.old (non_zero_usize_get first) x)
            (non_zero_usize_get second) y) }
    {
        self.slots.uncounted_work_on_two(first, second, call)
    }
}
