//! What reaches the slots of an arena uncounted, by their stack: a value or all slots lent, reallocation, and what
//! goes through many slots. Bounded work makes none of these calls.

ghost use Rattle.std.specs.Prelude.{◌≡◌, ◌≢◌, ◌≤◌, ◌↔◌, [], map, length, Some, Err, IsSome, IsOk, OnOk, OnErr};
ghost use Rattle.std.specs.Borrow.{sem};
ghost use Rattle.std.specs.Int.NonZero.{non_zero_usize_get};
ghost use Rattle.triple_arena_ptr.specs.Numbers.{greatest_index};
ghost use Rattle.triple_arena_stack.specs.StackKind.{reallocated_room};
ghost use Rattle.triple_arena_stack.specs.Capacity.{stack_capacity, IsWithin, IsBeyond};
ghost use Rattle.triple_arena_stack.specs.Disjoint.{MayWork, Worked};
ghost use Rattle.triple_arena_traits.specs.Entries.{entry_in, entry_count};
ghost use Rattle.triple_arena_traits.specs.FreeList.{last_index};
ghost use Rattle.triple_arena_traits.specs.Walks.{entries};
ghost use Rattle.triple_arena_traits.specs.Copying.{Copies};
ghost use Rattle.triple_arena_traits.specs.Transfers.{Transfers};
ghost use Rattle.triple_arena_traits.specs.DisjointEntries.{value_of};
ghost use Rattle.triple_arena_traits.specs.SlotPairs.{WritesTwo};

use crate::slot_stack::SlotStack;
use std::num::NonZeroUsize;
use triple_arena_base::{InvalidationOption, MaxCapacityReductionError, ReallocationError};
use triple_arena_ptr::{Ptr, PtrGen, PtrInx};
use triple_arena_stack::{NonZeroInxGenericStack, SetMaxCapacity};
use triple_arena_traits::copying::copy_entries;
use triple_arena_traits::entry_slots::work_on_two;
use triple_arena_traits::pair_call::PairCall;
use triple_arena_traits::transferring::transfer_entries;
use triple_arena_traits::{CompactArenaTrait, EntrySlot};

impl<P: Ptr, T, X: EntrySlot<P, T>, S: NonZeroInxGenericStack<X>> SlotStack<P, T, X, S> {
    ghost use Rattle.triple_arena_slots.specs.Lends.{lends_value, lends_refilled};

    /// The value of the entry at an index, for writing. There is one.
    pub fn uncounted_value_mut(&mut self, inx: NonZeroUsize) -> &mut T
        requires { IsSome (entry_in (map X.entry (S.items self.old.stack)) (non_zero_usize_get inx)) }
        ensures* writes_back { sem 𝓛 (lends_value P.row T.row X.row S.row P.Inx.row P.Gen.row
            S.items S.with_items X.with_value self.entry (non_zero_usize_get inx) result) }
        ensures value { value_of (entry_in (map X.entry (S.items self.old.stack))
            (non_zero_usize_get inx)) ≡ Some result.now }
    {
        let slot = self.uncounted_stack_mut().get_mut(inx).unwrap();
        slot.value_mut()
    }

    /// The slots, for writing.
    pub fn uncounted_as_mut_slice(&mut self) -> &mut [X]
        ensures* writes_back { sem 𝓛 (lends_refilled P.row T.row X.row S.row P.Inx.row P.Gen.row
            S.items S.with_items self.entry result) }
        ensures value { result.now ≡ S.items self.old.stack }
    {
        self.uncounted_stack_mut().as_mut_slice()
    }

    /// Makes the call at the values of the entries at two indexes, where entries stand. Both are lent to it
    /// at once; what it writes stands there, and no other slot changes.
    pub fn uncounted_work_on_two<R, C: PairCall<T, R>>(
        &mut self,
        first: NonZeroUsize,
        second: NonZeroUsize,
        call: C,
    ) -> R
        requires first { IsSome (entry_in (map X.entry (S.items self.old.stack))
            (non_zero_usize_get first)) }
        requires second { IsSome (entry_in (map X.entry (S.items self.old.stack))
            (non_zero_usize_get second)) }
        requires apart { non_zero_usize_get first ≢ non_zero_usize_get second }
        requires callable { MayWork C.calls call
            (value_of (entry_in (map X.entry (S.items self.old.stack)) (non_zero_usize_get first)))
            (value_of (entry_in (map X.entry (S.items self.old.stack)) (non_zero_usize_get second))) }
        ensures worked { Worked C.calls call
            (value_of (entry_in (map X.entry (S.items self.old.stack)) (non_zero_usize_get first)))
            (value_of (entry_in (map X.entry (S.items self.old.stack)) (non_zero_usize_get second)))
            result (WritesTwo X.with_value (S.items self.old.stack) (S.items self.new.stack)
            (non_zero_usize_get first) (non_zero_usize_get second)) }
        ensures room { S.room self.new.stack ≡ S.room self.old.stack }
        ensures limit { S.limit self.new.stack ≡ S.limit self.old.stack }
        ensures steps { self.new.steps.count ≡ self.old.steps.count }
    {
        work_on_two::<P, T, X, S, R, C>(self.uncounted_stack_mut(), first, second, call)
    }

    /// Reallocates the stack to a capacity of at least `min_capacity`, and leaves the slots as they are. It is
    /// refused beyond the limit and where there is no memory; then the room is what it was.
    pub fn uncounted_reallocate(&mut self, min_capacity: usize) -> Result<(), ReallocationError>
        ensures items { S.items self.new.stack ≡ S.items self.old.stack }
        ensures limit { S.limit self.new.stack ≡ S.limit self.old.stack }
        ensures room { OnOk result (S.room self.new.stack ≡ reallocated_room S.kind
            (S.room self.old.stack) (length (S.items self.old.stack)) min_capacity) }
        ensures refused { OnErr result (S.room self.new.stack ≡ S.room self.old.stack) }
        ensures within { OnOk result (IsWithin (S.limit self.old.stack) min_capacity) }
        ensures beyond { (result ≡ Err ReallocationError.BeyondMaxCapacity)
            ↔ IsBeyond (S.limit self.old.stack) min_capacity }
        ensures succeeds { IsWithin (S.limit self.old.stack) min_capacity
            → reallocated_room S.kind
            (S.room self.old.stack) (length (S.items self.old.stack)) min_capacity
            ≡ S.room self.old.stack → IsOk result }
        ensures with_memory { IsWithin (S.limit self.old.stack) min_capacity
            → S.has_memory (reallocated_room S.kind
            (S.room self.old.stack) (length (S.items self.old.stack)) min_capacity)
            → IsOk result }
        ensures place { OnOk result
            (min_capacity ≤ stack_capacity (S.room self.new.stack) (S.limit self.new.stack)) }
        ensures fits { length (S.items self.new.stack)
            ≤ stack_capacity (S.room self.new.stack) (S.limit self.new.stack) }
        ensures steps { self.new.steps.count ≡ self.old.steps.count }
    {
        // Room and limit are those of the stack's kind.
        let _limit = self.max_capacity();
        let answer = self
            .uncounted_stack_mut()
            .reallocate_min_capacity(min_capacity);
        // There are no more items than fit.
        let _capacity = self.capacity();
        answer
    }

    /// Holds the entries of an arena, where there is no slot, under the same pointers, each mapped by the
    /// closure, up to its first refusal. Gives the number of entries. There is room up to the last of them.
    pub fn uncounted_copy<U, E, A: CompactArenaTrait<P, U>, M: FnMut(P, &U) -> Result<T, E>>(
        &mut self,
        source: &A,
        f: M,
    ) -> (usize, Result<(), E>)
        requires callable { M.IsAlwaysCallable f }
        requires empty { S.items self.old.stack ≡ [] }
        requires fits { last_index (A.slots source.now)
            ≤ stack_capacity (S.room self.old.stack) (S.limit self.old.stack) }
        ensures copied { Copies P.numbers M.step f (entries (A.slots source.now)) result.1
            (map X.entry (S.items self.new.stack)) }
        ensures ends { length (S.items self.new.stack) ≤ last_index (A.slots source.now) }
        ensures count { result.0
            ≡ entry_count (map X.entry (S.items self.new.stack)) }
        ensures room { S.room self.new.stack ≡ S.room self.old.stack }
        ensures limit { S.limit self.new.stack ≡ S.limit self.old.stack }
        ensures steps { self.new.steps.count ≡ self.old.steps.count }
    {
        copy_entries::<P, T, X, S, U, E, A, M>(self.uncounted_stack_mut(), source, f)
    }

    /// Takes the entries of an arena out, one by one in order, and holds them, where there is no slot,
    /// from index 1 on, each mapped by the closure, under this generation. Gives their number. There is room
    /// for them, and an index for each.
    pub fn uncounted_take_over<
        Q: Ptr,
        U,
        A: CompactArenaTrait<Q, U>,
        M: FnMut(Q, InvalidationOption<U>, P) -> T,
    >(&mut self, generation: P::Gen, source: &mut A, f: M) -> usize
        requires callable { M.IsAlwaysCallable f }
        requires empty { S.items self.old.stack ≡ [] }
        requires fits { entry_count (A.slots source.old)
            ≤ stack_capacity (S.room self.old.stack) (S.limit self.old.stack) }
        requires indexed { entry_count (A.slots source.old) ≤ greatest_index P.Inx.greatest }
        ensures transferred { Transfers Q.numbers P.numbers M.step A.slots A.fits A.removes
            A.ending_wraps Q.Gen.generations (P.Gen.number generation) f source.old source.new
            (map X.entry (S.items self.new.stack)) }
        ensures emptied { entry_count (A.slots source.new) ≡ 0 }
        ensures count { result ≡ entry_count (A.slots source.old) }
        ensures many { length (S.items self.new.stack) ≡ entry_count (A.slots source.old) }
        ensures room { S.room self.new.stack ≡ S.room self.old.stack }
        ensures limit { S.limit self.new.stack ≡ S.limit self.old.stack }
        ensures steps { self.new.steps.count ≡ self.old.steps.count }
    {
        transfer_entries::<P, T, X, S, Q, U, A, M>(
            self.uncounted_stack_mut(),
            generation,
            source,
            f,
        );
        self.len()
    }
}

impl<P: Ptr, T, X: EntrySlot<P, T>, S: SetMaxCapacity<X>> SlotStack<P, T, X, S> {
    /// Sets the limit of the stack, and leaves the slots as they are. A limit below their number is refused,
    /// and then the one before stands.
    pub fn uncounted_set_max_capacity(
        &mut self,
        max_capacity: usize,
    ) -> Result<(), MaxCapacityReductionError>
        ensures variant { IsOk result ↔ (length (S.items self.old.stack) ≤ max_capacity) }
        ensures items { S.items self.new.stack ≡ S.items self.old.stack }
        ensures room { S.room self.new.stack ≡ S.room self.old.stack }
        ensures limit { OnOk result (S.limit self.new.stack ≡ Some max_capacity) }
        ensures refused { OnErr result (S.limit self.new.stack ≡ S.limit self.old.stack) }
        ensures steps { self.new.steps.count ≡ self.old.steps.count }
    {
        self.uncounted_stack_mut().set_max_capacity(max_capacity)
    }
}
