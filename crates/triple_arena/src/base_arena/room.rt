//! The room of an arena, and its limit.

ghost use Rattle.std.specs.Prelude.{◌≡◌, ◌≤◌, ◌∷◌, ◌↔◌, [], IsOk, OnOk, OnErr, Some, Err};
ghost use Rattle.triple_arena_ptr.specs.Numbers.{greatest_index};
ghost use Rattle.triple_arena_stack.specs.Capacity.{IsWithin, IsBeyond};
ghost use Rattle.triple_arena_traits.specs.ArenaState.{slot_count, capacity};
ghost use Rattle.triple_arena_traits.specs.SlotSteps.{IsTouched};
ghost use Rattle.triple_arena_traits.specs.FreeList.{tidied};
ghost use Rattle.triple_arena_traits.specs.Reallocation.{with_room_for, EndsBy, ready_for_limit, with_limit};
ghost use Rattle.triple_arena_traits.specs.Histories.{resizing, Fits, Continues};

use crate::base_arena::Arena;
use triple_arena_base::{MaxCapacityReductionError, ReallocationError};
use triple_arena_ptr::{Ptr, PtrInx};
use triple_arena_slots::ArenaSlot;
use triple_arena_stack::{NonZeroInxGenericStack, SetMaxCapacity};
use triple_arena_traits::ArenaTrait;

impl<P: Ptr, T, S: NonZeroInxGenericStack<ArenaSlot<P, T>>> Arena<P, T, S> {
    // Reallocates the stack, and leaves the slots as they are. It is rare, and kept out of insertion.
    #[cold]
    #[inline(never)]
    pub(super) fn reallocate(&mut self, min_capacity: usize) -> Result<(), ReallocationError>
        ensures done { OnOk result (self.new ≡ with_room_for S.kind self.old min_capacity) }
        ensures refused { OnErr result (self.new ≡ self.old) }
        ensures within { OnOk result (IsWithin self.old.limit min_capacity) }
        ensures beyond { (result ≡ Err ReallocationError.BeyondMaxCapacity)
            ↔ IsBeyond self.old.limit min_capacity }
        ensures succeeds { IsWithin self.old.limit min_capacity
            → (with_room_for S.kind self.old min_capacity).room ≡ self.old.room → IsOk result }
        ensures with_memory { IsWithin self.old.limit min_capacity
            → S.has_memory (with_room_for S.kind self.old min_capacity).room → IsOk result }
        ensures place { OnOk result (min_capacity ≤ greatest_index P.Inx.greatest
            → min_capacity ≤ capacity self.new) }
    {
        self.slots.slots.uncounted_reallocate(min_capacity)
    }
}

impl<P: Ptr, T, S: SetMaxCapacity<ArenaSlot<P, T>>> Arena<P, T, S> {
    /// Sets the limit to `max_capacity`, a number of slots. It takes no memory, and the room stays:
    /// the capacity is then the smallest of room, limit and greatest index.
    ///
    /// Where the new limit is below the old one and the capacity, first the free list is
    /// tidied, as by `canonicalize_freelist`; that stays done where the limit is refused.
    ///
    /// Refused exactly where an entry stands at an index past `max_capacity`; then all stays but the
    /// free list, which is tidied.
    pub fn set_max_capacity(&mut self, max_capacity: usize) -> Result<(), MaxCapacityReductionError>
        ensures variant { IsOk result ↔ EndsBy self.old max_capacity }
        ensures done { OnOk result (IsTouched (with_limit self.old max_capacity) self.new) }
        ensures refused { OnErr result (IsTouched (tidied self.old) self.new) }
        ensures history { Continues Fits self.old (resizing ∷ []) self.new }
    {
        self.make_ready_for_limit(max_capacity);
        self.set_limit(max_capacity)
    }

    // Tidies the free list where the limit to come is below the capacity.
    fn make_ready_for_limit(&mut self, limit: usize)
        ensures state { IsTouched (ready_for_limit self.old limit) self.new }
        ensures fits { slot_count self.old ≤ capacity self.old }
    {
        if limit < self.capacity() {
            self.canonicalize_freelist();
        }
    }

    // Sets the limit of the stack, and leaves the slots as they are.
    fn set_limit(&mut self, limit: usize) -> Result<(), MaxCapacityReductionError>
        ensures variant { IsOk result ↔ (slot_count self.old ≤ limit) }
        ensures done { OnOk result (self.new ≡ record self.old { limit = Some limit }) }
        ensures refused { OnErr result (self.new ≡ self.old) }
    {
        self.slots.slots.uncounted_set_max_capacity(limit)
    }
}
