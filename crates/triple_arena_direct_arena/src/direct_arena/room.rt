//! The room of a direct arena, and its limit.

ghost use Rattle.std.specs.Prelude.{◌≡◌, ◌≤◌, ◌↔◌, IsOk, OnOk, OnErr, Err, ◌-◌};
ghost use Rattle.triple_arena_ptr.specs.Numbers.{greatest_index};
ghost use Rattle.triple_arena_stack.specs.Capacity.{IsWithin, IsBeyond};
ghost use Rattle.triple_arena_traits.specs.FreeList.{last_index};
ghost use Rattle.triple_arena_direct_arena.specs.DirectState.{direct_slot_count, direct_capacity, direct_shortened, direct_with_room_for, direct_with_limit};

use crate::direct_arena::DirectArena;
use crate::slot::DirectSlot;
use triple_arena_base::{MaxCapacityReductionError, ReallocationError};
use triple_arena_ptr::{Ptr, PtrInx};
use triple_arena_stack::{NonZeroInxGenericStack, SetMaxCapacity};
use triple_arena_traits::entry_slots::shorten;

impl<P: Ptr, T, S: NonZeroInxGenericStack<DirectSlot<P, T>>> DirectArena<P, T, S> {
    // Reallocates the stack, and leaves the slots as they are.
    pub(super) fn reallocate(&mut self, min_capacity: usize) -> Result<(), ReallocationError>
        ensures done { OnOk result (self.new ≡ direct_with_room_for S.kind self.old min_capacity) }
        ensures refused { OnErr result (self.new ≡ self.old) }
        ensures within { OnOk result (IsWithin self.old.limit min_capacity) }
        ensures beyond { (result ≡ Err ReallocationError.BeyondMaxCapacity)
            ↔ IsBeyond self.old.limit min_capacity }
        ensures succeeds { IsWithin self.old.limit min_capacity
            → (direct_with_room_for S.kind self.old min_capacity).room ≡ self.old.room
            → IsOk result }
        ensures with_memory { IsWithin self.old.limit min_capacity
            → S.has_memory (direct_with_room_for S.kind self.old min_capacity).room → IsOk result }
        ensures place { OnOk result (min_capacity ≤ greatest_index P.Inx.greatest
            → min_capacity ≤ direct_capacity self.new) }
    {
        self.slots.uncounted_reallocate(min_capacity)
    }

    /// Pops free slots at the end, at most `num`, and tells how many. It takes no memory, and no
    /// entry moves.
    pub fn pop_free_end_slots(&mut self, num: usize) -> usize
        ensures state { self.new ≡ direct_shortened self.old (direct_slot_count self.old - num) }
        ensures popped { result ≡ direct_slot_count self.old - direct_slot_count self.new }
    {
        let before = self.slots.len();
        self.shorten(before.saturating_sub(num));
        before.saturating_sub(self.slots.len())
    }

    // Pops the free slots at the end, as long as there are more slots than `len`.
    pub(super) fn shorten(&mut self, len: usize)
        ensures { self.new ≡ direct_shortened self.old len }
    {
        shorten::<P, T, DirectSlot<P, T>, S>(self.slots.uncounted_stack_mut(), len);
    }
}

impl<P: Ptr, T, S: SetMaxCapacity<DirectSlot<P, T>>> DirectArena<P, T, S> {
    /// Sets the limit to `max_capacity`, a number of slots. It takes no memory, and the room stays:
    /// the capacity is then the smallest of room, limit and greatest index.
    ///
    /// First free slots at the end go, as far as there are more slots than `max_capacity`; that
    /// stays done where the limit is refused. Refused exactly where more slots are left, and so
    /// exactly where an entry stands past `max_capacity`.
    pub fn set_max_capacity(&mut self, max_capacity: usize) -> Result<(), MaxCapacityReductionError>
        ensures variant { IsOk result
            ↔ (direct_slot_count (direct_shortened self.old max_capacity) ≤ max_capacity) }
        ensures bound { IsOk result ↔ (last_index self.old.slots ≤ max_capacity) }
        ensures done { OnOk result (self.new
            ≡ direct_with_limit (direct_shortened self.old max_capacity) max_capacity) }
        ensures refused { OnErr result (self.new ≡ direct_shortened self.old max_capacity) }
    {
        self.shorten(max_capacity);
        self.set_limit(max_capacity)
    }

    // Sets the limit of the stack, and leaves the slots as they are.
    fn set_limit(&mut self, limit: usize) -> Result<(), MaxCapacityReductionError>
        ensures variant { IsOk result ↔ (direct_slot_count self.old ≤ limit) }
        ensures done { OnOk result (self.new ≡ direct_with_limit self.old limit) }
        ensures refused { OnErr result (self.new ≡ self.old) }
    {
        self.slots.uncounted_set_max_capacity(limit)
    }
}
