//! The room of a strict arena, its limit, and its free list.

ghost use Rattle.std.specs.Prelude.{◌≡◌, ◌≤◌, ◌↔◌, ◌∷◌, [], false, IsOk, OnOk, OnErr, Some, Err, ◌+◌, ◌-◌, ◌*◌};
ghost use Rattle.triple_arena_ptr.specs.Numbers.{greatest_index};
ghost use Rattle.triple_arena_stack.specs.Capacity.{IsWithin, IsBeyond};
ghost use Rattle.triple_arena_traits.specs.ArenaState.{slot_count, capacity, is_free};
ghost use Rattle.triple_arena_traits.specs.SlotSteps.{RisesByAtMost, IsTouched};
ghost use Rattle.triple_arena_traits.specs.FreeList.{tidied, without_free_end, IsTidied};
ghost use Rattle.triple_arena_traits.specs.Reallocation.{reallocated, KeepsRoom, EndsBy, with_limit};
ghost use Rattle.triple_arena_traits.specs.Histories.{resizing};
ghost use Rattle.triple_arena_direct.specs.StrictCalls.{IsStrictCall, to_reallocate, to_limit, to_tidy, to_give_up_end};
ghost use Rattle.triple_arena_direct.specs.StrictDone.{IsStrictlyReallocated, KeepsLookUps};
ghost use Rattle.triple_arena_traits.specs.Items.{item};

use super::StrictArena;
use triple_arena::{ArenaSlot, ArenaTrait};
use triple_arena_base::{MaxCapacityReductionError, ReallocationError};
use triple_arena_ptr::{Ptr, PtrGen, PtrInx};
use triple_arena_stack::{NonZeroInxGenericStack, SetMaxCapacity};

impl<P: Ptr, T, S: NonZeroInxGenericStack<ArenaSlot<P, T>>> StrictArena<P, T, S> {
    /// Changes the room so that there is place for `min_capacity` entries, and for the slots that are
    /// in use. First the free list is tidied, and that stays done where the rest is refused.
    ///
    /// `AllocError` where `min_capacity` is past the greatest index; else `BeyondMaxCapacity` exactly
    /// where the limit is below it; else `AllocError` where memory is refused. Where the room stays the
    /// same, no memory is taken.
    pub fn reallocate_min_capacity(&mut self, min_capacity: usize) -> Result<(), ReallocationError>
        // Done, there is room for so many; refused, the free list is tidied alone.
        ensures done { OnOk result (IsStrictlyReallocated self.old S.kind
            (greatest_index P.Inx.greatest) min_capacity self.new) }
        ensures refused { OnErr result (IsTouched (tidied self.old) self.new) }

        // When it is refused, and when not.
        ensures beyond { (result ≡ Err ReallocationError.BeyondMaxCapacity)
            ↔ ((min_capacity ≤ greatest_index P.Inx.greatest)
            × IsBeyond self.old.limit min_capacity) }
        ensures succeeds { min_capacity ≤ greatest_index P.Inx.greatest
            → IsWithin self.old.limit min_capacity
            → KeepsRoom S.kind self.old min_capacity → IsOk result }
        ensures with_memory { min_capacity ≤ greatest_index P.Inx.greatest
            → IsWithin self.old.limit min_capacity
            → S.has_memory (reallocated S.kind self.old min_capacity).room → IsOk result }

        // In each case every pointer finds what it found, and the limit stays.
        ensures kept { KeepsLookUps self.old self.new }
        ensures limit { self.new.limit ≡ self.old.limit }

        // It is one strict call, done or refused: a history goes on by a `resizing`.
        ensures call { IsStrictCall S.kind P.Gen.generations
            self.old (to_reallocate min_capacity) (resizing ∷ []) self.new }
    {
        self.arena.reallocate_min_capacity(min_capacity)
    }

    /// Tidies the free list: gives up the free slots past the last entry, and puts the other free
    /// indexes in rising order. No entry moves.
    pub fn canonicalize_freelist(&mut self)
        // The free list is tidied, every pointer finds what it found, and the capacity stays.
        ensures state { IsTouched (tidied self.old) self.new }
        ensures tidied { IsTidied self.old self.new }
        ensures kept { KeepsLookUps self.old self.new }
        ensures same_capacity { capacity self.new ≡ capacity self.old }

        // It is one strict call: a history goes on by a `resizing`.
        ensures call { IsStrictCall S.kind P.Gen.generations
            self.old to_tidy (resizing ∷ []) self.new }
    {
        self.arena.canonicalize_freelist();
    }

    /// Gives up the free slots past the last entry. The other free indexes keep their order, and no
    /// entry moves.
    ///
    /// It takes no memory, and touches at most 6 slots for each that it gives up, and 2 more.
    pub fn remove_free_end_slots(&mut self)
        // The free slots past the last entry are gone, every pointer finds what it found, and the
        // capacity stays.
        ensures state { IsTouched (without_free_end self.old) self.new }
        ensures bounded { RisesByAtMost (6 * (slot_count self.old - slot_count self.new) + 2)
            self.old.steps self.new.steps }
        ensures kept { KeepsLookUps self.old self.new }
        ensures same_capacity { capacity self.new ≡ capacity self.old }
        ensures ends_live { is_free (item self.new.slots (slot_count self.new)) ≡ false }

        // It is one strict call: a history goes on by a `resizing`.
        ensures call { IsStrictCall S.kind P.Gen.generations
            self.old to_give_up_end (resizing ∷ []) self.new }
    {
        self.arena.remove_free_end_slots();
    }
}

impl<P: Ptr, T, S: SetMaxCapacity<ArenaSlot<P, T>>> StrictArena<P, T, S> {
    /// Sets the limit to `max_capacity`, a number of slots. It takes no memory, and the room stays:
    /// the capacity is then the smallest of room, limit and greatest index.
    ///
    /// Where the new limit is below the old one and the capacity, first the free list is
    /// tidied, as by `canonicalize_freelist`; that stays done where the limit is refused.
    ///
    /// Refused exactly where an entry stands at an index past `max_capacity`; then all stays but the
    /// free list, which is tidied.
    pub fn set_max_capacity(&mut self, max_capacity: usize) -> Result<(), MaxCapacityReductionError>
        // Done, the limit is set; refused, the free list is tidied alone. Every pointer finds what
        // it found.
        ensures variant { IsOk result ↔ EndsBy self.old max_capacity }
        ensures done { OnOk result (IsTouched (with_limit self.old max_capacity) self.new) }
        ensures refused { OnErr result (IsTouched (tidied self.old) self.new) }
        ensures kept { KeepsLookUps self.old self.new }
        ensures limit { OnOk result (self.new.limit ≡ Some max_capacity) }

        // It is one strict call, done or refused: a history goes on by a `resizing`.
        ensures call { IsStrictCall S.kind P.Gen.generations
            self.old (to_limit max_capacity) (resizing ∷ []) self.new }
    {
        self.arena.set_max_capacity(max_capacity)
    }
}
