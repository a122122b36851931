//! The free list of an arena.

ghost use Rattle.std.specs.Prelude.{◌≡◌, ◌+◌, ◌∷◌, false, [], slice_get, ◌-◌, ◌*◌};
ghost use Rattle.std.specs.Option.{option_map};
ghost use Rattle.triple_arena_ptr.specs.Pointers.{Pointer};
ghost use Rattle.triple_arena_traits.specs.Items.{item};
ghost use Rattle.triple_arena_traits.specs.Entries.{look_up};
ghost use Rattle.triple_arena_traits.specs.ArenaState.{slot_count, capacity, arena_len, is_free};
ghost use Rattle.triple_arena_traits.specs.SlotSteps.{RisesByAtMost, IsTouched};
ghost use Rattle.triple_arena_traits.specs.FreeList.{tidied, without_free_end, IsTidied};
ghost use Rattle.triple_arena_traits.specs.Histories.{resizing, Fits, Continues};

use crate::base_arena::Arena;
use triple_arena_ptr::{Ptr, PtrInx};
use triple_arena_slots::ArenaSlot;
use triple_arena_stack::NonZeroInxGenericStack;

impl<P: Ptr, T, S: NonZeroInxGenericStack<ArenaSlot<P, T>>> Arena<P, T, S> {
    /// Tidies the free list: gives up the free slots past the last entry, and puts the other free
    /// indexes in rising order.
    pub fn canonicalize_freelist(&mut self)
        ensures state { IsTouched (tidied self.old) self.new }
        ensures tidied { IsTidied self.old self.new }
        ensures history { Continues Fits self.old (resizing ∷ []) self.new }
    {
        self.slots.tidy();
    }

    /// Gives up the free slots past the last entry. The other free indexes keep their order, and no
    /// entry moves.
    ///
    /// It takes no memory, and touches at most 6 slots for each that it gives up, and 2 more.
    pub fn remove_free_end_slots(&mut self)
        ensures state { IsTouched (without_free_end self.old) self.new }
        ensures bounded { RisesByAtMost (6 * (slot_count self.old - slot_count self.new) + 2)
            self.old.steps self.new.steps }
        ensures kept { (q : Pointer) → look_up self.new.slots q ≡ look_up self.old.slots q }
        ensures same_len { arena_len self.new ≡ arena_len self.old }
        ensures same_capacity { capacity self.new ≡ capacity self.old }
        ensures ends_live { is_free (item self.new.slots (slot_count self.new)) ≡ false }
        ensures history { Continues Fits self.old (resizing ∷ []) self.new }
    {
        self.slots.remove_free_end();
    }

    /// The free index that the next insertion takes, if any is free.
    pub fn freelist_root(&self) -> Option<P::Inx>
        ensures { option_map P.Inx.number result ≡ slice_get self.now.free 0 }
    {
        P::Inx::try_from_usize(self.slots.root()?)
    }
}
