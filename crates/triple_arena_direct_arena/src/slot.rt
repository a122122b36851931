//! A slot of a direct arena.

ghost use Rattle.std.specs.Prelude.{◌≡◌, None};
ghost use Rattle.triple_arena_direct_arena.specs.DirectSlot.{direct_slot_entry, direct_with_slot_value};

use triple_arena_ptr::{Ptr, PtrGen};
use triple_arena_traits::EntrySlot;

/// A slot of a direct arena: free, or with an entry, which has a generation and a value.
#[derive(Drop)]
pub enum DirectSlot<P: Ptr, T> {
    /// A slot without an entry.
    Free,
    /// The generation and the value of an entry.
    Allocated(P::Gen, T),
}

impl<P: Ptr, T> Default for DirectSlot<P, T> {
    ghost is_default = { λ slot. direct_slot_entry P.Gen.number slot ≡ None };

    /// A free slot.
    fn default() -> Self {
        DirectSlot::Free
    }
}

impl<P: Ptr, T> EntrySlot<P, T> for DirectSlot<P, T> {
    ghost use Rattle.triple_arena_direct_arena.specs.laws.DirectSlotLaws.{slot_entry-written, with_own_slot_value, free-with_slot_value};

    // the entry, as the state of an arena has it
    ghost entry = { direct_slot_entry P.Gen.number };

    ghost with_value = { direct_with_slot_value };

    fn vacant() -> Self {
        DirectSlot::Free
    }

    fn holding(generation: P::Gen, value: T) -> Self {
        DirectSlot::Allocated(generation, value)
    }

    fn entry(&self) -> Option<(P::Gen, &T)> {
        match self {
            DirectSlot::Allocated(generation, value) => Some((*generation, value)),
            DirectSlot::Free => None,
        }
    }

    fn value_mut(&mut self) -> &mut T {
        match self {
            DirectSlot::Allocated(_, value) => value,
            DirectSlot::Free => unreachable!(),
        }
    }

    fn unpack(self) -> Option<(P::Gen, T)> {
        match self {
            DirectSlot::Allocated(generation, value) => Some((generation, value)),
            DirectSlot::Free => None,
        }
    }

    fn discard(self) {
        match self {
            DirectSlot::Free => {}
            DirectSlot::Allocated(_, _) => unreachable!(),
        }
    }

    ghost entry_with_value = { slot_entry-written P.Gen.number };

    ghost with_own_value = { with_own_slot_value P.Gen.number };

    ghost vacant_with_value = { free-with_slot_value P.Gen.number };
}
