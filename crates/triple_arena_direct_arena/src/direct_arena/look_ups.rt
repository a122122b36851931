//! Where an entry of a direct arena stands, by its pointer or its index.

ghost use Rattle.std.specs.Prelude.{◌≡◌, ℕ, ◌≤◌, is_some, IsSome, IfSome, Some, option_copied};
ghost use Rattle.std.specs.Int.NonZero.{non_zero_usize_get};
ghost use Rattle.std.specs.Option.{option_and_then};
ghost use Rattle.triple_arena_ptr.specs.Numbers.{greatest_index};
ghost use Rattle.triple_arena_traits.specs.Entries.{entry_in, look_up};
ghost use Rattle.triple_arena_direct_arena.specs.DirectState.{direct_slot_count};
ghost use Rattle.triple_arena_direct_arena.specs.DirectSlot.{direct_slot_entry};

use crate::direct_arena::DirectArena;
use crate::slot::DirectSlot;
use std::num::NonZeroUsize;
use triple_arena_ptr::{Ptr, PtrGen, PtrInx};
use triple_arena_stack::NonZeroInxGenericStack;
use triple_arena_traits::EntrySlot;
use triple_arena_traits::entry_slots::ptr_at;

impl<P: Ptr, T, S: NonZeroInxGenericStack<DirectSlot<P, T>>> DirectArena<P, T, S> {
    // The slot of an index, if there is one.
    pub(super) fn slot(&self, inx: P::Inx) -> Option<&DirectSlot<P, T>>
        ensures entry { option_and_then (direct_slot_entry P.Gen.number) (option_copied result)
            ≡ entry_in self.now.slots (P.Inx.number inx) }
        ensures within { IsSome (entry_in self.now.slots (P.Inx.number inx))
            → P.Inx.number inx ≤ greatest_index P.Inx.greatest }
    {
        self.slots.peek(P::Inx::try_into_usize(inx)?)
    }

    // The index of a pointer, if the pointer is valid.
    pub(super) fn find(&self, p: P) -> Option<NonZeroUsize>
        ensures index { IfSome result (λ inx. non_zero_usize_get inx ≡ (P.numbers p).0) }
        ensures live { is_some result ≡ is_some (look_up self.now.slots (P.numbers p)) }
    {
        let _value = self.slot(p.inx())?.look_up(p.generation())?;
        P::Inx::try_into_usize(p.inx())
    }

    // An index, if an entry stands there.
    pub(super) fn find_inx(&self, inx: P::Inx) -> Option<NonZeroUsize>
        ensures index { IfSome result (λ i. non_zero_usize_get i ≡ P.Inx.number inx) }
        ensures live { is_some result ≡ is_some (entry_in self.now.slots (P.Inx.number inx)) }
    {
        let _entry = self.slot(inx)?.entry()?;
        P::Inx::try_into_usize(inx)
    }

    // The pointer of the entry at an index.
    pub(crate) fn ptr_at(&self, inx: NonZeroUsize) -> P
        requires { IsSome (entry_in self.now.slots (non_zero_usize_get inx)) }
        ensures { (h : ℕ) × (v : T) × (entry_in self.now.slots (non_zero_usize_get inx) ≡ Some (h, v))
            × (P.numbers result ≡ (non_zero_usize_get inx, h)) }
    {
        ptr_at::<P, T, DirectSlot<P, T>, S>(self.slots.uncounted_stack(), inx)
    }

    // How many slots there are.
    pub(crate) fn slot_count(&self) -> usize
        ensures value { result ≡ direct_slot_count self.now }
        ensures indexed { result ≤ greatest_index P.Inx.greatest }
    {
        self.slots.len()
    }
}
