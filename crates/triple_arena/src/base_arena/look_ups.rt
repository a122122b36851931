//! Where an entry of an arena stands, by its pointer or its index.

ghost use Rattle.std.specs.Prelude.{◌≡◌, ℕ, ◌≤◌, ◌+◌, is_some, IsSome, IfSome, Some, option_copied};
ghost use Rattle.std.specs.Int.NonZero.{non_zero_usize_get};
ghost use Rattle.std.specs.Option.{option_and_then};
ghost use Rattle.triple_arena_ptr.specs.Numbers.{greatest_index};
ghost use Rattle.triple_arena_traits.specs.Entries.{look_up};
ghost use Rattle.triple_arena_traits.specs.ArenaState.{slot_count, entry};
ghost use Rattle.triple_arena_traits.specs.SlotSteps.{IsTouched};
ghost use Rattle.triple_arena_slots.specs.Slot.{entry_of};

use crate::base_arena::Arena;
use std::num::NonZeroUsize;
use triple_arena_ptr::{Ptr, PtrGen, PtrInx};
use triple_arena_slots::ArenaSlot;
use triple_arena_stack::NonZeroInxGenericStack;
use triple_arena_traits::EntrySlot;
use triple_arena_traits::entry_slots::ptr_at;

impl<P: Ptr, T, S: NonZeroInxGenericStack<ArenaSlot<P, T>>> Arena<P, T, S> {
    // The slot of an index, if there is one.
    pub(super) fn slot(&self, inx: P::Inx) -> Option<&ArenaSlot<P, T>>
        ensures entry { option_and_then (entry_of P.Gen.number) (option_copied result)
            ≡ entry self.now (P.Inx.number inx) }
        ensures within { IsSome (entry self.now (P.Inx.number inx))
            → P.Inx.number inx ≤ greatest_index P.Inx.greatest }
    {
        self.slots.slots.peek(P::Inx::try_into_usize(inx)?)
    }

    // The index of a pointer, if the pointer is valid.
    pub(super) fn find(&self, p: P) -> Option<NonZeroUsize>
        ensures index { IfSome result (λ inx. non_zero_usize_get inx ≡ (P.numbers p).0) }
        ensures live { is_some result ≡ is_some (look_up self.now.slots (P.numbers p)) }
    {
        let _value = self.slot(p.inx())?.look_up(p.generation())?;
        P::Inx::try_into_usize(p.inx())
    }

    // The index of a pointer, if the pointer is valid. It touches at most one slot.
    pub(super) fn look_for(&mut self, p: P) -> Option<NonZeroUsize>
        ensures index { IfSome result (λ inx. non_zero_usize_get inx ≡ (P.numbers p).0) }
        ensures live { is_some result ≡ is_some (look_up self.old.slots (P.numbers p)) }
        ensures unchanged { IsTouched self.old self.new }
        ensures steps { self.new.steps ≤ self.old.steps + 1 }
    {
        self.slots.slots.find(p)
    }

    // An index, if an entry stands there. It touches at most one slot.
    pub(super) fn look_at(&mut self, inx: P::Inx) -> Option<NonZeroUsize>
        ensures index { IfSome result (λ i. non_zero_usize_get i ≡ P.Inx.number inx) }
        ensures live { is_some result ≡ is_some (entry self.old (P.Inx.number inx)) }
        ensures unchanged { IsTouched self.old self.new }
        ensures steps { self.new.steps ≤ self.old.steps + 1 }
    {
        self.slots.slots.find_inx(inx)
    }

    // An index, if an entry stands there.
    pub(super) fn find_inx(&self, inx: P::Inx) -> Option<NonZeroUsize>
        ensures index { IfSome result (λ i. non_zero_usize_get i ≡ P.Inx.number inx) }
        ensures live { is_some result ≡ is_some (entry self.now (P.Inx.number inx)) }
    {
        match self.slot(inx) {
            Some(slot) if slot.is_live() => P::Inx::try_into_usize(inx),
            _ => None,
        }
    }

    // The pointer of the entry at an index.
    pub(crate) fn ptr_at(&self, inx: NonZeroUsize) -> P
        requires { IsSome (entry self.now (non_zero_usize_get inx)) }
        ensures { (h : ℕ) × (v : T) × (entry self.now (non_zero_usize_get inx) ≡ Some (h, v))
            × (P.numbers result ≡ (non_zero_usize_get inx, h)) }
    {
        ptr_at::<P, T, ArenaSlot<P, T>, S>(self.slots.slots.uncounted_stack(), inx)
    }

    // How many slots there are.
    pub(crate) fn slot_count(&self) -> usize
        ensures value { result ≡ slot_count self.now }
        ensures indexed { result ≤ greatest_index P.Inx.greatest }
    {
        self.slots.slots.len()
    }
}
