//! A slot of an arena.

ghost use Rattle.std.specs.Prelude.{◌≡◌, ◌≢◌, ◌≤◌, ℕ, None, Some, IsSome, IsNone};
ghost use Rattle.triple_arena_ptr.specs.Numbers.{greatest_index};
ghost use Rattle.std.specs.Int.NonZero.{non_zero_usize_get};
ghost use Rattle.std.specs.Option.{option_map};
ghost use Rattle.triple_arena_slots.specs.Slot.{entry_of, next_free, previous_free, next_in, previous_in, LinksTo, with_slot_value, with_slot_generation};

use std::marker::Model;
use std::num::NonZeroUsize;
use triple_arena_ptr::{Ptr, PtrGen, PtrInx};
use triple_arena_traits::EntrySlot;

/// Names the free slots before and after a free one in the free list, or its own where there is
/// none on that side.
#[derive(Drop)]
pub struct FreeLink<I: PtrInx> {
    previous: I,
    next: I,
}

impl<I: PtrInx> Model for FreeLink<I> {
    ghost use Rattle.std.specs.Prelude.{◌≤◌};
    ghost use Rattle.triple_arena_ptr.specs.Numbers.{greatest_index};
    ghost use Rattle.triple_arena_slots.specs.Link.{Link};

    ghost Value = { Link };

    ghost view = { λ link. record {
      previous = I.number link.previous;
      next = I.number link.next;
    } };

    ghost invariant = { λ link. (I.number link.previous ≤ greatest_index I.greatest)
        × (I.number link.next ≤ greatest_index I.greatest) };
}

impl<I: PtrInx> FreeLink<I> {
    // The link at `inx` of the first free slot, before the one that was first, if there was one.
    pub(crate) fn first(next: Option<NonZeroUsize>, inx: NonZeroUsize) -> Self
        requires other { option_map non_zero_usize_get next ≢ Some (non_zero_usize_get inx) }
        requires indexed { non_zero_usize_get inx ≤ greatest_index I.greatest }
        requires next_indexed { (j : ℕ) → option_map non_zero_usize_get next ≡ Some j
            → j ≤ greatest_index I.greatest }
        ensures next { next_free result (non_zero_usize_get inx)
            ≡ option_map non_zero_usize_get next }
        ensures previous { previous_free result (non_zero_usize_get inx) ≡ None }
    {
        let own = index_of(inx);
        FreeLink {
            previous: own,
            next: match next {
                Some(next) => index_of(next),
                None => own,
            },
        }
    }

    /// The free index that comes after `inx` in the free list, where this is the link of the free
    /// slot at `inx`; none where `inx` comes last. From `freelist_root` on, the links of `backing`
    /// go through all free indexes in the order in which insertion takes them.
    pub fn after(&self, inx: NonZeroUsize) -> Option<NonZeroUsize>
        ensures { option_map non_zero_usize_get result
            ≡ next_free self.now (non_zero_usize_get inx) }
    {
        let next = I::try_into_usize(self.next).unwrap();
        if next == inx { None } else { Some(next) }
    }

    /// The free index that comes before `inx` in the free list, where this is the link of the free
    /// slot at `inx`; none where `inx` comes first.
    pub fn before(&self, inx: NonZeroUsize) -> Option<NonZeroUsize>
        ensures { option_map non_zero_usize_get result
            ≡ previous_free self.now (non_zero_usize_get inx) }
    {
        let previous = I::try_into_usize(self.previous).unwrap();
        if previous == inx {
            None
        } else {
            Some(previous)
        }
    }

    // Leads the link of the free slot at `inx` on to another.
    pub(crate) fn set_next(&mut self, next: Option<NonZeroUsize>, inx: NonZeroUsize)
        requires other { option_map non_zero_usize_get next ≢ Some (non_zero_usize_get inx) }
        requires indexed { non_zero_usize_get inx ≤ greatest_index I.greatest }
        requires next_indexed { (j : ℕ) → option_map non_zero_usize_get next ≡ Some j
            → j ≤ greatest_index I.greatest }
        ensures next { next_free self.new (non_zero_usize_get inx)
            ≡ option_map non_zero_usize_get next }
        ensures previous { self.new.previous ≡ self.old.previous }
    {
        self.next = index_of(next.unwrap_or(inx));
    }

    // Leads the link of the free slot at `inx` back to another.
    pub(crate) fn set_previous(&mut self, previous: Option<NonZeroUsize>, inx: NonZeroUsize)
        requires other { option_map non_zero_usize_get previous ≢ Some (non_zero_usize_get inx) }
        requires indexed { non_zero_usize_get inx ≤ greatest_index I.greatest }
        requires previous_indexed { (j : ℕ) → option_map non_zero_usize_get previous ≡ Some j
            → j ≤ greatest_index I.greatest }
        ensures next { self.new.next ≡ self.old.next }
        ensures previous { previous_free self.new (non_zero_usize_get inx)
            ≡ option_map non_zero_usize_get previous }
    {
        self.previous = index_of(previous.unwrap_or(inx));
    }
}

// The index of that number.
fn index_of<I: PtrInx>(inx: NonZeroUsize) -> I
    requires { non_zero_usize_get inx ≤ greatest_index I.greatest }
    ensures { I.number result ≡ non_zero_usize_get inx }
{
    I::try_from_usize(inx).unwrap()
}

/// A slot of an arena: free, or with an entry, which has a generation and a value.
#[derive(Drop)]
pub enum ArenaSlot<P: Ptr, T> {
    /// A slot without an entry.
    Free(FreeLink<P::Inx>),
    /// The generation and the value of an entry.
    Allocated(P::Gen, T),
}

impl<P: Ptr, T> Default for ArenaSlot<P, T> {
    ghost is_default = { λ slot. entry_of P.Gen.number slot ≡ None };

    /// A free slot.
    fn default() -> Self {
        ArenaSlot::Free(FreeLink::first(None, NonZeroUsize::MIN))
    }
}

impl<P: Ptr, T> ArenaSlot<P, T> {
    // Takes the link out of a free slot.
    pub(crate) fn into_link(self) -> FreeLink<P::Inx>
        requires { IsNone (entry_of P.Gen.number self) }
        ensures { self ≡ ArenaSlot.Free result }
    {
        match self {
            ArenaSlot::Free(link) => link,
            ArenaSlot::Allocated(_, _) => unreachable!(),
        }
    }

    // Links a free slot at `inx` on to another, or makes it the last.
    pub(crate) fn link_on(&mut self, next: Option<NonZeroUsize>, inx: NonZeroUsize)
        requires free { IsNone (entry_of P.Gen.number self.old) }
        requires other { option_map non_zero_usize_get next ≢ Some (non_zero_usize_get inx) }
        requires indexed { non_zero_usize_get inx ≤ greatest_index P.Inx.greatest }
        requires next_indexed { (j : ℕ) → option_map non_zero_usize_get next ≡ Some j
            → j ≤ greatest_index P.Inx.greatest }
        ensures { LinksTo next_in previous_in self.old self.new (non_zero_usize_get inx)
            (option_map non_zero_usize_get next) }
    {
        match self {
            ArenaSlot::Free(link) => link.set_next(next, inx),
            ArenaSlot::Allocated(_, _) => unreachable!(),
        }
    }

    // Links a free slot at `inx` back to another, or makes it the first.
    pub(crate) fn link_back(&mut self, previous: Option<NonZeroUsize>, inx: NonZeroUsize)
        requires free { IsNone (entry_of P.Gen.number self.old) }
        requires other { option_map non_zero_usize_get previous ≢ Some (non_zero_usize_get inx) }
        requires indexed { non_zero_usize_get inx ≤ greatest_index P.Inx.greatest }
        requires previous_indexed { (j : ℕ) → option_map non_zero_usize_get previous ≡ Some j
            → j ≤ greatest_index P.Inx.greatest }
        ensures { LinksTo previous_in next_in self.old self.new (non_zero_usize_get inx)
            (option_map non_zero_usize_get previous) }
    {
        match self {
            ArenaSlot::Free(link) => link.set_previous(previous, inx),
            ArenaSlot::Allocated(_, _) => unreachable!(),
        }
    }

    // Puts another generation on the entry.
    pub(crate) fn set_generation(&mut self, generation: P::Gen)
        requires { IsSome (entry_of P.Gen.number self.old) }
        ensures { self.new ≡ with_slot_generation self.old generation }
    {
        match self {
            ArenaSlot::Allocated(own, _) => *own = generation,
            ArenaSlot::Free(_) => unreachable!(),
        }
    }
}

impl<P: Ptr, T> EntrySlot<P, T> for ArenaSlot<P, T> {
    ghost use Rattle.triple_arena_slots.specs.laws.SlotLaws.{entry_of-written, with_own_slot_value, free-with_slot_value};

    // the entry, as the state of an arena has it
    ghost entry = { entry_of P.Gen.number };

    ghost with_value = { with_slot_value };

    fn vacant() -> Self {
        ArenaSlot::default()
    }

    fn holding(generation: P::Gen, value: T) -> Self {
        ArenaSlot::Allocated(generation, value)
    }

    fn entry(&self) -> Option<(P::Gen, &T)> {
        match self {
            ArenaSlot::Allocated(generation, value) => Some((*generation, value)),
            ArenaSlot::Free(_) => None,
        }
    }

    fn value_mut(&mut self) -> &mut T {
        match self {
            ArenaSlot::Allocated(_, value) => value,
            ArenaSlot::Free(_) => unreachable!(),
        }
    }

    fn unpack(self) -> Option<(P::Gen, T)> {
        match self {
            ArenaSlot::Allocated(generation, value) => Some((generation, value)),
            ArenaSlot::Free(_) => None,
        }
    }

    fn discard(self) {
        let _link = self.into_link();
    }

    ghost entry_with_value = { entry_of-written P.Gen.number };

    ghost with_own_value = { with_own_slot_value P.Gen.number };

    ghost vacant_with_value = { free-with_slot_value P.Gen.number };
}
