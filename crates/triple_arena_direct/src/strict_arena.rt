//! The strict arena.

ghost use Rattle.std.specs.Prelude.{◌≡◌, ◌≤◌, ◌==◌, ◌&&◌, [], true, is_some, IsOk, IfOk, OnOk};
ghost use Rattle.triple_arena_ptr.specs.Numbers.{greatest_index, first_generation};
ghost use Rattle.triple_arena_stack.specs.StackKind.{new_room, new_limit, made_room, made_limit, CanHold, TakesNoMemory, IsOfKind};
ghost use Rattle.triple_arena_stack.specs.Capacity.{IsWithin};
ghost use Rattle.triple_arena_traits.specs.Entries.{look_up};
ghost use Rattle.triple_arena_traits.specs.ArenaState.{new_arena, slot_count, arena_len, capacity, IsWellFormed};
ghost use Rattle.triple_arena_traits.specs.Walks.{keys};
ghost use Rattle.triple_arena_traits.specs.Histories.{begun_with, Fits};
ghost use Rattle.triple_arena_direct.specs.StrictAnswers.{is_exhausted, is_exhausted_for_any};

mod both;
mod compaction;
mod drain;
mod ending;
mod entering;
mod insert_entry;
mod insertion;
mod leaving;
mod look_ups;
mod retain;
mod room;
mod walks;
mod writing;

pub use drain::StrictDrain;
pub use entering::into_strict;
pub use insert_entry::StrictInsertEntry;
pub use leaving::{Leaving, into_arena, renew};
use std::alloc::Global;
use std::marker::Model;
use triple_arena::{Arena, ArenaSlot, ArenaTrait};
use triple_arena_base::{AllocError, Recast, Recaster};
use triple_arena_ptr::{Ptr, PtrGen, PtrInx};
use triple_arena_stack::{NonZeroInxGenericStack, NonZeroInxVec};

/// An arena whose counter never wraps: what would raise it past the greatest generation is refused,
/// and changes nothing. So where generations count, it gives no pointer twice, nor one with which it
/// began, and one that has ended is gone for good (`IsGoneForGood`): for that a caller keeps no history.
///
/// No call sets or resets its counter, or copies another to it. Insertion goes on when the counter is at
/// its greatest value, and look-ups do; entries can't be ended any more then.
///
/// With generations that do not count nothing is refused so, and a pointer names whatever stands at
/// its index.
///
/// Where a clause says what a call leaves, it leaves the count of touched slots aside (`IsTouched`).
#[derive(Drop)]
pub struct StrictArena<
    P: Ptr,
    T,
    S: NonZeroInxGenericStack<ArenaSlot<P, T>> = NonZeroInxVec<ArenaSlot<P, T>>,
> {
    arena: Arena<P, T, S>,
}

impl<P: Ptr, T, S: NonZeroInxGenericStack<ArenaSlot<P, T>>> Model for StrictArena<P, T, S> {
    ghost use Rattle.std.specs.Prelude.{◌≡◌, true};
    ghost use Rattle.triple_arena_traits.specs.ArenaState.{ArenaState};
    ghost use Rattle.triple_arena_direct.specs.Gone.{IsUpToCounter};

    // The state of the arena inside.
    ghost Value = { ArenaState T };

    ghost view = { λ s. s.arena };

    // no entry is of a generation above the counter: no call sets that back, and no arena becomes one
    // where it isn't so
    ghost invariant = { λ s. P.Gen.generations.counting ≡ true → IsUpToCounter s.arena };

    ghost inverse = { λ s. record { arena = s } };
}

impl<P: Ptr, T, S: NonZeroInxGenericStack<ArenaSlot<P, T>>> StrictArena<P, T, S> {
    /// An arena without slots, with the room and the limit of a new stack. It takes no memory.
    pub fn new(alloc: Global) -> Self
        ensures { result ≡ new_arena (new_room S.kind) (new_limit S.kind)
            (greatest_index P.Inx.greatest) (first_generation P.Gen.generations) }
    {
        StrictArena {
            arena: Arena::new(alloc),
        }
    }

    /// An arena without slots, over a stack that the caller has made, and that has no item: with its
    /// room and its limit. It takes no memory.
    pub fn over(stack: S) -> Self
        requires { S.items stack ≡ [] }
        ensures { result ≡ new_arena (S.room stack) (S.limit stack) (greatest_index P.Inx.greatest)
            (first_generation P.Gen.generations) }
    {
        StrictArena {
            arena: Arena::over(stack),
        }
    }

    /// An arena without slots, over a stack with room for `min_capacity`.
    ///
    /// Refused where `min_capacity` is past the greatest index, and where the stack refuses it: an
    /// array of fewer places, and any other where memory is refused.
    pub fn with_min_capacity(alloc: Global, min_capacity: usize) -> Result<Self, AllocError>
        ensures made { IfOk result (λ arena. arena ≡ new_arena (made_room S.kind min_capacity)
            (made_limit S.kind min_capacity) (greatest_index P.Inx.greatest)
            (first_generation P.Gen.generations)) }
        ensures holds { OnOk result
            ((min_capacity ≤ greatest_index P.Inx.greatest) × CanHold S.kind min_capacity) }
        ensures succeeds { min_capacity ≤ greatest_index P.Inx.greatest
            → TakesNoMemory S.kind min_capacity → IsOk result }
        ensures with_memory { min_capacity ≤ greatest_index P.Inx.greatest
            → CanHold S.kind min_capacity → S.has_memory min_capacity → IsOk result }
    {
        let arena = Arena::with_min_capacity(alloc, min_capacity)?;
        Ok(StrictArena { arena })
    }

    /// How many entries fit without growth.
    pub fn capacity(&self) -> usize
        ensures value { result ≡ capacity self.now }
        ensures fits { slot_count self.now ≤ result }
        ensures indexed { result ≤ greatest_index P.Inx.greatest }
        ensures allowed { IsWithin self.now.limit result }
        ensures greatest { self.now.greatest ≡ greatest_index P.Inx.greatest }
    {
        self.arena.capacity()
    }

    /// The limit of the stack, if there is one.
    pub fn max_capacity(&self) -> Option<usize>
        ensures value { result ≡ self.now.limit }
        ensures of_kind { IsOfKind S.kind self.now.room self.now.limit }
    {
        self.arena.max_capacity()
    }

    /// How many entries there are.
    pub fn len(&self) -> usize
        ensures value { result ≡ arena_len self.now }
        ensures fits { arena_len self.now ≤ capacity self.now }
        ensures well_formed { IsWellFormed self.now }
    {
        self.arena.len()
    }

    /// Whether there is no entry.
    pub fn is_empty(&self) -> bool
        ensures { result ≡ (arena_len self.now == 0) }
    {
        self.arena.is_empty()
    }

    /// The counter: the generation of the next entry. Where generations count, no entry is of a greater
    /// one, so that the history that begins with the pointers of the entries fits, whatever was done
    /// before; calls that would end entries are `Exhausted` exactly where `PtrGen::is_max` holds of it.
    pub fn generation(&self) -> P::Gen
        ensures number { P.Gen.number result ≡ self.now.counter }
        ensures history { P.Gen.generations.counting ≡ true
            → Fits (begun_with (keys self.now.slots)) self.now }
    {
        self.arena.generation()
    }

    /// The arena inside.
    pub fn arena(&self) -> &Arena<P, T, S>
        ensures { result.now ≡ self.now }
    {
        &self.arena
    }

    // Whether a raise of the counter would wrap it.
    fn is_exhausted(&self) -> bool
        ensures { result ≡ is_exhausted P.Gen.generations self.now }
    {
        P::Gen::is_max(self.arena.generation())
    }

    // Whether a raise of the counter would wrap it, and the pointer is valid.
    fn is_exhausted_for(&self, p: P) -> bool
        ensures { result ≡ is_exhausted P.Gen.generations self.now
            && is_some (look_up self.now.slots (P.numbers p)) }
    {
        self.is_exhausted() && self.contains(p)
    }

    // Whether a raise of the counter would wrap it, and there is an entry. Where generations count, a history
    // can begin with the pointers that stand (`begun`).
    fn is_exhausted_for_any(&self) -> bool
        ensures value { result ≡ is_exhausted_for_any P.Gen.generations self.now }
        ensures begun { P.Gen.generations.counting ≡ true
            → Fits (begun_with (keys self.now.slots)) self.now }
    {
        !self.arena.is_empty() && self.is_exhausted()
    }
}

/// Holds what its values hold, in the order of the indexes of the entries, as an `Arena` does.
impl<I, P: Ptr, T: Recast<I>, S: NonZeroInxGenericStack<ArenaSlot<P, T>>> Recast<I>
    for StrictArena<P, T, S> {
    ghost use Rattle.std.proofs.Common.{ap};
    ghost use Rattle.triple_arena_traits.specs.HeldSlots.{held_slots, refill_slots, slots_held_refill, slots_refill_held, slots_refill_refill};

    ghost held = { λ s. held_slots T.held T.refill s.slots };

    // nothing but the held items changes
    ghost refill = { λ s l. record s { slots = refill_slots T.held T.refill s.slots l } };

    fn recast<R: Recaster<Item = I>>(&mut self, recaster: &R) -> Result<(), I> {
        self.arena.recast(recaster)
    }

    ghost held_refill = { λ s l h. slots_held_refill T.held T.refill T.held_refill s.slots l h };

    ghost refill_held = { λ s. ap (λ slots. record s { slots = slots })
        (slots_refill_held T.held T.refill T.refill_held s.slots) };

    ghost refill_refill = { λ s l m h k. ap (λ slots. record s { slots = slots })
        (slots_refill_refill T.held T.refill T.held_refill T.refill_refill s.slots l m h k) };
}
