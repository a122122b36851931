//! The place of a value that is not inserted into a strict arena yet.

ghost use Rattle.std.specs.Prelude.{◌≡◌, ◌≢◌, ◌<◌, ◌↔◌, ◌∷◌, [], IsOk, IfOk, IsOkAnd, OnOk, None, Err};
ghost use Rattle.std.specs.Borrow.{sem, Lends};
ghost use Rattle.triple_arena_ptr.specs.Numbers.{greatest_index};
ghost use Rattle.triple_arena_ptr.specs.Pointers.{Pointer};
ghost use Rattle.triple_arena_stack.specs.Capacity.{IsFullAtLimit, CanGrow};
ghost use Rattle.triple_arena_traits.specs.ArenaState.{arena_len, capacity, entry, IsWellFormed};
ghost use Rattle.triple_arena_traits.specs.Insertion.{next_pointer, inserted};
ghost use Rattle.triple_arena_traits.specs.SlotSteps.{touched, insertion_steps};
ghost use Rattle.triple_arena_traits.specs.Reallocation.{grown};
ghost use Rattle.triple_arena_traits.specs.Histories.{insertion, Fits, Continues};
ghost use Rattle.triple_arena_direct.specs.Gone.{IsGoneForGood};
ghost use Rattle.triple_arena_direct.specs.StrictCalls.{IsStrictCall, to_insert};
ghost use Rattle.triple_arena_direct.specs.StrictDone.{IsStrictlyInserted, IsStrictlyGrown};
ghost use Rattle.triple_arena_direct.specs.StrictInsertEntry.{strict_entry_arena, strict_entry_reference, strict_entry_lender, strict_entry_rests};

use super::StrictArena;
use triple_arena::{ArenaInsertEntryTrait, ArenaSlot, LendingArena};
use triple_arena_base::{NotWithinCapacityError, ReallocationError};
use triple_arena_ptr::{Ptr, PtrGen, PtrInx};
use triple_arena_stack::{NonZeroInxGenericStack, NonZeroInxVec};

/// A place in a strict arena for one more value.
///
/// Dropped, it inserts nothing; room that was made for it stays.
pub struct StrictInsertEntry<
    'a,
    P: Ptr,
    T,
    S: NonZeroInxGenericStack<ArenaSlot<P, T>> = NonZeroInxVec<ArenaSlot<P, T>>,
> {
    arena: &'a mut StrictArena<P, T, S>,
}

impl<'a, P: Ptr, T, S: NonZeroInxGenericStack<ArenaSlot<P, T>>> ArenaInsertEntryTrait<'a, P, T>
    for StrictInsertEntry<'a, P, T, S> {
    ghost pointer = { P.numbers };

    ghost has_place = { λ place. arena_len (strict_entry_arena place)
        < capacity (strict_entry_arena place) };

    ghost next = { λ place. next_pointer (strict_entry_arena place) };

    fn has_place(&self) -> bool {
        self.arena.len() < self.arena.capacity()
    }

    fn ptr(&self) -> P
        requires { arena_len (strict_entry_arena self.now) < capacity (strict_entry_arena self.now) }
        ensures pointer { P.numbers result ≡ next_pointer (strict_entry_arena self.now) }
        ensures free { entry (strict_entry_arena self.now) (P.numbers result).0 ≡ None }
        ensures new { (q : Pointer) → IsGoneForGood (strict_entry_arena self.now) q
            → P.numbers result ≢ q }
    {
        self.arena.next_ptr()
    }

    fn insert(self, t: T) -> &'a mut T
        requires { arena_len (strict_entry_arena self) < capacity (strict_entry_arena self) }

        // The value is lent; once the loan ends, what was written stands under the next pointer.
        ensures value { result.now ≡ t }
        ensures done { (value : T) → IsStrictlyInserted
            (strict_entry_arena self.entry) (strict_entry_arena self.entry) value
            (next_pointer (strict_entry_arena self.entry))
            (touched (insertion_steps (strict_entry_arena self.entry))
            (inserted (strict_entry_arena self.entry) value)) }
        ensures* writes_back { sem 𝓛 (Lends
            ⟦<StrictArena<P, T, S> as LendingArena>⟧.arena_row
            T.row (strict_entry_reference self.entry) result
            (λ value. touched (insertion_steps (strict_entry_arena self.entry))
            (inserted (strict_entry_arena self.entry) value))) }

        // It is one strict call, and what was gone for good stays so.
        ensures call { (value : T) → IsStrictCall S.kind P.Gen.generations
            (strict_entry_arena self.entry) (to_insert value)
            (insertion (next_pointer (strict_entry_arena self.entry)) ∷ [])
            (touched (insertion_steps (strict_entry_arena self.entry))
            (inserted (strict_entry_arena self.entry) value)) }
        ensures stays_gone { (value : T) (q : Pointer) → IsGoneForGood (strict_entry_arena self.entry) q
            → IsGoneForGood (touched (insertion_steps (strict_entry_arena self.entry))
            (inserted (strict_entry_arena self.entry) value)) q }
    {
        let StrictInsertEntry { arena } = self;
        let p = arena.insert_reserved(t);
        arena.get_mut(p).unwrap()
    }
}

impl<P: Ptr, T, S: NonZeroInxGenericStack<ArenaSlot<P, T>>> StrictArena<P, T, S> {
    /// A place for one more value, where the capacity has it. It takes no memory.
    ///
    /// Refused exactly where there are as many entries as the capacity; then the arena is
    /// unchanged.
    pub fn entry_insert_within_capacity(
        &mut self,
    ) -> Result<StrictInsertEntry<'_, P, T, S>, NotWithinCapacityError>
        // Done: the place is of this arena, which hasn't changed. Refused: nor has it.
        ensures variant { IsOk result ↔ (arena_len self.old < capacity self.old) }
        ensures arena { IfOk result (λ place. strict_entry_arena place ≡ self.old) }
        ensures history { IfOk result (λ place. Continues Fits self.old [] (strict_entry_arena place)) }
        ensures same_reference { IfOk result
            (λ place. strict_entry_lender place ≡ self.entry.ghost_name) }
        ensures well_formed { IsWellFormed self.old }
        ensures* refused { sem 𝓛 (strict_entry_rests
            ⟦<StrictArena<P, T, S> as LendingArena>⟧.arena_row self.entry result) }
    {
        if self.len() >= self.capacity() {
            return Err(NotWithinCapacityError);
        }
        Ok(StrictInsertEntry { arena: self })
    }

    /// A place for one more value; a full arena grows first. No entry moves, and the place has the pointer
    /// that was the next one before (`done`).
    ///
    /// Refused as [`Self::insert_reallocating`] is; then the arena is unchanged.
    pub fn entry_insert_reallocating(
        &mut self,
    ) -> Result<StrictInsertEntry<'_, P, T, S>, ReallocationError>
        // Done: the place has the pointer that was the next one; a full arena has grown, and no entry
        // has moved.
        ensures done { IfOk result
            (λ place. IsStrictlyGrown self.old S.kind (strict_entry_arena place)) }

        // Only an arena that is full is refused, for its limit, for memory, or for want of an
        // index.
        ensures beyond { (result ≡ Err ReallocationError.BeyondMaxCapacity)
            ↔ IsFullAtLimit (capacity self.old) self.old.limit (arena_len self.old) }
        ensures with_memory { CanGrow S.has_memory (capacity self.old) self.old.limit
            (greatest_index P.Inx.greatest) → IsOk result }
        ensures indexed { OnOk result (arena_len self.old ≡ capacity self.old
            → capacity self.old < greatest_index P.Inx.greatest) }
        ensures had_place { arena_len self.old < capacity self.old
            → IsOkAnd result (λ place. strict_entry_arena place ≡ self.old) }

        // The place holds this arena. Refused: nothing changes.
        ensures same_reference { IfOk result
            (λ place. strict_entry_lender place ≡ self.entry.ghost_name) }
        ensures well_formed { IsWellFormed self.old }
        ensures* refused { sem 𝓛 (strict_entry_rests
            ⟦<StrictArena<P, T, S> as LendingArena>⟧.arena_row self.entry result) }
    {
        self.grow_if_full()?;
        Ok(StrictInsertEntry { arena: self })
    }

    /// As [`Self::entry_insert_reallocating`].
    pub fn entry_insert(&mut self) -> Result<StrictInsertEntry<'_, P, T, S>, ReallocationError>
        // Done: the place has the pointer that was the next one; a full arena has grown, and no entry
        // has moved.
        ensures done { IfOk result
            (λ place. IsStrictlyGrown self.old S.kind (strict_entry_arena place)) }

        // Only an arena that is full is refused, for its limit, for memory, or for want of an
        // index.
        ensures beyond { (result ≡ Err ReallocationError.BeyondMaxCapacity)
            ↔ IsFullAtLimit (capacity self.old) self.old.limit (arena_len self.old) }
        ensures with_memory { CanGrow S.has_memory (capacity self.old) self.old.limit
            (greatest_index P.Inx.greatest) → IsOk result }
        ensures indexed { OnOk result (arena_len self.old ≡ capacity self.old
            → capacity self.old < greatest_index P.Inx.greatest) }
        ensures had_place { arena_len self.old < capacity self.old
            → IsOkAnd result (λ place. strict_entry_arena place ≡ self.old) }

        // The place holds this arena. Refused: nothing changes.
        ensures same_reference { IfOk result
            (λ place. strict_entry_lender place ≡ self.entry.ghost_name) }
        ensures well_formed { IsWellFormed self.old }
        ensures* refused { sem 𝓛 (strict_entry_rests
            ⟦<StrictArena<P, T, S> as LendingArena>⟧.arena_row self.entry result) }
    {
        self.entry_insert_reallocating()
    }
}

impl<P: Ptr, T, S: NonZeroInxGenericStack<ArenaSlot<P, T>>> Drop
    for StrictInsertEntry<'_, P, T, S> {
    fn drop(self)
        ensures { self.exit.0.now ≡ self.entry.arena.now }
    {
        let StrictInsertEntry { arena: _ } = self;
    }
}
