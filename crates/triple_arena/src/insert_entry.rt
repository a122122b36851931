//! The place of a value that is not inserted yet.

ghost use Rattle.std.specs.Prelude.{◌≡◌, ◌<◌, ◌↔◌, ◌∷◌, [], IsTrue, IsOk, IfOk, IsOkAnd, OnOk, None, Err};
ghost use Rattle.std.specs.Borrow.{sem, Lends};
ghost use Rattle.triple_arena_ptr.specs.Numbers.{greatest_index};
ghost use Rattle.triple_arena_ptr.specs.Pointers.{Pointer};
ghost use Rattle.triple_arena_stack.specs.Capacity.{IsFullAtLimit, CanGrow};
ghost use Rattle.triple_arena_traits.specs.ArenaState.{arena_len, capacity, entry, IsWellFormed};
ghost use Rattle.triple_arena_traits.specs.Insertion.{next_pointer};
ghost use Rattle.triple_arena_traits.specs.Reallocation.{grown};
ghost use Rattle.triple_arena_traits.specs.Histories.{insertion, Fits, Continues};
ghost use Rattle.triple_arena.specs.InsertEntry.{entry_arena, entry_reference, entry_lender, entry_rests};

use crate::base_arena::Arena;
use triple_arena_base::{NotWithinCapacityError, ReallocationError};
use triple_arena_ptr::{Ptr, PtrInx};
use triple_arena_slots::ArenaSlot;
use triple_arena_stack::{NonZeroInxGenericStack, NonZeroInxVec};
use triple_arena_traits::{ArenaInsertTrait, ArenaTrait, LendingArena};

/// A place in an arena for one more value.
///
/// Dropped, it inserts nothing; room that was made for it stays.
pub struct ArenaInsertEntry<
    'a,
    P: Ptr,
    T,
    S: NonZeroInxGenericStack<ArenaSlot<P, T>> = NonZeroInxVec<ArenaSlot<P, T>>,
> {
    arena: &'a mut Arena<P, T, S>,
}

/// What can be done with a place for one more value.
pub trait ArenaInsertEntryTrait<'a, P, T> {
    // the numbers of a pointer's index and of its generation
    ghost pointer: { P → Pointer };

    // the arena has a place for the value
    ghost has_place: { Self → Type 0 };

    // the numbers of the pointer that the value will have
    ghost next: { Self → Pointer };

    /// Whether the entry has its place, as each entry that an arena gives has.
    fn has_place(&self) -> bool
        ensures { IsTrue result ↔ has_place self.now };

    /// The pointer that the value will have.
    ///
    /// The entry must have its place, as each entry that an arena gives has: by `variant` and
    /// `arena` of `entry_insert_within_capacity`, by `has_place` of `entry_insert` and
    /// `entry_insert_reallocating`. [`Self::has_place`] tells it of any other.
    fn ptr(&self) -> P
        requires { has_place self.now }
        ensures { pointer result ≡ next self.now };

    /// Inserts `t` under the pointer that `ptr` tells, and gives the value in the arena. It takes
    /// no memory, and has no refusal.
    ///
    /// The entry must have its place, as for `ptr`. The arena is as after an insertion of what was
    /// last written through the reference.
    fn insert(self, t: T) -> &'a mut T
        requires { has_place self }
        ensures value { result.now ≡ t };
}

impl<'a, P: Ptr, T, S: NonZeroInxGenericStack<ArenaSlot<P, T>>> ArenaInsertEntryTrait<'a, P, T>
    for ArenaInsertEntry<'a, P, T, S> {
    ghost pointer = { P.numbers };

    ghost has_place = { λ entry. arena_len (entry_arena entry) < capacity (entry_arena entry) };

    ghost next = { λ entry. next_pointer (entry_arena entry) };

    fn has_place(&self) -> bool {
        self.arena.len() < self.arena.capacity()
    }

    fn ptr(&self) -> P
        requires { arena_len (entry_arena self.now) < capacity (entry_arena self.now) }
        ensures { P.numbers result ≡ next_pointer (entry_arena self.now) }
    {
        self.arena.next_ptr()
    }

    fn insert(self, t: T) -> &'a mut T
        requires { arena_len (entry_arena self) < capacity (entry_arena self) }
        ensures value { result.now ≡ t }
        ensures free { entry (entry_arena self.entry) (next_pointer (entry_arena self.entry)).0
            ≡ None }
        ensures* writes_back { sem 𝓛 (Lends
            ⟦<Arena<P, T, S> as LendingArena>⟧.arena_row
            T.row (entry_reference self.entry) result
            (⟦<Arena<P, T, S> as ArenaInsertTrait<P, T>>⟧.inserted (entry_arena self.entry))) }
        ensures history { (value : T) → Continues Fits (entry_arena self.entry)
            (insertion (next_pointer (entry_arena self.entry)) ∷ [])
            (⟦<Arena<P, T, S> as ArenaInsertTrait<P, T>>⟧.inserted (entry_arena self.entry) value) }
    {
        let ArenaInsertEntry { arena } = self;
        let p = arena.insert_reserved(t);
        arena.get_mut(p).unwrap()
    }
}

impl<P: Ptr, T, S: NonZeroInxGenericStack<ArenaSlot<P, T>>> Arena<P, T, S> {
    /// A place for one more value, where the capacity has it. It takes no memory.
    ///
    /// Refused exactly where there are as many entries as the capacity; then the arena is
    /// unchanged.
    pub fn entry_insert_within_capacity(
        &mut self,
    ) -> Result<ArenaInsertEntry<'_, P, T, S>, NotWithinCapacityError>
        ensures variant { IsOk result ↔ (arena_len self.old < capacity self.old) }
        ensures arena { IfOk result (λ entry. entry_arena entry ≡ self.old) }
        ensures history { IfOk result (λ entry. Continues Fits self.old [] (entry_arena entry)) }
        ensures same_reference { IfOk result (λ entry. entry_lender entry ≡ self.entry.ghost_name) }
        ensures well_formed { IsWellFormed self.old }
        ensures* refused { sem 𝓛 (entry_rests
            ⟦<Arena<P, T, S> as LendingArena>⟧.arena_row self.entry result) }
    {
        if self.len() >= self.capacity() {
            return Err(NotWithinCapacityError);
        }
        Ok(ArenaInsertEntry { arena: self })
    }

    /// A place for one more value; a full arena grows first.
    ///
    /// Refused as [`ArenaInsertTrait::insert_reallocating`] is; then the arena is unchanged.
    pub fn entry_insert_reallocating(
        &mut self,
    ) -> Result<ArenaInsertEntry<'_, P, T, S>, ReallocationError>
        ensures arena { IfOk result (λ entry. entry_arena entry ≡ grown S.kind self.old) }
        ensures history { IfOk result (λ entry. Continues Fits self.old [] (entry_arena entry)) }
        ensures has_place { IfOk result
            (λ entry. arena_len (entry_arena entry) < capacity (entry_arena entry)) }
        ensures beyond { (result ≡ Err ReallocationError.BeyondMaxCapacity)
            ↔ IsFullAtLimit (capacity self.old) self.old.limit (arena_len self.old) }
        ensures with_memory { CanGrow S.has_memory (capacity self.old) self.old.limit
            (greatest_index P.Inx.greatest) → IsOk result }
        ensures indexed { OnOk result (arena_len self.old ≡ capacity self.old
            → capacity self.old < greatest_index P.Inx.greatest) }
        ensures had_place { arena_len self.old < capacity self.old
            → IsOkAnd result (λ entry. entry_arena entry ≡ self.old) }
        ensures same_reference { IfOk result (λ entry. entry_lender entry ≡ self.entry.ghost_name) }
        ensures well_formed { IsWellFormed self.old }
        ensures* refused { sem 𝓛 (entry_rests
            ⟦<Arena<P, T, S> as LendingArena>⟧.arena_row self.entry result) }
    {
        self.make_place()?;
        Ok(ArenaInsertEntry { arena: self })
    }

    /// As [`Self::entry_insert_reallocating`].
    pub fn entry_insert(&mut self) -> Result<ArenaInsertEntry<'_, P, T, S>, ReallocationError>
        ensures arena { IfOk result (λ entry. entry_arena entry ≡ grown S.kind self.old) }
        ensures history { IfOk result (λ entry. Continues Fits self.old [] (entry_arena entry)) }
        ensures has_place { IfOk result
            (λ entry. arena_len (entry_arena entry) < capacity (entry_arena entry)) }
        ensures beyond { (result ≡ Err ReallocationError.BeyondMaxCapacity)
            ↔ IsFullAtLimit (capacity self.old) self.old.limit (arena_len self.old) }
        ensures with_memory { CanGrow S.has_memory (capacity self.old) self.old.limit
            (greatest_index P.Inx.greatest) → IsOk result }
        ensures indexed { OnOk result (arena_len self.old ≡ capacity self.old
            → capacity self.old < greatest_index P.Inx.greatest) }
        ensures had_place { arena_len self.old < capacity self.old
            → IsOkAnd result (λ entry. entry_arena entry ≡ self.old) }
        ensures same_reference { IfOk result (λ entry. entry_lender entry ≡ self.entry.ghost_name) }
        ensures well_formed { IsWellFormed self.old }
        ensures* refused { sem 𝓛 (entry_rests
            ⟦<Arena<P, T, S> as LendingArena>⟧.arena_row self.entry result) }
    {
        self.entry_insert_reallocating()
    }
}

impl<P: Ptr, T, S: NonZeroInxGenericStack<ArenaSlot<P, T>>> Drop for ArenaInsertEntry<'_, P, T, S> {
    fn drop(self)
        ensures { self.exit.0.now ≡ self.entry.arena.now }
    {
        let ArenaInsertEntry { arena: _ } = self;
    }
}
