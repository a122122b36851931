//! The direct arena.

ghost use Rattle.std.specs.Prelude.{◌≡◌, ◌==◌, ◌≢◌, ℕ, IfOk, ◌≤◌, ◌↔◌, ◌∷◌, false, [], map, length, is_some, IsSome, IsOk, OnOk, OnErr, Some, None, Err, option_copied, MatchOption};
ghost use Rattle.std.specs.Int.NonZero.{non_zero_usize_get};
ghost use Rattle.std.specs.Borrow.{sem, LendsIf};
ghost use Rattle.std.specs.Option.{option_map, option_copied_mut};
ghost use Rattle.triple_arena_ptr.specs.Numbers.{greatest_index};
ghost use Rattle.triple_arena_ptr.specs.Pointers.{Pointer};
ghost use Rattle.triple_arena_stack.specs.Capacity.{IsWithin, IsBeyond};
ghost use Rattle.triple_arena_stack.specs.StackKind.{IsOfKind, made_room, made_limit, CanHold, TakesNoMemory};
ghost use Rattle.triple_arena_traits.specs.Entries.{entry_in, look_up, entry_count, IsFirst, IsLast};
ghost use Rattle.triple_arena_traits.specs.Walks.{IsAtFirst};
ghost use Rattle.triple_arena_traits.specs.Ending.{told_of, map_told};
ghost use Rattle.triple_arena_traits.specs.SlotSteps.{RisesByAtMost};
ghost use Rattle.triple_arena_traits.specs.Histories.{History, resizing, removal, remains, Continues, CountsUp};
ghost use Rattle.triple_arena_direct_arena.specs.DirectState.{DirectState, new_direct, direct_len, direct_capacity, SlotsFit, direct_with_value, direct_removed, direct_shortened, direct_reallocated};
ghost use Rattle.triple_arena_traits.specs.Lent.{lends_values};
ghost use Rattle.triple_arena_direct_arena.specs.DirectValues.{direct_with_values_of};
ghost use Rattle.triple_arena_direct_arena.specs.DirectSlot.{direct_slot_entry};

mod advancer;
mod compaction;
mod copies;
mod disjoint;
mod insertion;
mod look_ups;
mod on_heap;
mod over;
mod room;
mod states;

use crate::direct_arena_iterators::PtrAdvancer;
use crate::slot::DirectSlot;
use std::alloc::Global;
use std::marker::{Model, PhantomData};
use std::num::NonZeroUsize;
use triple_arena_base::{AllocError, InvalidationOption, InvalidationResult, ReallocationError};
use triple_arena_ptr::{Ptr, PtrGen, PtrInx};
use triple_arena_slots::SlotStack;
use triple_arena_stack::{NonZeroInxGenericStack, NonZeroInxVec};
use triple_arena_traits::entry_slots::{first_live, last_live};
use triple_arena_traits::{ArenaTrait, EntrySlot, LendingArena, LentSlots};

/// An arena over a stack of slots, whose entries are put under pointers of the caller's choice: it
/// has no counter and no free list.
///
/// A removal leaves a free slot, also at the end. `get`, `get_mut` and removal take no memory.
#[derive(Drop)]
pub struct DirectArena<
    P: Ptr,
    T,
    S: NonZeroInxGenericStack<DirectSlot<P, T>> = NonZeroInxVec<DirectSlot<P, T>>,
> {
    slots: SlotStack<P, T, DirectSlot<P, T>, S>,
    // How many entries there are.
    len: usize,
}

impl<P: Ptr, T, S: NonZeroInxGenericStack<DirectSlot<P, T>>> Model for DirectArena<P, T, S> {
    ghost use Rattle.triple_arena_direct_arena.specs.DirectState.{DirectState};

    ghost Value = { DirectState T };

    ghost use Rattle.triple_arena_ptr.specs.Numbers.{greatest_index};
    ghost use Rattle.triple_arena_direct_arena.specs.DirectLayout.{direct_of, Counts};

    ghost view = { λ a. direct_of P.Gen.number (S.items a.slots.stack) (S.room a.slots.stack) (S.limit a.slots.stack)
        (greatest_index P.Inx.greatest) };

    ghost invariant = { λ a. Counts a.len (direct_of P.Gen.number (S.items a.slots.stack)
        (S.room a.slots.stack) (S.limit a.slots.stack) (greatest_index P.Inx.greatest)) };
}

impl<P: Ptr, T, S: NonZeroInxGenericStack<DirectSlot<P, T>>> ArenaTrait<P, T>
    for DirectArena<P, T, S> {
    ghost use Rattle.std.proofs.Common.{ap, subst, sym};
    ghost use Rattle.triple_arena_direct_arena.specs.laws.DirectStepLaws.{slots-reallocated, len-reallocated};

    type PtrAdvancer = PtrAdvancer<P>;

    // an advancer is seen as its stand
    ghost stand = { λ s. s };

    ghost kind = { S.kind };

    ghost has_memory = { S.has_memory };

    // free slots past the new capacity go, and then the room is changed as the stack's kind does it
    ghost reallocates = { λ old m new. new ≡ direct_reallocated S.kind old m };

    // the room that the stack's kind makes of it, once those slots are gone, is the old one
    ghost keeps_room = { λ s m. (direct_reallocated S.kind s m).room ≡ s.room };

    // memory is there for the room that the stack's kind makes of it
    ghost gets_room = { λ s m. S.has_memory (direct_reallocated S.kind s m).room };

    fn new(alloc: Global) -> Self {
        DirectArena::over(S::new(alloc))
    }

    // The trait's clauses are written out, since inheriting them makes each call dearer to prove.
    fn with_min_capacity(alloc: Global, min_capacity: usize) -> Result<Self, AllocError>
        ensures made { IfOk result (λ arena. arena ≡ new_direct (made_room S.kind min_capacity)
            (made_limit S.kind min_capacity) (greatest_index P.Inx.greatest)) }
        ensures holds { OnOk result
            ((min_capacity ≤ greatest_index P.Inx.greatest) × CanHold S.kind min_capacity) }
        ensures succeeds { min_capacity ≤ greatest_index P.Inx.greatest
            → TakesNoMemory S.kind min_capacity → IsOk result }
        ensures with_memory { min_capacity ≤ greatest_index P.Inx.greatest
            → CanHold S.kind min_capacity → S.has_memory min_capacity → IsOk result }
    {
        if min_capacity > P::Inx::max_index().get() {
            return Err(AllocError);
        }
        let stack = S::with_min_capacity(alloc, min_capacity)?;
        Ok(DirectArena::over(stack))
    }

    fn capacity(&self) -> usize
        ensures value { result ≡ direct_capacity self.now }
        ensures fits { length self.now.slots ≤ result }
        ensures indexed { result ≤ greatest_index P.Inx.greatest }
        ensures allowed { IsWithin self.now.limit result }
        ensures greatest { self.now.greatest ≡ greatest_index P.Inx.greatest }
    {
        self.slots.capacity().min(P::Inx::max_index().get())
    }

    fn max_capacity(&self) -> Option<usize>
        ensures value { result ≡ self.now.limit }
        ensures of_kind { IsOfKind S.kind self.now.room self.now.limit }
    {
        self.slots.max_capacity()
    }

    /// Changes the room so that there is place for `min_capacity` slots, and for those that are in
    /// use. First free slots at the end go, as far as there are more slots than `min_capacity`; that
    /// stays done where the rest is refused.
    fn reallocate_min_capacity(&mut self, min_capacity: usize) -> Result<(), ReallocationError>
        ensures done { OnOk result (self.new ≡ direct_reallocated S.kind self.old min_capacity) }
        ensures refused { OnErr result (self.new ≡ direct_shortened self.old min_capacity) }
        ensures within { OnOk result
            ((min_capacity ≤ greatest_index P.Inx.greatest)
            × IsWithin self.old.limit min_capacity) }
        ensures beyond { (result ≡ Err ReallocationError.BeyondMaxCapacity)
            ↔ ((min_capacity ≤ greatest_index P.Inx.greatest)
            × IsBeyond self.old.limit min_capacity) }
        ensures succeeds { min_capacity ≤ greatest_index P.Inx.greatest
            → IsWithin self.old.limit min_capacity
            → (direct_reallocated S.kind self.old min_capacity).room ≡ self.old.room
            → IsOk result }
        ensures with_memory { min_capacity ≤ greatest_index P.Inx.greatest
            → IsWithin self.old.limit min_capacity
            → S.has_memory (direct_reallocated S.kind self.old min_capacity).room → IsOk result }
        ensures place { OnOk result (min_capacity ≤ direct_capacity self.new) }
        ensures history { Continues (λ _ _. ⊥) self.old (resizing ∷ []) self.new }
    {
        self.shorten(min_capacity);
        if min_capacity > P::Inx::max_index().get() {
            return Err(ReallocationError::AllocError);
        }
        self.reallocate(min_capacity)
    }

    fn len(&self) -> usize
        ensures value { result ≡ direct_len self.now }
        ensures fits { direct_len self.now ≤ direct_capacity self.now }
        ensures valid { SlotsFit self.now }
    {
        self.len
    }

    fn is_empty(&self) -> bool
        ensures { result ≡ (direct_len self.now == 0) }
    {
        self.len == 0
    }

    fn singular_generation(&self) -> Option<P::Gen> {
        None
    }

    fn get(&self, p: P) -> Option<&T>
        ensures value { option_copied result ≡ look_up self.now.slots (P.numbers p) }
        ensures history { (h : History) → ⊥ → is_some result ≡ remains h (P.numbers p) }
    {
        self.slot(p.inx())?.look_up(p.generation())
    }

    fn contains(&self, p: P) -> bool
        ensures value { result ≡ is_some (look_up self.now.slots (P.numbers p)) }
        ensures history { (h : History) → ⊥ → result ≡ remains h (P.numbers p) }
    {
        self.get(p).is_some()
    }

    fn get_mut(&mut self, p: P) -> Option<&mut T>
        ensures value { option_copied_mut result ≡ look_up self.old.slots (P.numbers p) }
        ensures* writes_back { sem 𝓛 (LendsIf ⟦<DirectArena<P, T, S> as LendingArena>⟧.arena_row
            T.row self.entry result (direct_with_value self.old (P.numbers p).0) self.old) }
        ensures history { (h : History) → ⊥ → is_some result ≡ remains h (P.numbers p) }
        ensures written { (value : T) → Continues (λ _ _. ⊥) self.old []
            (direct_with_value self.old (P.numbers p).0 value) }
    {
        let inx = self.find(p)?;
        Some(self.slots.uncounted_value_mut(inx))
    }

    fn get_inx(&self, inx: P::Inx) -> Option<(P::Gen, &T)>
        ensures { option_map (λ e. (P.Gen.number e.0, e.1.now)) result
            ≡ entry_in self.now.slots (P.Inx.number inx) }
    {
        self.slot(inx)?.entry()
    }

    fn generation_at(&self, inx: P::Inx) -> Option<P::Gen> {
        let (generation, _value) = self.get_inx(inx)?;
        Some(generation)
    }

    fn get_inx_mut(&mut self, inx: P::Inx) -> Option<&mut T>
        ensures value { option_copied_mut result
            ≡ option_map (λ e. e.1) (entry_in self.old.slots (P.Inx.number inx)) }
        ensures* writes_back { sem 𝓛 (LendsIf ⟦<DirectArena<P, T, S> as LendingArena>⟧.arena_row
            T.row self.entry result (direct_with_value self.old (P.Inx.number inx)) self.old) }
        ensures written { (value : T) → Continues (λ _ _. ⊥) self.old []
            (direct_with_value self.old (P.Inx.number inx) value) }
    {
        let inx = self.find_inx(inx)?;
        Some(self.slots.uncounted_value_mut(inx))
    }

    fn find_first_inx_ptr(&self) -> Option<P>
        ensures { MatchOption result (entry_count self.now.slots ≡ 0)
            (λ p. IsFirst self.now.slots (P.numbers p)) }
    {
        let inx = first_live::<P, T, DirectSlot<P, T>, S>(self.slots.uncounted_stack())?;
        Some(self.ptr_at(inx))
    }

    fn find_last_inx_ptr(&self) -> Option<P>
        ensures { MatchOption result (entry_count self.now.slots ≡ 0)
            (λ p. IsLast self.now.slots (P.numbers p)) }
    {
        let inx = last_live::<P, T, DirectSlot<P, T>, S>(self.slots.uncounted_stack())?;
        Some(self.ptr_at(inx))
    }

    fn advancer(&self) -> PtrAdvancer<P>
        ensures { IsAtFirst self.now.slots result }
    {
        PtrAdvancer::from(first_live::<P, T, DirectSlot<P, T>, S>(self.slots.uncounted_stack()))
    }

    fn advancer_inx(&self, inx: P::Inx, reverse: bool) -> PtrAdvancer<P> {
        PtrAdvancer::at(inx, reverse)
    }

    fn invalidate(&mut self, p: P) -> InvalidationResult<P> {
        let Some(_inx) = self.find(p) else {
            return InvalidationResult::InvalidPtr;
        };
        InvalidationResult::Success(p)
    }

    fn remove(&mut self, p: P) -> InvalidationResult<T>
        ensures answer { result ≡ told_of false (look_up self.old.slots (P.numbers p)) }
        ensures done { IsSome (look_up self.old.slots (P.numbers p))
            → self.new ≡ direct_removed self.old (P.numbers p).0 }
        ensures gone { look_up self.new.slots (P.numbers p) ≡ None }
        ensures others { (q : Pointer) → q ≢ P.numbers p
            → look_up self.new.slots q ≡ look_up self.old.slots q }
        ensures unchanged { look_up self.old.slots (P.numbers p) ≡ None → self.new ≡ self.old }
        ensures bounded { RisesByAtMost 6 0 0 }
        ensures history { IsSome (look_up self.old.slots (P.numbers p))
            → CountsUp P.Gen.generations false
            → Continues (λ _ _. ⊥) self.old (removal (P.numbers p) ∷ []) self.new }
    {
        let Some(inx) = self.find(p) else {
            return InvalidationResult::InvalidPtr;
        };
        let (_generation, value) = self.take(inx);
        InvalidationResult::Success(value)
    }

    fn remove_inx(&mut self, inx: P::Inx) -> InvalidationResult<(P::Gen, T)>
        ensures answer { map_told (λ e. (P.Gen.number e.0, e.1)) result
            ≡ told_of false (entry_in self.old.slots (P.Inx.number inx)) }
        ensures done { IsSome (entry_in self.old.slots (P.Inx.number inx))
            → self.new ≡ direct_removed self.old (P.Inx.number inx) }
        ensures gone { entry_in self.new.slots (P.Inx.number inx) ≡ None }
        ensures others { (q : Pointer) → q.0 ≢ P.Inx.number inx
            → look_up self.new.slots q ≡ look_up self.old.slots q }
        ensures unchanged { entry_in self.old.slots (P.Inx.number inx) ≡ None
            → self.new ≡ self.old }
        ensures bounded { RisesByAtMost 6 0 0 }
        ensures history { (generation : ℕ) (value : T)
            → entry_in self.old.slots (P.Inx.number inx) ≡ Some (generation, value)
            → CountsUp P.Gen.generations false
            → Continues (λ _ _. ⊥) self.old (removal (P.Inx.number inx, generation) ∷ [])
            self.new }
    {
        let Some(inx) = self.find_inx(inx) else {
            return InvalidationResult::InvalidPtr;
        };
        InvalidationResult::Success(self.take(inx))
    }

    fn clear(&mut self) -> InvalidationOption<()>
    where
        T: Drop,
    {
        self.slots.uncounted_stack_mut().clear();
        self.len = 0;
        InvalidationOption::Success(())
    }

    ghost keeps_room_unchanged = { λ _ _ m same.
        subst (λ s. (direct_reallocated S.kind s m).room ≡ s.room) (sym same) };

    ghost gets_room_unchanged = { λ _ _ m same.
        subst (λ s. S.has_memory (direct_reallocated S.kind s m).room) (sym same) };

    ghost slots_reallocated = { slots-reallocated S.kind };

    ghost len_reallocated = { len-reallocated S.kind };

    ghost limit_reallocated = { λ _ _ _. ap (λ s. s.limit) };
}

impl<P: Ptr, T, S: NonZeroInxGenericStack<DirectSlot<P, T>>> DirectArena<P, T, S> {
    ghost use Rattle.triple_arena_slots.specs.Lends.{lends_refilled};
    ghost use Rattle.triple_arena_direct_arena.specs.contracts.slot.DirectSlot.{the_row};

    // The slots, so that their values alone can be written.
    pub(crate) fn lend_slots(&mut self) -> LentSlots<'_, P, T, DirectSlot<P, T>>
        ensures* writes_back { sem 𝓛 (lends_values
            ⟦<DirectArena<P, T, S> as LendingArena>⟧.arena_row
            self.entry result.tie (direct_with_values_of self.old)) }
        ensures slots { map (direct_slot_entry P.Gen.number) result.now ≡ self.old.slots }
    {
        let slots = Self::slice_of(&mut self.slots);
        LentSlots {
            at: slots.as_mut_ptr(),
            mark: PhantomData,
        }
    }

    // All slots, for writing: the proof by hand of the function before names a call of these types alone.
    fn slice_of(slots: &mut SlotStack<P, T, DirectSlot<P, T>, S>) -> &mut [DirectSlot<P, T>]
        ensures* writes_back { sem 𝓛 (lends_refilled P.row T.row
            (the_row P.row T.row P.Inx.row P.Gen.row) S.row P.Inx.row P.Gen.row
            S.items S.with_items slots.entry result) }
        ensures value { result.now ≡ S.items slots.old.stack }
    {
        slots.uncounted_as_mut_slice()
    }

    // Takes out the entry at an index.
    fn take(&mut self, inx: NonZeroUsize) -> (P::Gen, T)
        requires { IsSome (entry_in self.old.slots (non_zero_usize_get inx)) }
        ensures entry { entry_in self.old.slots (non_zero_usize_get inx)
            ≡ Some (P.Gen.number result.0, result.1) }
        ensures state { self.new ≡ direct_removed self.old (non_zero_usize_get inx) }
    {
        self.len -= 1;
        self.slots.put(inx, DirectSlot::Free).into_entry()
    }
}
