//! The arena.

ghost use Rattle.std.specs.Prelude.{◌≡◌, ℕ, ◌≤◌, ◌==◌, ◌∷◌, ◌↔◌, ◌≢◌, [], map, length, is_some, IsSome, IsOk, OnOk, OnErr, Some, None, Err, option_copied, MatchOption};
ghost use Rattle.std.specs.Borrow.{sem, LendsIf};
ghost use Rattle.std.specs.Int.NonZero.{non_zero_usize_get};
ghost use Rattle.std.specs.Option.{option_map, option_copied_mut};
ghost use Rattle.triple_arena_ptr.specs.Numbers.{greatest_index, raise, wraps};
ghost use Rattle.triple_arena_ptr.specs.Pointers.{Pointer};
ghost use Rattle.triple_arena_stack.specs.Capacity.{IsWithin, IsBeyond};
ghost use Rattle.triple_arena_stack.specs.StackKind.{IsOfKind};
ghost use Rattle.triple_arena_traits.specs.Entries.{look_up, entry_in, entry_count, IsFirst, IsLast};
ghost use Rattle.triple_arena_traits.specs.Walks.{IsAtFirst};
ghost use Rattle.triple_arena_traits.specs.ArenaState.{ArenaState, capacity, arena_len, with_value, IsWellFormed};
ghost use Rattle.triple_arena_traits.specs.SlotSteps.{RisesByAtMost, IsTouched};
ghost use Rattle.triple_arena_traits.specs.Ending.{removed, invalidated, told_of, map_told};
ghost use Rattle.triple_arena_traits.specs.FreeList.{tidied};
ghost use Rattle.triple_arena_traits.specs.Reallocation.{reallocated, KeepsRoom};
ghost use Rattle.triple_arena_slots.specs.Slot.{entry_of};
ghost use Rattle.triple_arena_traits.specs.Values.{with_values_of};
ghost use Rattle.triple_arena_traits.specs.Lent.{lends_values};
ghost use Rattle.triple_arena_traits.specs.Histories.{History, resizing, invalidation, removal, remains, Fits, Continues, CountsUp};

mod advancer;
mod compaction;
mod copies;
mod counter;
mod disjoint;
mod ending;
mod free_list;
mod insertion;
mod look_ups;
mod on_heap;
mod over;
mod room;
mod states;

use crate::arena_iterators::PtrAdvancer;
use std::alloc::Global;
use std::marker::{Model, PhantomData};
use triple_arena_base::{AllocError, InvalidationOption, InvalidationResult, ReallocationError};
use triple_arena_ptr::{Ptr, PtrGen, PtrInx};
use triple_arena_slots::{ArenaSlot, Slots};
use triple_arena_stack::{NonZeroInxGenericStack, NonZeroInxVec};
use triple_arena_traits::answers::answer_on_valid;
use triple_arena_traits::entry_slots::{first_live, last_live};
use triple_arena_traits::{ArenaTrait, EntrySlot, LendingArena, LentSlots};

/// A generational arena over a stack of slots.
///
/// Each insertion gives the new entry a pointer whose generation is the arena's counter; removal,
/// invalidation and clearing of entries raise the counter once, and tell of a wrap. With generations
/// that do not count, a pointer names whatever stands at its index.
///
/// Insertion takes a free index: the one that was freed last, or the least one where the free list
/// was tidied since (`canonicalize_freelist`, `reallocate_min_capacity`, cloning). Where none is
/// free it takes the one past the last slot. A removal in the last slot takes that slot away, and
/// frees no index.
///
/// Insertion within the capacity, removal, invalidation and look-ups take no memory. `insert_within_capacity`,
/// `insert_reserved`, removal and invalidation touch at most 6 slots, however many there are.
#[derive(Drop)]
pub struct Arena<
    P: Ptr,
    T,
    S: NonZeroInxGenericStack<ArenaSlot<P, T>> = NonZeroInxVec<ArenaSlot<P, T>>,
> {
    slots: Slots<P, T, S>,
    // How many entries there are.
    len: usize,
    // The generation of the next entry.
    counter: P::Gen,
}

impl<P: Ptr, T, S: NonZeroInxGenericStack<ArenaSlot<P, T>>> Model for Arena<P, T, S> {
    ghost use Rattle.triple_arena_traits.specs.ArenaState.{ArenaState};

    ghost Value = { ArenaState T };

    ghost use Rattle.std.specs.Int.NonZero.{non_zero_usize_get};
    ghost use Rattle.std.specs.Option.{option_map};
    ghost use Rattle.triple_arena_ptr.specs.Numbers.{greatest_index};
    ghost use Rattle.triple_arena_slots.specs.Layout.{state_of, Shows};

    ghost view = { λ a. state_of P.Gen.number (S.items a.slots.slots.stack)
        (option_map non_zero_usize_get a.slots.root) (P.Gen.number a.counter) (S.room a.slots.slots.stack)
        (S.limit a.slots.slots.stack) (greatest_index P.Inx.greatest) a.slots.slots.steps.count };

    ghost invariant = { λ a. Shows P.Gen.number (S.items a.slots.slots.stack)
        (option_map non_zero_usize_get a.slots.root) a.len
        (state_of P.Gen.number (S.items a.slots.slots.stack) (option_map non_zero_usize_get a.slots.root)
        (P.Gen.number a.counter) (S.room a.slots.slots.stack) (S.limit a.slots.slots.stack)
        (greatest_index P.Inx.greatest) a.slots.slots.steps.count) };
}

// Where the body of a method makes calls, the trait's clauses are written out, since inheriting them makes each
// call dearer to prove.
impl<P: Ptr, T, S: NonZeroInxGenericStack<ArenaSlot<P, T>>> ArenaTrait<P, T> for Arena<P, T, S> {
    ghost use Rattle.std.proofs.Common.{ap, subst, sym};
    ghost use Rattle.triple_arena.specs.laws.TouchedLaws.{reallocated_slots, reallocated_len};

    type PtrAdvancer = PtrAdvancer<P>;

    // an advancer is seen as its stand
    ghost stand = { λ s. s };

    ghost kind = { S.kind };

    ghost has_memory = { S.has_memory };

    // the free list is tidied, and then the room is changed as the stack's kind does it
    ghost reallocates = { λ old m new. IsTouched (reallocated S.kind old m) new };

    // the room that the stack's kind makes of it, once the free list is tidied, is the old one
    ghost keeps_room = { KeepsRoom S.kind };

    // memory is there for the room that the stack's kind makes of it
    ghost gets_room = { λ s m. S.has_memory (reallocated S.kind s m).room };

    fn new(alloc: Global) -> Self {
        Arena::over(S::new(alloc))
    }

    fn with_min_capacity(alloc: Global, min_capacity: usize) -> Result<Self, AllocError> {
        if min_capacity > P::Inx::max_index().get() {
            return Err(AllocError);
        }
        let stack = S::with_min_capacity(alloc, min_capacity)?;
        Ok(Arena::over(stack))
    }

    fn capacity(&self) -> usize
        ensures value { result ≡ capacity self.now }
        ensures fits { length self.now.slots ≤ result }
        ensures indexed { result ≤ greatest_index P.Inx.greatest }
        ensures allowed { IsWithin self.now.limit result }
        ensures greatest { self.now.greatest ≡ greatest_index P.Inx.greatest }
    {
        self.slots.slots.capacity().min(P::Inx::max_index().get())
    }

    fn max_capacity(&self) -> Option<usize>
        ensures value { result ≡ self.now.limit }
        ensures of_kind { IsOfKind S.kind self.now.room self.now.limit }
    {
        self.slots.slots.max_capacity()
    }

    fn reallocate_min_capacity(&mut self, min_capacity: usize) -> Result<(), ReallocationError>
        ensures done { OnOk result (IsTouched (reallocated S.kind self.old min_capacity) self.new) }
        ensures refused { OnErr result (IsTouched (tidied self.old) self.new) }
        ensures within { OnOk result
            ((min_capacity ≤ greatest_index P.Inx.greatest)
            × IsWithin self.old.limit min_capacity) }
        ensures beyond { (result ≡ Err ReallocationError.BeyondMaxCapacity)
            ↔ ((min_capacity ≤ greatest_index P.Inx.greatest)
            × IsBeyond self.old.limit min_capacity) }
        ensures succeeds { min_capacity ≤ greatest_index P.Inx.greatest
            → IsWithin self.old.limit min_capacity
            → KeepsRoom S.kind self.old min_capacity → IsOk result }
        ensures with_memory { min_capacity ≤ greatest_index P.Inx.greatest
            → IsWithin self.old.limit min_capacity
            → S.has_memory (reallocated S.kind self.old min_capacity).room → IsOk result }
        ensures place { OnOk result (min_capacity ≤ capacity self.new) }
        ensures history { Continues Fits self.old (resizing ∷ []) self.new }
    {
        self.canonicalize_freelist();
        if min_capacity > P::Inx::max_index().get() {
            return Err(ReallocationError::AllocError);
        }
        self.reallocate(min_capacity)
    }

    fn len(&self) -> usize
        ensures value { result ≡ arena_len self.now }
        ensures fits { arena_len self.now ≤ capacity self.now }
        ensures well_formed { IsWellFormed self.now }
    {
        self.len
    }

    fn is_empty(&self) -> bool
        ensures { result ≡ (arena_len self.now == 0) }
    {
        self.len == 0
    }

    fn singular_generation(&self) -> Option<P::Gen> {
        Some(self.counter)
    }

    fn get(&self, p: P) -> Option<&T>
        ensures value { option_copied result ≡ look_up self.now.slots (P.numbers p) }
        ensures history { (h : History) → Fits h self.now
            → is_some result ≡ remains h (P.numbers p) }
    {
        self.slot(p.inx())?.look_up(p.generation())
    }

    fn contains(&self, p: P) -> bool
        ensures value { result ≡ is_some (look_up self.now.slots (P.numbers p)) }
        ensures history { (h : History) → Fits h self.now → result ≡ remains h (P.numbers p) }
    {
        self.get(p).is_some()
    }

    fn get_mut(&mut self, p: P) -> Option<&mut T>
        ensures value { option_copied_mut result ≡ look_up self.old.slots (P.numbers p) }
        ensures* writes_back { sem 𝓛 (LendsIf ⟦<Arena<P, T, S> as LendingArena>⟧.arena_row T.row
            self.entry result (with_value self.old (P.numbers p).0) self.old) }
        ensures history { (h : History) → Fits h self.old
            → is_some result ≡ remains h (P.numbers p) }
        ensures written { (value : T) → Continues Fits self.old []
            (with_value self.old (P.numbers p).0 value) }
    {
        let inx = self.find(p)?;
        Some(self.slots.slots.uncounted_value_mut(inx))
    }

    fn get_inx(&self, inx: P::Inx) -> Option<(P::Gen, &T)>
        ensures { option_map (λ e. (P.Gen.number e.0, e.1.now)) result
            ≡ entry_in self.now.slots (P.Inx.number inx) }
    {
        self.slot(inx)?.entry()
    }

    fn generation_at(&self, inx: P::Inx) -> Option<P::Gen> {
        let (generation, _value) = self.get_inx(inx)?;
        Some(generation)
    }

    fn get_inx_mut(&mut self, inx: P::Inx) -> Option<&mut T>
        ensures value { option_copied_mut result
            ≡ option_map (λ e. e.1) (entry_in self.old.slots (P.Inx.number inx)) }
        ensures* writes_back { sem 𝓛 (LendsIf ⟦<Arena<P, T, S> as LendingArena>⟧.arena_row T.row
            self.entry result (with_value self.old (P.Inx.number inx)) self.old) }
        ensures written { (value : T) → Continues Fits self.old []
            (with_value self.old (P.Inx.number inx) value) }
    {
        let inx = self.find_inx(inx)?;
        Some(self.slots.slots.uncounted_value_mut(inx))
    }

    fn find_first_inx_ptr(&self) -> Option<P>
        ensures { MatchOption result (entry_count self.now.slots ≡ 0)
            (λ p. IsFirst self.now.slots (P.numbers p)) }
    {
        let inx = first_live::<P, T, ArenaSlot<P, T>, S>(self.slots.slots.uncounted_stack())?;
        Some(self.ptr_at(inx))
    }

    fn find_last_inx_ptr(&self) -> Option<P>
        ensures { MatchOption result (entry_count self.now.slots ≡ 0)
            (λ p. IsLast self.now.slots (P.numbers p)) }
    {
        let inx = last_live::<P, T, ArenaSlot<P, T>, S>(self.slots.slots.uncounted_stack())?;
        Some(self.ptr_at(inx))
    }

    fn advancer(&self) -> PtrAdvancer<P>
        ensures { IsAtFirst self.now.slots result }
    {
        PtrAdvancer::from(first_live::<P, T, ArenaSlot<P, T>, S>(
            self.slots.slots.uncounted_stack(),
        ))
    }

    fn advancer_inx(&self, inx: P::Inx, reverse: bool) -> PtrAdvancer<P> {
        PtrAdvancer::at(inx, reverse)
    }

    fn invalidate(&mut self, p: P) -> InvalidationResult<P>
        ensures answer { map_told P.numbers result ≡ told_of (wraps P.Gen.generations self.old.counter)
            (option_map (λ _. ((P.numbers p).0, raise P.Gen.generations self.old.counter))
            (look_up self.old.slots (P.numbers p))) }
        ensures done { IsSome (look_up self.old.slots (P.numbers p))
            → IsTouched (invalidated (raise P.Gen.generations) self.old (P.numbers p).0) self.new }
        ensures found { IsSome (look_up self.old.slots (P.numbers p))
            → look_up self.new.slots ((P.numbers p).0, raise P.Gen.generations self.old.counter)
            ≡ look_up self.old.slots (P.numbers p) }
        ensures gone { raise P.Gen.generations self.old.counter ≢ (P.numbers p).1
            → look_up self.new.slots (P.numbers p) ≡ None }
        ensures others { (q : Pointer) → q.0 ≢ (P.numbers p).0
            → look_up self.new.slots q ≡ look_up self.old.slots q }
        ensures unchanged { look_up self.old.slots (P.numbers p) ≡ None
            → IsTouched self.old self.new }
        ensures bounded { RisesByAtMost 6 self.old.steps self.new.steps }
        ensures history { IsSome (look_up self.old.slots (P.numbers p))
            → CountsUp P.Gen.generations (wraps P.Gen.generations self.old.counter)
            → Continues Fits self.old (invalidation (P.numbers p)
            ((P.numbers p).0, raise P.Gen.generations self.old.counter) ∷ []) self.new }
    {
        let Some(inx) = self.look_for(p) else {
            return InvalidationResult::InvalidPtr;
        };
        let (counter, wrapped) = P::Gen::generational_inc(self.counter);
        self.slots.restamp(inx, counter);
        self.counter = counter;
        answer_on_valid(wrapped, P::_from_raw(p.inx(), counter))
    }

    #[inline(always)]
    fn remove(&mut self, p: P) -> InvalidationResult<T>
        ensures answer { result ≡ told_of (wraps P.Gen.generations self.old.counter)
            (look_up self.old.slots (P.numbers p)) }
        ensures done { IsSome (look_up self.old.slots (P.numbers p))
            → IsTouched (removed (raise P.Gen.generations) self.old (P.numbers p).0) self.new }
        ensures gone { look_up self.new.slots (P.numbers p) ≡ None }
        ensures others { (q : Pointer) → q ≢ P.numbers p
            → look_up self.new.slots q ≡ look_up self.old.slots q }
        ensures unchanged { look_up self.old.slots (P.numbers p) ≡ None
            → IsTouched self.old self.new }
        ensures bounded { RisesByAtMost 6 self.old.steps self.new.steps }
        ensures history { IsSome (look_up self.old.slots (P.numbers p))
            → CountsUp P.Gen.generations (wraps P.Gen.generations self.old.counter)
            → Continues Fits self.old (removal (P.numbers p) ∷ []) self.new }
    {
        let Some(inx) = self.look_for(p) else {
            return InvalidationResult::InvalidPtr;
        };
        let ((_generation, value), wrapped) = self.take(inx);
        answer_on_valid(wrapped, value)
    }

    fn remove_inx(&mut self, inx: P::Inx) -> InvalidationResult<(P::Gen, T)>
        ensures answer { map_told (λ e. (P.Gen.number e.0, e.1)) result
            ≡ told_of (wraps P.Gen.generations self.old.counter)
            (entry_in self.old.slots (P.Inx.number inx)) }
        ensures done { IsSome (entry_in self.old.slots (P.Inx.number inx))
            → IsTouched (removed (raise P.Gen.generations) self.old (P.Inx.number inx)) self.new }
        ensures gone { entry_in self.new.slots (P.Inx.number inx) ≡ None }
        ensures others { (q : Pointer) → q.0 ≢ P.Inx.number inx
            → look_up self.new.slots q ≡ look_up self.old.slots q }
        ensures unchanged { entry_in self.old.slots (P.Inx.number inx) ≡ None
            → IsTouched self.old self.new }
        ensures bounded { RisesByAtMost 6 self.old.steps self.new.steps }
        ensures history { (generation : ℕ) (value : T)
            → entry_in self.old.slots (P.Inx.number inx) ≡ Some (generation, value)
            → CountsUp P.Gen.generations (wraps P.Gen.generations self.old.counter)
            → Continues Fits self.old (removal (P.Inx.number inx, generation) ∷ []) self.new }
    {
        let Some(inx) = self.look_at(inx) else {
            return InvalidationResult::InvalidPtr;
        };
        let (taken, wrapped) = self.take(inx);
        answer_on_valid(wrapped, taken)
    }

    fn clear(&mut self) -> InvalidationOption<()>
    where
        T: Drop,
    {
        let is_empty = self.len == 0;
        self.slots.clear();
        self.len = 0;
        if is_empty {
            return InvalidationOption::Success(());
        }
        self.inc_generation()
    }

    ghost keeps_room_unchanged = { λ _ _ m same. subst (λ s. KeepsRoom S.kind s m) (sym same.0) };

    ghost gets_room_unchanged = { λ _ _ m same.
        subst (λ s. S.has_memory (reallocated S.kind s m).room) (sym same.0) };

    ghost slots_reallocated = { reallocated_slots S.kind };

    ghost len_reallocated = { reallocated_len S.kind };

    ghost limit_reallocated = { λ _ _ _ same. ap (λ s. s.limit) same.0 };
}

impl<P: Ptr, T, S: NonZeroInxGenericStack<ArenaSlot<P, T>>> Arena<P, T, S> {
    // The slots, so that their values alone can be written.
    pub(crate) fn lend_slots(&mut self) -> LentSlots<'_, P, T, ArenaSlot<P, T>>
        ensures* writes_back { sem 𝓛 (lends_values ⟦<Arena<P, T, S> as LendingArena>⟧.arena_row
            self.entry result.tie (with_values_of self.old)) }
        ensures slots { map (entry_of P.Gen.number) result.now ≡ self.old.slots }
    {
        let slots = self.slots.as_mut_slice();
        LentSlots {
            at: slots.as_mut_ptr(),
            mark: PhantomData,
        }
    }
}
