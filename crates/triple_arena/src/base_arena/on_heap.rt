//! The calls of an arena over its own stack, the one on the heap.
//!
//! They are those of the traits, under the same names and with the same clauses. A call on an arena that is named,
//! as `Arena<P0, u64>`, comes here, and its caller then takes a twentieth of the time to prove: for a call of a trait
//! the prover writes out, in each caller, what each method of the stack and of the arena is proved to do. Generic
//! callers, and arenas over other stacks, call the traits.

ghost use Rattle.std.specs.Prelude.{◌≡◌, ◌≢◌, ℕ, ◌≤◌, ◌<◌, ◌==◌, ◌↔◌, ◌∷◌, List, Option, Result, [], false, cond, length, map, is_some, IsSome, IsOk, IfOk, OnOk, OnErr, IfErr, IsErrAnd, Some, None, Ok, Err, option_copied};
ghost use Rattle.std.specs.Borrow.{sem, LendsIf};
ghost use Rattle.std.specs.Option.{option_map, option_copied_mut};
ghost use Rattle.triple_arena_ptr.specs.Numbers.{greatest_index, raise, wraps, first_generation};
ghost use Rattle.triple_arena_ptr.specs.Pointers.{Pointer};
ghost use Rattle.triple_arena_stack.specs.Capacity.{IsWithin, IsBeyond, IsFullAtLimit};
ghost use Rattle.triple_arena_stack.specs.StackKind.{IsOfKind, new_room, new_limit};
ghost use Rattle.triple_arena_stack.specs.StackKind.StackKind.{heap};
ghost use Rattle.triple_arena_stack.specs.Disjoint.{MayWork, Worked};
ghost use Rattle.triple_arena_traits.specs.Entries.{look_up, entry_in, KeepsEntries};
ghost use Rattle.triple_arena_traits.specs.Walks.{entries, keys, values};
ghost use Rattle.triple_arena_traits.specs.ArenaState.{new_arena, capacity, arena_len, with_value, IsWellFormed};
ghost use Rattle.triple_arena_traits.specs.SlotSteps.{RisesByAtMost, IsTouched, touched, insertion_steps};
ghost use Rattle.triple_arena_traits.specs.Ending.{removed, invalidated, cleared, told, told_of, map_told};
ghost use Rattle.triple_arena_traits.specs.FreeList.{tidied, laid_out, last_index};
ghost use Rattle.triple_arena_traits.specs.Insertion.{next_pointer, inserted};
ghost use Rattle.triple_arena_traits.specs.Reallocation.{grown, reallocated, KeepsRoom, ready_for};
ghost use Rattle.triple_arena_traits.specs.Compression.{compressed, counter_after, wraps_after, rank};
ghost use Rattle.triple_arena_traits.specs.Cloning.{counter_of, IsRoomRefusal, IsMapRefusal, IsFront, SomeMayFail};
ghost use Rattle.triple_arena_traits.specs.DisjointEntries.{DisjointPtrAnswer};
ghost use Rattle.triple_arena_traits.specs.Histories.{History, removal, insertion, invalidation, clearing, resizing, compression, begun_with, remains, Fits, Continues, CountsUp};

use crate::base_arena::Arena;
use std::alloc::Global;
use triple_arena_base::{
    AllocError, CloneFromError, GetDisjointMutError, InvalidationOption, InvalidationResult,
    NotWithinCapacityError, ReallocationError,
};
use triple_arena_ptr::{Ptr, PtrGen, PtrInx};
use triple_arena_traits::{
    ArenaCloneFromWith, ArenaInsertTrait, ArenaTrait, CompactArenaTrait, DisjointableArenaTrait,
    InsertFailed, LendingArena,
};

impl<P: Ptr, T> Arena<P, T> {
    /// As [`ArenaTrait::new`], which makes an arena over any stack.
    pub fn on_heap(alloc: Global) -> Self
        ensures { result ≡ new_arena (new_room heap) (new_limit heap) (greatest_index P.Inx.greatest)
            (first_generation P.Gen.generations) }
    {
        Arena::new(alloc)
    }

    /// As [`ArenaTrait::len`].
    pub fn len(&self) -> usize
        ensures value { result ≡ arena_len self.now }
        ensures fits { arena_len self.now ≤ capacity self.now }
        ensures well_formed { IsWellFormed self.now }
    {
        ArenaTrait::len(self)
    }

    /// As [`ArenaTrait::is_empty`].
    pub fn is_empty(&self) -> bool
        ensures { result ≡ (arena_len self.now == 0) }
    {
        ArenaTrait::is_empty(self)
    }

    /// As [`ArenaTrait::capacity`].
    pub fn capacity(&self) -> usize
        ensures value { result ≡ capacity self.now }
        ensures fits { length self.now.slots ≤ result }
        ensures indexed { result ≤ greatest_index P.Inx.greatest }
        ensures allowed { IsWithin self.now.limit result }
        ensures greatest { self.now.greatest ≡ greatest_index P.Inx.greatest }
    {
        ArenaTrait::capacity(self)
    }

    /// As [`ArenaTrait::max_capacity`].
    pub fn max_capacity(&self) -> Option<usize>
        ensures value { result ≡ self.now.limit }
        ensures of_kind { IsOfKind heap self.now.room self.now.limit }
    {
        ArenaTrait::max_capacity(self)
    }

    /// As [`ArenaTrait::reallocate_min_capacity`].
    pub fn reallocate_min_capacity(&mut self, min_capacity: usize) -> Result<(), ReallocationError>
        ensures done { OnOk result (IsTouched (reallocated heap self.old min_capacity) self.new) }
        ensures refused { OnErr result (IsTouched (tidied self.old) self.new) }
        ensures within { OnOk result
            ((min_capacity ≤ greatest_index P.Inx.greatest)
            × IsWithin self.old.limit min_capacity) }
        ensures beyond { (result ≡ Err ReallocationError.BeyondMaxCapacity)
            ↔ ((min_capacity ≤ greatest_index P.Inx.greatest)
            × IsBeyond self.old.limit min_capacity) }
        ensures succeeds { min_capacity ≤ greatest_index P.Inx.greatest
            → IsWithin self.old.limit min_capacity
            → KeepsRoom heap self.old min_capacity → IsOk result }
        ensures place { OnOk result (min_capacity ≤ capacity self.new) }
        ensures history { Continues Fits self.old (resizing ∷ []) self.new }
    {
        ArenaTrait::reallocate_min_capacity(self, min_capacity)
    }

    /// As [`ArenaTrait::get`].
    pub fn get(&self, p: P) -> Option<&T>
        ensures value { option_copied result ≡ look_up self.now.slots (P.numbers p) }
        ensures history { (h : History) → Fits h self.now
            → is_some result ≡ remains h (P.numbers p) }
    {
        ArenaTrait::get(self, p)
    }

    /// As [`ArenaTrait::contains`].
    pub fn contains(&self, p: P) -> bool
        ensures value { result ≡ is_some (look_up self.now.slots (P.numbers p)) }
        ensures history { (h : History) → Fits h self.now → result ≡ remains h (P.numbers p) }
    {
        ArenaTrait::contains(self, p)
    }

    /// As [`ArenaTrait::get_mut`].
    pub fn get_mut(&mut self, p: P) -> Option<&mut T>
        ensures value { option_copied_mut result ≡ look_up self.old.slots (P.numbers p) }
        ensures* writes_back { sem 𝓛
            (LendsIf ⟦<Arena<P, T> as LendingArena>⟧.arena_row T.row self.entry result
            (with_value self.old (P.numbers p).0) self.old) }
        ensures history { (h : History) → Fits h self.old
            → is_some result ≡ remains h (P.numbers p) }
        ensures written { (value : T) → Continues Fits self.old []
            (with_value self.old (P.numbers p).0 value) }
    {
        ArenaTrait::get_mut(self, p)
    }

    /// As [`ArenaTrait::invalidate`].
    pub fn invalidate(&mut self, p: P) -> InvalidationResult<P>
        ensures answer { map_told P.numbers result ≡ told_of
            (wraps P.Gen.generations self.old.counter) (option_map
            (λ _. ((P.numbers p).0, raise P.Gen.generations self.old.counter))
            (look_up self.old.slots (P.numbers p))) }
        ensures done { IsSome (look_up self.old.slots (P.numbers p))
            → IsTouched (invalidated (raise P.Gen.generations) self.old (P.numbers p).0) self.new }
        ensures found { IsSome (look_up self.old.slots (P.numbers p))
            → look_up self.new.slots ((P.numbers p).0, raise P.Gen.generations self.old.counter)
            ≡ look_up self.old.slots (P.numbers p) }
        ensures gone { raise P.Gen.generations self.old.counter ≢ (P.numbers p).1
            → look_up self.new.slots (P.numbers p) ≡ None }
        ensures others { (q : Pointer) → q.0 ≢ (P.numbers p).0
            → look_up self.new.slots q ≡ look_up self.old.slots q }
        ensures unchanged { look_up self.old.slots (P.numbers p) ≡ None
            → IsTouched self.old self.new }
        ensures bounded { RisesByAtMost 6 self.old.steps self.new.steps }
        ensures history { IsSome (look_up self.old.slots (P.numbers p))
            → CountsUp P.Gen.generations (wraps P.Gen.generations self.old.counter)
            → Continues Fits self.old
            (invalidation (P.numbers p) ((P.numbers p).0, raise P.Gen.generations self.old.counter) ∷ [])
            self.new }
    {
        ArenaTrait::invalidate(self, p)
    }

    /// As [`ArenaTrait::remove`].
    pub fn remove(&mut self, p: P) -> InvalidationResult<T>
        ensures answer { result
            ≡ told_of (wraps P.Gen.generations self.old.counter) (look_up self.old.slots (P.numbers p)) }
        ensures done { IsSome (look_up self.old.slots (P.numbers p))
            → IsTouched (removed (raise P.Gen.generations) self.old (P.numbers p).0) self.new }
        ensures gone { look_up self.new.slots (P.numbers p) ≡ None }
        ensures others { (q : Pointer) → q ≢ P.numbers p
            → look_up self.new.slots q ≡ look_up self.old.slots q }
        ensures unchanged { look_up self.old.slots (P.numbers p) ≡ None
            → IsTouched self.old self.new }
        ensures bounded { RisesByAtMost 6 self.old.steps self.new.steps }
        ensures history { IsSome (look_up self.old.slots (P.numbers p))
            → CountsUp P.Gen.generations (wraps P.Gen.generations self.old.counter)
            → Continues Fits self.old (removal (P.numbers p) ∷ []) self.new }
    {
        ArenaTrait::remove(self, p)
    }

    /// As [`ArenaTrait::remove_inx`].
    pub fn remove_inx(&mut self, inx: P::Inx) -> InvalidationResult<(P::Gen, T)>
        ensures answer { map_told (λ e. (P.Gen.number e.0, e.1)) result
            ≡ told_of (wraps P.Gen.generations self.old.counter) (entry_in self.old.slots
            (P.Inx.number inx)) }
        ensures done { IsSome (entry_in self.old.slots (P.Inx.number inx))
            → IsTouched (removed (raise P.Gen.generations) self.old (P.Inx.number inx)) self.new }
        ensures gone { entry_in self.new.slots (P.Inx.number inx) ≡ None }
        ensures others { (q : Pointer) → q.0 ≢ P.Inx.number inx
            → look_up self.new.slots q ≡ look_up self.old.slots q }
        ensures unchanged { entry_in self.old.slots (P.Inx.number inx) ≡ None
            → IsTouched self.old self.new }
        ensures bounded { RisesByAtMost 6 self.old.steps self.new.steps }
        ensures history { (generation : ℕ) (value : T)
            → entry_in self.old.slots (P.Inx.number inx) ≡ Some (generation, value)
            → CountsUp P.Gen.generations (wraps P.Gen.generations self.old.counter)
            → Continues Fits self.old (removal (P.Inx.number inx, generation) ∷ []) self.new }
    {
        ArenaTrait::remove_inx(self, inx)
    }

    /// As [`ArenaTrait::clear`].
    pub fn clear(&mut self) -> InvalidationOption<()>
    where
        T: Drop,
        ensures answer { result ≡ told (cond (arena_len self.old == 0) false
            (wraps P.Gen.generations self.old.counter)) tt }
        ensures done { self.new ≡ cleared (raise P.Gen.generations) self.old }
        ensures gone { (q : Pointer) → look_up self.new.slots q ≡ None }
        ensures history { CountsUp P.Gen.generations (cond (arena_len self.old == 0) false
            (wraps P.Gen.generations self.old.counter))
            → Continues Fits self.old (clearing (keys self.old.slots) ∷ []) self.new }
    {
        ArenaTrait::clear(self)
    }

    /// As [`ArenaInsertTrait::insert_within_capacity`].
    #[inline(always)]
    pub fn insert_within_capacity(&mut self, t: T) -> Result<P, NotWithinCapacityError>
    where
        T: Drop,
        ensures variant { IsOk result
            ↔ (arena_len self.old < capacity self.old) }
        ensures pointer { IfOk result (λ p. P.numbers p ≡ next_pointer self.old) }
        ensures free { IfOk result (λ p. entry_in self.old.slots (P.numbers p).0 ≡ None) }
        ensures found { IfOk result (λ p. look_up self.new.slots (P.numbers p) ≡ Some t) }
        ensures others { IfOk result (λ p. (q : Pointer) → q.0 ≢ (P.numbers p).0
            → look_up self.new.slots q ≡ look_up self.old.slots q) }
        ensures inserted { OnOk result (self.new ≡ touched (insertion_steps self.old)
            (inserted self.old t)) }
        ensures refused { OnErr result (self.new ≡ self.old) }
        ensures valid { IsWellFormed self.old }
        ensures bounded { RisesByAtMost 6 self.old.steps self.new.steps }
        ensures history { IfOk result
            (λ p. Continues Fits self.old (insertion (P.numbers p) ∷ []) self.new) }
    {
        ArenaInsertTrait::insert_within_capacity(self, t)
    }

    /// As [`ArenaInsertTrait::insert`].
    #[inline(always)]
    pub fn insert(&mut self, t: T) -> Result<P, ReallocationError>
    where
        T: Drop,
        ensures pointer { IfOk result (λ p. P.numbers p ≡ next_pointer self.old) }
        ensures free { IfOk result (λ p. entry_in self.old.slots (P.numbers p).0 ≡ None) }
        ensures found { IfOk result (λ p. look_up self.new.slots (P.numbers p) ≡ Some t) }
        ensures others { IfOk result (λ p. (q : Pointer) → q.0 ≢ (P.numbers p).0
            → look_up self.new.slots q ≡ look_up self.old.slots q) }
        ensures inserted { OnOk result (self.new ≡ touched (insertion_steps (grown heap self.old))
            (inserted (grown heap self.old) t)) }
        ensures refused { OnErr result (self.new ≡ self.old) }
        ensures beyond { (result ≡ Err ReallocationError.BeyondMaxCapacity)
            ↔ IsFullAtLimit
            (capacity self.old) self.old.limit (arena_len self.old) }
        ensures indexed { OnOk result (arena_len self.old ≡ capacity self.old
            → capacity self.old < greatest_index P.Inx.greatest) }
        ensures had_place { arena_len self.old < capacity self.old
            → IsOk result × (self.new ≡ touched (insertion_steps self.old) (inserted self.old t)) }
        ensures place { OnOk result (arena_len (grown heap self.old)
            < capacity (grown heap self.old)) }
        ensures valid { IsWellFormed self.old }
        ensures history { IfOk result
            (λ p. Continues Fits self.old (insertion (P.numbers p) ∷ []) self.new) }
    {
        ArenaInsertTrait::insert(self, t)
    }

    /// As [`ArenaInsertTrait::try_insert`].
    #[inline(always)]
    pub fn try_insert(&mut self, t: T) -> Result<P, InsertFailed<T>>
        ensures pointer { IfOk result (λ p. P.numbers p ≡ next_pointer self.old) }
        ensures free { IfOk result (λ p. entry_in self.old.slots (P.numbers p).0 ≡ None) }
        ensures found { IfOk result (λ p. look_up self.new.slots (P.numbers p) ≡ Some t) }
        ensures others { IfOk result (λ p. (q : Pointer) → q.0 ≢ (P.numbers p).0
            → look_up self.new.slots q ≡ look_up self.old.slots q) }
        ensures inserted { OnOk result (self.new ≡ touched (insertion_steps (grown heap self.old))
            (inserted (grown heap self.old) t)) }
        ensures refused { OnErr result (self.new ≡ self.old) }
        ensures value_returned { IfErr result (λ failed. failed.value ≡ t) }
        ensures beyond { IsErrAnd result (λ failed. failed.error ≡ ReallocationError.BeyondMaxCapacity)
            ↔ IsFullAtLimit
            (capacity self.old) self.old.limit (arena_len self.old) }
        ensures indexed { OnOk result (arena_len self.old ≡ capacity self.old
            → capacity self.old < greatest_index P.Inx.greatest) }
        ensures had_place { arena_len self.old < capacity self.old
            → IsOk result × (self.new ≡ touched (insertion_steps self.old) (inserted self.old t)) }
        ensures place { OnOk result (arena_len (grown heap self.old)
            < capacity (grown heap self.old)) }
        ensures valid { IsWellFormed self.old }
        ensures history { IfOk result
            (λ p. Continues Fits self.old (insertion (P.numbers p) ∷ []) self.new) }
    {
        ArenaInsertTrait::try_insert(self, t)
    }

    /// As [`CompactArenaTrait::compress`].
    pub fn compress(&mut self, reset_generation: bool) -> InvalidationOption<()>
        ensures answer { result ≡ told (wraps_after
            (wraps P.Gen.generations) reset_generation self.old) tt }
        ensures done { IsTouched (compressed self.old (counter_after
            (first_generation P.Gen.generations)
            (raise P.Gen.generations) reset_generation self.old) (values self.old.slots)) self.new }
        ensures found { (p : Pointer) → IsSome (look_up self.old.slots p)
            → look_up self.new.slots (rank self.old (counter_after
            (first_generation P.Gen.generations) (raise P.Gen.generations) reset_generation self.old) p)
            ≡ look_up self.old.slots p }
        ensures keys { keys self.new.slots
            ≡ map (rank self.old (counter_after (first_generation P.Gen.generations)
            (raise P.Gen.generations) reset_generation self.old)) (keys self.old.slots) }
        ensures values { values self.new.slots ≡ values self.old.slots }
        ensures len { arena_len self.new ≡ arena_len self.old }
        ensures limit { self.new.limit ≡ self.old.limit }
        ensures capacity { capacity self.new ≡ capacity self.old }
        ensures history { reset_generation ≡ false
            → CountsUp P.Gen.generations (wraps_after (wraps P.Gen.generations) reset_generation self.old)
            → Continues Fits self.old
            (compression (keys self.old.slots) (keys self.new.slots) ∷ []) self.new }
        ensures begun { (h : History) → Fits h self.old
            → Fits (begun_with (keys self.new.slots)) self.new }
    {
        CompactArenaTrait::compress(self, reset_generation)
    }

    /// As [`DisjointableArenaTrait::with_disjoint_mut`].
    pub fn with_disjoint_mut<R, F: FnOnce(&mut T, &mut T) -> R>(
        &mut self,
        first: P,
        second: P,
        f: F,
    ) -> Result<R, GetDisjointMutError>
        requires { (P.numbers first).0 ≢ (P.numbers second).0 → MayWork F.FnOnce f
            (look_up self.old.slots (P.numbers first))
            (look_up self.old.slots (P.numbers second)) }
        ensures variant { DisjointPtrAnswer self.old.slots
            (P.numbers first) (P.numbers second) result }
        ensures refused { OnErr result (self.new ≡ self.old) }
        ensures worked { IfOk result (λ r. Worked F.FnOnce f
            (look_up self.old.slots (P.numbers first))
            (look_up self.old.slots (P.numbers second))
            r (λ x y. self.new ≡ with_value
            (with_value self.old (P.numbers first).0 x) (P.numbers second).0 y)) }
        ensures history { Continues Fits self.old [] self.new }
    {
        DisjointableArenaTrait::with_disjoint_mut(self, first, second, f)
    }

    /// As [`ArenaCloneFromWith::clone`].
    pub fn clone(&self, alloc: Global) -> Result<Self, CloneFromError<AllocError>>
    where
        T: Clone,
        requires exact { (x y : T) → T.is_clone x y → y ≡ x }
        ensures cloned { IfOk result (λ copy. (new : List (Option (ℕ × T)))
            × IsFront T.is_infallible (entries self.now.slots) (Ok tt) new
            × IsTouched (laid_out (ready_for heap (new_arena {T = T} 0 None
            (greatest_index P.Inx.greatest) (first_generation P.Gen.generations))
            (last_index self.now.slots)) new (counter_of (first_generation P.Gen.generations)
            (Some self.now.counter))) copy) }
        ensures entries { IfOk result (λ copy. KeepsEntries self.now.slots
            copy.slots) }
        ensures short { IsRoomRefusal result
            → capacity {T = T} (new_arena {T = T} 0 None (greatest_index P.Inx.greatest)
            (first_generation P.Gen.generations))
            < last_index self.now.slots }
        ensures beyond { (result
            ≡ Err (CloneFromError.Reallocation ReallocationError.BeyondMaxCapacity))
            ↔ IsBeyond (new_limit heap) (last_index self.now.slots) }
        ensures mapped { IsMapRefusal result
            → SomeMayFail T.is_infallible (entries self.now.slots) }
        ensures succeeds { ((x : T) → T.is_infallible x) → last_index self.now.slots
            ≤ capacity {T = T} (new_arena {T = T} 0 None (greatest_index P.Inx.greatest)
            (first_generation P.Gen.generations))
            → IsOk result }
    {
        ArenaCloneFromWith::clone(self, alloc)
    }
}
