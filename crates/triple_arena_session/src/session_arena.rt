//! What a session asks of its arena, be it one that wraps its counter or one that refuses to.

ghost use Rattle.std.specs.Prelude.{◌≡◌, ◌≤◌, ◌<◌, ◌↔◌, ◌&&◌, Bool, true, false, List, Option, is_some, IsSome, IsOk, IfOk, OnOk, OnErr, None, Err, option_copied};
ghost use Rattle.std.specs.Option.{option_map};
ghost use Rattle.std.specs.Result.{IfErr};
ghost use Rattle.triple_arena_base.specs.Held.{held_all};
ghost use Rattle.triple_arena_base.specs.Invalidation.{allowed_option};
ghost use Rattle.triple_arena_ptr.specs.Numbers.{greatest_index, raise, wraps};
ghost use Rattle.triple_arena_stack.specs.StackKind.{IsOfKind};
ghost use Rattle.triple_arena_stack.specs.Capacity.{IsWithin, IsBeyond, CanGrow};
ghost use Rattle.triple_arena_traits.specs.Entries.{look_up};
ghost use Rattle.triple_arena_traits.specs.ArenaState.{ArenaState, arena_len, capacity, with_value, IsWellFormed};
ghost use Rattle.triple_arena_traits.specs.Insertion.{next_pointer, inserted};
ghost use Rattle.triple_arena_traits.specs.Ending.{removed, invalidated, cleared, told, told_of, map_told};
ghost use Rattle.triple_arena_traits.specs.FreeList.{tidied};
ghost use Rattle.triple_arena_traits.specs.Reallocation.{reallocated, KeepsRoom, grown};
ghost use Rattle.triple_arena_traits.specs.Compression.{compressed, raised_if_any, wraps_after, rank};
ghost use Rattle.triple_arena_traits.specs.Walks.{values};
ghost use Rattle.triple_arena_direct.specs.Renaming.{MapsPointers, first_unresolved, AreRenamed, Refuses};
ghost use Rattle.triple_arena_session.specs.SessionLayout.{uncounted};

use std::alloc::Global;
use triple_arena::{Arena, ArenaInsertTrait, ArenaSlot, ArenaTrait};
use triple_arena_base::{
    CompactError, InvalidationOption, InvalidationResult, ReallocationError, Recast,
};
use triple_arena_direct::{
    DirectArena, StrictArena, StrictCompactError, StrictError, compress_recast,
};
use triple_arena_ptr::{Ptr, PtrGen, PtrInx};
use triple_arena_stack::NonZeroInxGenericStack;

/// The arena of a session. What its calls answer and leave is said of the state of an `Arena`. A strict
/// one refuses to wrap its counter, and its session makes no call that would.
pub(crate) trait SessionArena<P: Ptr, T, S: NonZeroInxGenericStack<ArenaSlot<P, T>>>: Sized {
    // what it holds, where no slot is counted
    ghost state: { Self → ArenaState T };

    // it refuses to wrap its counter
    ghost strict: { Bool };

    /// Whether it refuses to wrap its counter.
    fn is_strict() -> bool
        ensures { result ≡ strict };

    /// The arena that its own calls and walks are made on.
    fn arena(&self) -> &Arena<P, T, S>
        ensures { uncounted result.now ≡ state self.now };

    /// The value under `p`; none exactly where `p` is invalid.
    fn get(&self, p: P) -> Option<&T>
        ensures value { option_copied result ≡ look_up (state self.now).slots (P.numbers p) };

    /// Puts another value under `p`, and tells whether it is valid.
    fn put(&mut self, p: P, value: T) -> bool
    where
        T: Drop,
        ensures answer { result ≡ is_some (look_up (state self.old).slots (P.numbers p)) }
        ensures done { result ≡ true
            → state self.new ≡ with_value (state self.old) (P.numbers p).0 value }
        ensures unchanged { result ≡ false → state self.new ≡ state self.old };

    fn reallocate_min_capacity(&mut self, min_capacity: usize) -> Result<(), ReallocationError>
        ensures done { OnOk result (state self.new ≡ reallocated S.kind (state self.old) min_capacity) }
        ensures refused { OnErr result (state self.new ≡ tidied (state self.old)) }
        ensures within { OnOk result ((min_capacity ≤ greatest_index P.Inx.greatest)
            × IsWithin (state self.old).limit min_capacity) }
        ensures beyond { (result ≡ Err ReallocationError.BeyondMaxCapacity)
            ↔ ((min_capacity ≤ greatest_index P.Inx.greatest)
            × IsBeyond (state self.old).limit min_capacity) }
        ensures succeeds { min_capacity ≤ greatest_index P.Inx.greatest
            → IsWithin (state self.old).limit min_capacity
            → KeepsRoom S.kind (state self.old) min_capacity → IsOk result }
        ensures with_memory { min_capacity ≤ greatest_index P.Inx.greatest
            → IsWithin (state self.old).limit min_capacity
            → S.has_memory (reallocated S.kind (state self.old) min_capacity).room → IsOk result };

    fn insert_reserved(&mut self, t: T) -> P
    where
        T: Drop,
        requires { arena_len (state self.old) < capacity (state self.old) }
        ensures pointer { P.numbers result ≡ next_pointer (state self.old) }
        ensures inserted { state self.new ≡ inserted (state self.old) t };

    fn insert(&mut self, t: T) -> Result<P, ReallocationError>
    where
        T: Drop,
        ensures pointer { IfOk result (λ p. P.numbers p ≡ next_pointer (state self.old)) }
        ensures inserted { OnOk result (state self.new ≡ inserted (grown S.kind (state self.old)) t) }
        ensures refused { OnErr result (state self.new ≡ state self.old) }
        ensures with_memory { CanGrow S.has_memory (capacity (state self.old))
            (state self.old).limit (greatest_index P.Inx.greatest) → IsOk result }
        ensures had_place { arena_len (state self.old) < capacity (state self.old)
            → IsOk result × (state self.new ≡ inserted (state self.old) t) };

    fn remove(&mut self, p: P) -> InvalidationResult<T>
        requires { IsSome (look_up (state self.old).slots (P.numbers p))
            → (strict && wraps P.Gen.generations (state self.old).counter) ≡ false }
        ensures answer { result ≡ told_of (wraps P.Gen.generations
            (state self.old).counter) (look_up (state self.old).slots (P.numbers p)) }
        ensures done { IsSome (look_up (state self.old).slots (P.numbers p)) → state self.new
            ≡ removed (raise P.Gen.generations) (state self.old) (P.numbers p).0 }
        ensures unchanged { look_up (state self.old).slots (P.numbers p) ≡ None
            → state self.new ≡ state self.old };

    fn invalidate(&mut self, p: P) -> InvalidationResult<P>
        requires { IsSome (look_up (state self.old).slots (P.numbers p))
            → (strict && wraps P.Gen.generations (state self.old).counter) ≡ false }
        ensures answer { map_told P.numbers result ≡ told_of (wraps P.Gen.generations
            (state self.old).counter) (option_map (λ _. (
              (P.numbers p).0,
              raise P.Gen.generations (state self.old).counter,
            ))
            (look_up (state self.old).slots (P.numbers p))) }
        ensures done { IsSome (look_up (state self.old).slots (P.numbers p)) → state self.new
            ≡ invalidated (raise P.Gen.generations) (state self.old) (P.numbers p).0 };

    fn clear(&mut self) -> InvalidationOption<()>
    where
        T: Drop,
        requires { (strict && wraps_after (wraps P.Gen.generations) false
            (state self.old)) ≡ false }
        ensures answer { result ≡ told (wraps_after (wraps P.Gen.generations) false
            (state self.old)) tt }
        ensures done { state self.new
            ≡ cleared (raise P.Gen.generations) (state self.old) };

    fn compress_recast(
        &mut self,
        alloc: Global,
    ) -> Result<InvalidationOption<DirectArena<P, P>>, CompactError<P>>
    where
        T: Recast<P>,
        requires { (strict && wraps_after (wraps P.Gen.generations) false
            (state self.old)) ≡ false }

        // Done: the map leads from the old pointers to the new ones. The arena is compressed, and each
        // pointer that its values hold is renamed. Each of these found an entry.
        ensures answer { IfOk result (λ answer. answer
            ≡ told (wraps_after (wraps P.Gen.generations) false (state self.old))
            (allowed_option answer)) }
        ensures maps { IfOk result (λ answer. MapsPointers P.numbers (rank (state self.old)
            (raised_if_any (raise P.Gen.generations) (state self.old)))
            (state self.old).slots (allowed_option answer).slots) }
        ensures done { OnOk result ((new : List T) × AreRenamed P.numbers (rank (state self.old)
            (raised_if_any (raise P.Gen.generations) (state self.old)))
            T.held T.refill (values (state self.old).slots) new
            × (state self.new ≡ compressed (state self.old)
            (raised_if_any (raise P.Gen.generations) (state self.old)) new)) }
        ensures resolved { OnOk result (first_unresolved P.numbers (state self.old).slots
            (held_all T.held (values (state self.old).slots)) ≡ None) }

        // Refused: nothing has changed, and the error tells why.
        ensures refused { OnErr result (state self.new ≡ state self.old) }
        ensures refusal { IfErr result (Refuses (arena_len (state self.old))
            (first_unresolved P.numbers (state self.old).slots
            (held_all T.held (values (state self.old).slots)))) };

    final fn len(&self) -> usize
        ensures value { result ≡ arena_len (state self.now) }
        ensures fits { arena_len (state self.now) ≤ capacity (state self.now) }
        ensures well_formed { IsWellFormed (state self.now) }
    {
        ArenaTrait::len(self.arena())
    }

    final fn capacity(&self) -> usize
        ensures value { result ≡ capacity (state self.now) }
        ensures greatest { (state self.now).greatest ≡ greatest_index P.Inx.greatest }
    {
        ArenaTrait::capacity(self.arena())
    }

    final fn max_capacity(&self) -> Option<usize>
        ensures value { result ≡ (state self.now).limit }
        ensures of_kind { IsOfKind S.kind (state self.now).room (state self.now).limit }
    {
        ArenaTrait::max_capacity(self.arena())
    }

    /// Whether the next raise of the counter wraps it, and that the counter is one of the generations.
    final fn is_at_greatest(&self) -> bool
        ensures wraps { result ≡ wraps P.Gen.generations (state self.now).counter }
        ensures within { (state self.now).counter ≤ P.Gen.generations.greatest }
    {
        P::Gen::is_max(self.arena().generation())
    }
}

impl<P: Ptr, T, S: NonZeroInxGenericStack<ArenaSlot<P, T>>> SessionArena<P, T, S>
    for Arena<P, T, S> {
    ghost state = { uncounted };

    ghost strict = { false };

    fn is_strict() -> bool {
        false
    }

    fn arena(&self) -> &Arena<P, T, S> {
        self
    }

    fn get(&self, p: P) -> Option<&T> {
        ArenaTrait::get(self, p)
    }

    fn put(&mut self, p: P, value: T) -> bool
    where
        T: Drop,
    {
        match ArenaTrait::get_mut(self, p) {
            Some(place) => {
                *place = value;
                true
            }
            None => false,
        }
    }

    fn reallocate_min_capacity(&mut self, min_capacity: usize) -> Result<(), ReallocationError> {
        ArenaTrait::reallocate_min_capacity(self, min_capacity)
    }

    fn insert_reserved(&mut self, t: T) -> P
    where
        T: Drop,
    {
        ArenaInsertTrait::insert_reserved(self, t)
    }

    fn insert(&mut self, t: T) -> Result<P, ReallocationError>
    where
        T: Drop,
    {
        ArenaInsertTrait::insert_reallocating(self, t)
    }

    fn remove(&mut self, p: P) -> InvalidationResult<T> {
        ArenaTrait::remove(self, p)
    }

    fn invalidate(&mut self, p: P) -> InvalidationResult<P> {
        ArenaTrait::invalidate(self, p)
    }

    fn clear(&mut self) -> InvalidationOption<()>
    where
        T: Drop,
    {
        ArenaTrait::clear(self)
    }

    fn compress_recast(
        &mut self,
        alloc: Global,
    ) -> Result<InvalidationOption<DirectArena<P, P>>, CompactError<P>>
    where
        T: Recast<P>,
    {
        compress_recast(self, alloc, false)
    }
}

impl<P: Ptr, T, S: NonZeroInxGenericStack<ArenaSlot<P, T>>> SessionArena<P, T, S>
    for StrictArena<P, T, S> {
    ghost state = { uncounted };

    ghost strict = { true };

    fn is_strict() -> bool {
        true
    }

    fn arena(&self) -> &Arena<P, T, S> {
        StrictArena::arena(self)
    }

    fn get(&self, p: P) -> Option<&T> {
        StrictArena::get(self, p)
    }

    fn put(&mut self, p: P, value: T) -> bool
    where
        T: Drop,
    {
        match StrictArena::get_mut(self, p) {
            Some(place) => {
                *place = value;
                true
            }
            None => false,
        }
    }

    fn reallocate_min_capacity(&mut self, min_capacity: usize) -> Result<(), ReallocationError> {
        StrictArena::reallocate_min_capacity(self, min_capacity)
    }

    fn insert_reserved(&mut self, t: T) -> P
    where
        T: Drop,
    {
        StrictArena::insert_within_capacity(self, t).unwrap()
    }

    fn insert(&mut self, t: T) -> Result<P, ReallocationError>
    where
        T: Drop,
    {
        StrictArena::insert(self, t)
    }

    fn remove(&mut self, p: P) -> InvalidationResult<T> {
        match StrictArena::remove(self, p) {
            Ok(value) => InvalidationResult::Success(value),
            Err(StrictError::InvalidPtr) => InvalidationResult::InvalidPtr,
            Err(StrictError::Exhausted) => unreachable!(),
        }
    }

    fn invalidate(&mut self, p: P) -> InvalidationResult<P> {
        match StrictArena::invalidate(self, p) {
            Ok(renewed) => InvalidationResult::Success(renewed),
            Err(StrictError::InvalidPtr) => InvalidationResult::InvalidPtr,
            Err(StrictError::Exhausted) => unreachable!(),
        }
    }

    fn clear(&mut self) -> InvalidationOption<()>
    where
        T: Drop,
    {
        StrictArena::clear(self).unwrap();
        InvalidationOption::Success(())
    }

    fn compress_recast(
        &mut self,
        alloc: Global,
    ) -> Result<InvalidationOption<DirectArena<P, P>>, CompactError<P>>
    where
        T: Recast<P>,
    {
        match StrictArena::compress_recast(self, alloc) {
            Ok(renaming) => Ok(InvalidationOption::Success(renaming)),
            Err(StrictCompactError::Compact(refusal)) => Err(refusal),
            Err(StrictCompactError::Exhausted) => unreachable!(),
        }
    }
}
