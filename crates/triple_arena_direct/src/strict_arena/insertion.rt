//! Insertion into a strict arena.

ghost use Rattle.std.specs.Prelude.{◌≡◌, ◌≢◌, ◌<◌, ◌↔◌, ◌∷◌, [], IsOk, IsErrAnd, IfOk, OnOk, OnErr, None, Err};
ghost use Rattle.std.specs.Result.{IfErr};
ghost use Rattle.triple_arena_ptr.specs.Numbers.{greatest_index};
ghost use Rattle.triple_arena_ptr.specs.Pointers.{Pointer};
ghost use Rattle.triple_arena_stack.specs.Capacity.{IsFullAtLimit, CanGrow};
ghost use Rattle.triple_arena_traits.specs.ArenaState.{arena_len, capacity, entry, IsWellFormed};
ghost use Rattle.triple_arena_traits.specs.Insertion.{next_pointer, inserted};
ghost use Rattle.triple_arena_traits.specs.SlotSteps.{RisesByAtMost, IsTouched, touched, insertion_steps};
ghost use Rattle.triple_arena_traits.specs.Reallocation.{grown};
ghost use Rattle.triple_arena_traits.specs.Histories.{insertion};
ghost use Rattle.triple_arena_direct.specs.Gone.{IsGoneForGood};
ghost use Rattle.triple_arena_direct.specs.StrictAnswers.{calls_if_ok};
ghost use Rattle.triple_arena_direct.specs.StrictCalls.{IsStrictCall, to_insert};
ghost use Rattle.triple_arena_direct.specs.StrictDone.{IsStrictlyInserted, IsStrictlyGrown};

use super::StrictArena;
use triple_arena::{ArenaInsertTrait, ArenaSlot, InsertFailed};
use triple_arena_base::{NotWithinCapacityError, ReallocationError};
use triple_arena_ptr::{Ptr, PtrGen, PtrInx};
use triple_arena_stack::NonZeroInxGenericStack;

impl<P: Ptr, T, S: NonZeroInxGenericStack<ArenaSlot<P, T>>> StrictArena<P, T, S> {
    /// Inserts `t`, and gives its pointer. It takes no memory, and touches at most 6 slots.
    ///
    /// Refused exactly where there are as many entries as the capacity; then nothing changes, and `t`
    /// is dropped.
    #[inline(always)]
    pub fn insert_within_capacity(&mut self, t: T) -> Result<P, NotWithinCapacityError>
    where
        T: Drop,
        // Done: the value stands under the next pointer.
        ensures variant { IsOk result ↔ (arena_len self.old < capacity self.old) }
        ensures done { IfOk result (λ p.
            IsStrictlyInserted self.old self.old t (P.numbers p) self.new) }

        // Refused: nothing changes. In each case few slots are touched.
        ensures refused { OnErr result (self.new ≡ self.old) }
        ensures bounded { RisesByAtMost 6 self.old.steps self.new.steps }

        // It is one strict call, by which a history goes on, done or refused.
        ensures call { IsStrictCall S.kind P.Gen.generations
            self.old (to_insert t) (calls_if_ok result (λ p. insertion (P.numbers p))) self.new }
    {
        self.arena.insert_within_capacity(t)
    }

    /// Inserts `t`, and gives its pointer. A full arena grows first, as an `Arena` does.
    ///
    /// `BeyondMaxCapacity` exactly where the arena is full and its limit is reached; else `AllocError`
    /// where it is full and memory is refused, or there is no greater index. Then nothing changes, and
    /// `t` is dropped.
    #[inline(always)]
    pub fn insert_reallocating(&mut self, t: T) -> Result<P, ReallocationError>
    where
        T: Drop,
        // Done: the value stands under the next pointer, in the arena, which has grown if it was full.
        ensures done { IfOk result (λ p.
            IsStrictlyInserted self.old (grown S.kind self.old) t (P.numbers p) self.new) }

        // Refused: nothing changes, and only an arena that is full is refused, for its limit, for
        // memory, or for want of an index.
        ensures refused { OnErr result (self.new ≡ self.old) }
        ensures beyond { (result ≡ Err ReallocationError.BeyondMaxCapacity)
            ↔ IsFullAtLimit (capacity self.old) self.old.limit (arena_len self.old) }
        ensures with_memory { CanGrow S.has_memory (capacity self.old) self.old.limit
            (greatest_index P.Inx.greatest) → IsOk result }
        ensures indexed { OnOk result (arena_len self.old ≡ capacity self.old
            → capacity self.old < greatest_index P.Inx.greatest) }
        ensures had_place { arena_len self.old < capacity self.old
            → IsOk result × IsTouched (inserted self.old t) self.new }

        // It is one strict call, by which a history goes on, done or refused.
        ensures call { IsStrictCall S.kind P.Gen.generations
            self.old (to_insert t) (calls_if_ok result (λ p. insertion (P.numbers p))) self.new }
    {
        self.arena.insert_reallocating(t)
    }

    /// As [`Self::insert_reallocating`].
    #[inline(always)]
    pub fn insert(&mut self, t: T) -> Result<P, ReallocationError>
    where
        T: Drop,
        // Done: the value stands under the next pointer, in the arena, which has grown if it was full.
        ensures done { IfOk result (λ p.
            IsStrictlyInserted self.old (grown S.kind self.old) t (P.numbers p) self.new) }

        // Refused: nothing changes, and only an arena that is full is refused, for its limit, for
        // memory, or for want of an index.
        ensures refused { OnErr result (self.new ≡ self.old) }
        ensures beyond { (result ≡ Err ReallocationError.BeyondMaxCapacity)
            ↔ IsFullAtLimit (capacity self.old) self.old.limit (arena_len self.old) }
        ensures with_memory { CanGrow S.has_memory (capacity self.old) self.old.limit
            (greatest_index P.Inx.greatest) → IsOk result }
        ensures indexed { OnOk result (arena_len self.old ≡ capacity self.old
            → capacity self.old < greatest_index P.Inx.greatest) }
        ensures had_place { arena_len self.old < capacity self.old
            → IsOk result × IsTouched (inserted self.old t) self.new }

        // It is one strict call, by which a history goes on, done or refused.
        ensures call { IsStrictCall S.kind P.Gen.generations
            self.old (to_insert t) (calls_if_ok result (λ p. insertion (P.numbers p))) self.new }
    {
        self.arena.insert(t)
    }

    /// As [`Self::insert`], but where it is refused, `t` comes back in the error.
    pub fn try_insert(&mut self, t: T) -> Result<P, InsertFailed<T>>
        // Done: the value stands under the next pointer, in the arena, which has grown if it was full.
        ensures done { IfOk result (λ p.
            IsStrictlyInserted self.old (grown S.kind self.old) t (P.numbers p) self.new) }

        // Refused: nothing changes, and the value comes back; only an arena that is full is
        // refused, for its limit, for memory, or for want of an index.
        ensures refused { OnErr result (self.new ≡ self.old) }
        ensures value_returned { IfErr result (λ failed. failed.value ≡ t) }
        ensures beyond { IsErrAnd result (λ failed. failed.error ≡ ReallocationError.BeyondMaxCapacity)
            ↔ IsFullAtLimit (capacity self.old) self.old.limit (arena_len self.old) }
        ensures with_memory { CanGrow S.has_memory (capacity self.old) self.old.limit
            (greatest_index P.Inx.greatest) → IsOk result }
        ensures indexed { OnOk result (arena_len self.old ≡ capacity self.old
            → capacity self.old < greatest_index P.Inx.greatest) }
        ensures had_place { arena_len self.old < capacity self.old
            → IsOk result × IsTouched (inserted self.old t) self.new }

        // It is one strict call, by which a history goes on, done or refused.
        ensures call { IsStrictCall S.kind P.Gen.generations
            self.old (to_insert t) (calls_if_ok result (λ p. insertion (P.numbers p))) self.new }
    {
        self.arena.try_insert(t)
    }

    /// The pointer that the next insertion gives, on the condition that there is a place without
    /// growth, which `len` and `capacity` tell. No entry stands at its index, and it is none that is
    /// gone for good.
    pub fn next_ptr(&self) -> P
        requires { arena_len self.now < capacity self.now }
        ensures pointer { P.numbers result ≡ next_pointer self.now }
        ensures free { entry self.now (P.numbers result).0 ≡ None }
        ensures new { (q : Pointer) → IsGoneForGood self.now q → P.numbers result ≢ q }
    {
        self.arena.next_ptr()
    }

    /// Inserts `t` where no entry stood, and gives its pointer, on the condition that there is a
    /// place without growth, which `len` and `capacity` tell. It takes no memory, and touches at most
    /// 6 slots.
    pub fn insert_reserved(&mut self, t: T) -> P
        requires { arena_len self.old < capacity self.old }

        // The value stands under the next pointer, few slots are touched, and it is one strict call.
        ensures done { IsStrictlyInserted self.old self.old t (P.numbers result) self.new }
        ensures inserted { self.new ≡ touched (insertion_steps self.old) (inserted self.old t) }
        ensures bounded { RisesByAtMost 6 self.old.steps self.new.steps }
        ensures call { IsStrictCall S.kind P.Gen.generations
            self.old (to_insert t) (insertion (P.numbers result) ∷ []) self.new }
    {
        self.arena.insert_reserved(t)
    }

    // Grows where there are as many entries as the capacity: by a place for a value, which is let go.
    pub(super) fn grow_if_full(&mut self) -> Result<(), ReallocationError>
        // Done, there is a place; refused, nothing changes.
        ensures done { OnOk result (IsStrictlyGrown self.old S.kind self.new) }
        ensures refused { OnErr result (self.new ≡ self.old) }

        // Only an arena that is full is refused, for its limit, for memory, or for want of an
        // index.
        ensures beyond { (result ≡ Err ReallocationError.BeyondMaxCapacity)
            ↔ IsFullAtLimit (capacity self.old) self.old.limit (arena_len self.old) }
        ensures with_memory { CanGrow S.has_memory (capacity self.old) self.old.limit
            (greatest_index P.Inx.greatest) → IsOk result }
        ensures indexed { OnOk result (arena_len self.old ≡ capacity self.old
            → capacity self.old < greatest_index P.Inx.greatest) }
        ensures had_place { arena_len self.old < capacity self.old → IsOk result × (self.new ≡ self.old) }
        ensures well_formed { IsWellFormed self.old }
    {
        match self.arena.entry_insert_reallocating() {
            Ok(place) => drop(place),
            Err(refusal) => return Err(refusal),
        }
        Ok(())
    }
}
