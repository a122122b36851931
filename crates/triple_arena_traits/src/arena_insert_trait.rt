//! Insertion into an arena that gives the pointers.

ghost use Rattle.std.specs.Prelude.{◌≡◌, ◌≢◌, ℕ, ◌+◌, ◌≤◌, ◌<◌, ◌↔◌, ◌∷◌, [], IsOk, IfOk, IfErr, IsErrAnd, OnOk, OnErr, None, Some, Err};
ghost use Rattle.triple_arena_ptr.specs.Numbers.{greatest_index};
ghost use Rattle.triple_arena_ptr.specs.Pointers.{Pointer};
ghost use Rattle.triple_arena_stack.specs.Capacity.{IsFullAtLimit, CanGrow};
ghost use Rattle.triple_arena_traits.specs.Entries.{entry_in, look_up, entry_count, ChangesAt, KeepsEntries};
ghost use Rattle.triple_arena_traits.specs.SlotSteps.{RisesByAtMost};
ghost use Rattle.triple_arena_traits.specs.Histories.{insertion, Continues};

use crate::arena_trait::ArenaTrait;
use crate::insert_failed::InsertFailed;
use triple_arena_base::{NotWithinCapacityError, ReallocationError};
use triple_arena_ptr::{Ptr, PtrGen, PtrInx};

/// An arena whose insertions give the pointers of the new entries.
pub trait ArenaInsertTrait<P: Ptr, T>: ArenaTrait<P, T> {
    // the numbers of the pointer that the next insertion gives
    ghost next: { Self → Pointer };

    // what an insertion leaves
    ghost inserted: { Self → T → Self };

    // a full arena once it has grown; any other as it is
    ghost grown: { Self → Self };

    /// The pointer that the next insertion gives, on the condition that there is a place without
    /// growth, which `len` and `capacity` tell. No entry stands at its index.
    fn next_ptr(&self) -> P
        requires { entry_count (Self.slots self.now) < Self.capacity self.now }
        ensures pointer { P.numbers result ≡ next self.now }
        ensures free { entry_in (Self.slots self.now) (P.numbers result).0 ≡ None };

    /// Inserts `t` where no entry stood, and gives its pointer, on the condition that there is a
    /// place without growth, which `len` and `capacity` tell. It takes no memory, and touches at most
    /// 6 slots, where the arena counts them.
    fn insert_reserved(&mut self, t: T) -> P
        requires { entry_count (Self.slots self.old) < Self.capacity self.old }
        ensures pointer { P.numbers result ≡ next self.old }
        ensures free { entry_in (Self.slots self.old) (P.numbers result).0 ≡ None }
        ensures inserted { self.new ≡ inserted self.old t }
        ensures valid { Self.valid self.old }
        ensures bounded { RisesByAtMost 6 (Self.steps self.old) (Self.steps self.new) }
        ensures history { Continues Self.fits self.old (insertion (P.numbers result) ∷ []) self.new };

    /// Makes a place for one more entry: a full arena grows, and any other stays as it is. Its capacity
    /// never falls. An `Arena` grows to 4 slots or to twice its capacity, as far as the limit allows
    /// and there are indexes.
    ///
    /// `BeyondMaxCapacity` exactly where the arena is full and its limit is reached; else
    /// `AllocError` where it is full and memory is refused, or there is no greater index. Then the
    /// arena is unchanged. Where the arena isn't full, no memory is taken; a full one grows wherever
    /// limit, indexes and memory allow it.
    fn make_place(&mut self) -> Result<(), ReallocationError>
        ensures done { OnOk result (self.new ≡ grown self.old) }
        ensures refused { OnErr result (self.new ≡ self.old) }
        ensures beyond { (result ≡ Err ReallocationError.BeyondMaxCapacity)
            ↔ IsFullAtLimit
            (Self.capacity self.old) (Self.limit self.old) (entry_count (Self.slots self.old)) }
        ensures with_memory { CanGrow Self.has_memory (Self.capacity self.old) (Self.limit self.old)
            (greatest_index P.Inx.greatest) → IsOk result }
        ensures indexed { OnOk result (entry_count (Self.slots self.old) ≡ Self.capacity self.old
            → Self.capacity self.old < greatest_index P.Inx.greatest) }
        ensures had_place { entry_count (Self.slots self.old) < Self.capacity self.old
            → IsOk result × (self.new ≡ self.old) }
        ensures place { OnOk result (entry_count (Self.slots self.new) < Self.capacity self.new) }
        ensures valid { Self.valid self.old }
        ensures history { Continues Self.fits self.old [] self.new };

    /// Inserts `t`, and gives its pointer. It takes no memory, and touches at most 6 slots, where the
    /// arena counts them.
    ///
    /// Refused exactly where there are as many entries as the capacity; then the arena is
    /// unchanged, and `t` is dropped.
    fn insert_within_capacity(&mut self, t: T) -> Result<P, NotWithinCapacityError>
    where
        T: Drop,
        ensures variant { IsOk result
            ↔ (entry_count (Self.slots self.old) < Self.capacity self.old) }
        ensures pointer { IfOk result (λ p. P.numbers p ≡ next self.old) }
        ensures free { IfOk result (λ p. entry_in (Self.slots self.old) (P.numbers p).0 ≡ None) }
        ensures found { IfOk result (λ p. look_up (Self.slots self.new) (P.numbers p) ≡ Some t) }
        ensures others { IfOk result (λ p. (q : Pointer) → q.0 ≢ (P.numbers p).0
            → look_up (Self.slots self.new) q ≡ look_up (Self.slots self.old) q) }
        ensures inserted { OnOk result (self.new ≡ inserted self.old t) }
        ensures refused { OnErr result (self.new ≡ self.old) }
        ensures valid { Self.valid self.old }
        ensures bounded { RisesByAtMost 6 (Self.steps self.old) (Self.steps self.new) }
        ensures history { IfOk result
            (λ p. Continues Self.fits self.old (insertion (P.numbers p) ∷ []) self.new) };

    /// Inserts `t`, and gives its pointer. A full arena grows first: its capacity never falls, and
    /// it has a place then. An `Arena` grows to 4 slots or to twice its capacity, as far as the
    /// limit allows and there are indexes.
    ///
    /// `BeyondMaxCapacity` exactly where the arena is full and its limit is reached; else
    /// `AllocError` where it is full and memory is refused, or there is no greater index. Then the
    /// arena is unchanged, and `t` is dropped. Where the arena isn't full, no memory is taken; a full
    /// one grows wherever limit, indexes and memory allow it.
    fn insert_reallocating(&mut self, t: T) -> Result<P, ReallocationError>
    where
        T: Drop,
        ensures pointer { IfOk result (λ p. P.numbers p ≡ next self.old) }
        ensures free { IfOk result (λ p. entry_in (Self.slots self.old) (P.numbers p).0 ≡ None) }
        ensures found { IfOk result (λ p. look_up (Self.slots self.new) (P.numbers p) ≡ Some t) }
        ensures others { IfOk result (λ p. (q : Pointer) → q.0 ≢ (P.numbers p).0
            → look_up (Self.slots self.new) q ≡ look_up (Self.slots self.old) q) }
        ensures inserted { OnOk result (self.new ≡ inserted (grown self.old) t) }
        ensures refused { OnErr result (self.new ≡ self.old) }
        ensures beyond { (result ≡ Err ReallocationError.BeyondMaxCapacity)
            ↔ IsFullAtLimit
            (Self.capacity self.old) (Self.limit self.old) (entry_count (Self.slots self.old)) }
        ensures with_memory { CanGrow Self.has_memory (Self.capacity self.old) (Self.limit self.old)
            (greatest_index P.Inx.greatest) → IsOk result }
        ensures indexed { OnOk result (entry_count (Self.slots self.old) ≡ Self.capacity self.old
            → Self.capacity self.old < greatest_index P.Inx.greatest) }
        ensures had_place { entry_count (Self.slots self.old) < Self.capacity self.old
            → IsOk result × (self.new ≡ inserted self.old t) }
        ensures place { OnOk result (entry_count (Self.slots (grown self.old))
            < Self.capacity (grown self.old)) }
        ensures valid { Self.valid self.old }
        ensures history { IfOk result
            (λ p. Continues Self.fits self.old (insertion (P.numbers p) ∷ []) self.new) };

    /// As [`Self::insert_reallocating`].
    fn insert(&mut self, t: T) -> Result<P, ReallocationError>
    where
        T: Drop,
        ensures pointer { IfOk result (λ p. P.numbers p ≡ next self.old) }
        ensures free { IfOk result (λ p. entry_in (Self.slots self.old) (P.numbers p).0 ≡ None) }
        ensures found { IfOk result (λ p. look_up (Self.slots self.new) (P.numbers p) ≡ Some t) }
        ensures others { IfOk result (λ p. (q : Pointer) → q.0 ≢ (P.numbers p).0
            → look_up (Self.slots self.new) q ≡ look_up (Self.slots self.old) q) }
        ensures inserted { OnOk result (self.new ≡ inserted (grown self.old) t) }
        ensures refused { OnErr result (self.new ≡ self.old) }
        ensures beyond { (result ≡ Err ReallocationError.BeyondMaxCapacity)
            ↔ IsFullAtLimit
            (Self.capacity self.old) (Self.limit self.old) (entry_count (Self.slots self.old)) }
        ensures with_memory { CanGrow Self.has_memory (Self.capacity self.old) (Self.limit self.old)
            (greatest_index P.Inx.greatest) → IsOk result }
        ensures indexed { OnOk result (entry_count (Self.slots self.old) ≡ Self.capacity self.old
            → Self.capacity self.old < greatest_index P.Inx.greatest) }
        ensures had_place { entry_count (Self.slots self.old) < Self.capacity self.old
            → IsOk result × (self.new ≡ inserted self.old t) }
        ensures place { OnOk result (entry_count (Self.slots (grown self.old))
            < Self.capacity (grown self.old)) }
        ensures valid { Self.valid self.old }
        ensures history { IfOk result
            (λ p. Continues Self.fits self.old (insertion (P.numbers p) ∷ []) self.new) };

    /// As [`Self::insert`], but where it is refused, `t` comes back in the error.
    fn try_insert(&mut self, t: T) -> Result<P, InsertFailed<T>>
        ensures pointer { IfOk result (λ p. P.numbers p ≡ next self.old) }
        ensures free { IfOk result (λ p. entry_in (Self.slots self.old) (P.numbers p).0 ≡ None) }
        ensures found { IfOk result (λ p. look_up (Self.slots self.new) (P.numbers p) ≡ Some t) }
        ensures others { IfOk result (λ p. (q : Pointer) → q.0 ≢ (P.numbers p).0
            → look_up (Self.slots self.new) q ≡ look_up (Self.slots self.old) q) }
        ensures inserted { OnOk result (self.new ≡ inserted (grown self.old) t) }
        ensures refused { OnErr result (self.new ≡ self.old) }
        ensures value_returned { IfErr result (λ failed. failed.value ≡ t) }
        ensures beyond { IsErrAnd result (λ failed. failed.error ≡ ReallocationError.BeyondMaxCapacity)
            ↔ IsFullAtLimit
            (Self.capacity self.old) (Self.limit self.old) (entry_count (Self.slots self.old)) }
        ensures with_memory { CanGrow Self.has_memory (Self.capacity self.old) (Self.limit self.old)
            (greatest_index P.Inx.greatest) → IsOk result }
        ensures indexed { OnOk result (entry_count (Self.slots self.old) ≡ Self.capacity self.old
            → Self.capacity self.old < greatest_index P.Inx.greatest) }
        ensures had_place { entry_count (Self.slots self.old) < Self.capacity self.old
            → IsOk result × (self.new ≡ inserted self.old t) }
        ensures place { OnOk result (entry_count (Self.slots (grown self.old))
            < Self.capacity (grown self.old)) }
        ensures valid { Self.valid self.old }
        ensures history { IfOk result
            (λ p. Continues Self.fits self.old (insertion (P.numbers p) ∷ []) self.new) };

    // the generation of the next pointer is the one that the arena tells, where it tells one
    ghost generation_next: { (arena : Self) (generation : ℕ)
        → Self.next_generation arena ≡ Some generation → (next arena).1 ≡ generation };

    // an insertion puts the value under the next pointer, so that there is one entry more, and
    // leaves every other entry, limit and capacity
    ghost slots_inserted: { (arena : Self) (value : T) → Self.valid arena
        → ChangesAt (Self.slots arena) (next arena).0 (Some ((next arena).1, value))
        (Self.slots (inserted arena value)) };

    ghost len_inserted: { (arena : Self) (value : T) → Self.valid arena
        → entry_count (Self.slots (inserted arena value)) ≡ entry_count (Self.slots arena) + 1 };

    ghost limit_inserted: { (arena : Self) (value : T)
        → Self.limit (inserted arena value) ≡ Self.limit arena };

    ghost capacity_inserted: { (arena : Self) (value : T)
        → Self.capacity (inserted arena value) ≡ Self.capacity arena };

    // where nothing changed but how many slots were touched, the next pointer is the same, and growth
    // leaves the same but for that
    ghost next_unchanged: { (old new : Self) → Self.unchanged old new → next new ≡ next old };

    ghost grown_unchanged: { (old new : Self) → Self.unchanged old new
        → Self.unchanged (grown old) (grown new) };

    // growth leaves an arena that has a place as it is
    ghost same_grown: { (arena : Self) → entry_count (Self.slots arena) < Self.capacity arena
        → grown arena ≡ arena };

    // growth leaves every entry, the limit, and what the next insertion gives; the capacity never
    // falls
    ghost slots_grown: { (arena : Self)
        → KeepsEntries (Self.slots arena) (Self.slots (grown arena)) };

    ghost len_grown: { (arena : Self)
        → entry_count (Self.slots (grown arena)) ≡ entry_count (Self.slots arena) };

    ghost capacity_grown: { (arena : Self) → Self.capacity arena ≤ Self.capacity (grown arena) };

    ghost limit_grown: { (arena : Self) → Self.limit (grown arena) ≡ Self.limit arena };

    ghost next_grown: { (arena : Self) → next (grown arena) ≡ next arena };

    ghost valid_grown: { (arena : Self) → Self.valid arena → Self.valid (grown arena) };
}
