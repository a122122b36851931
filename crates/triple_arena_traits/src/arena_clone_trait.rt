//! Cloning into an arena.

ghost use Rattle.std.specs.Prelude.{◌≡◌, ℕ, ◌≤◌, ◌<◌, ◌↔◌, Ok, Err, OnOk, IfOk, IsOk, MatchResult, List, Option, Result};
ghost use Rattle.triple_arena_stack.specs.Capacity.{IsWithin, IsBeyond};
ghost use Rattle.triple_arena_stack.specs.StackKind.{new_room, new_limit};
ghost use Rattle.triple_arena_traits.specs.Entries.{KeepsEntries};
ghost use Rattle.triple_arena_traits.specs.FreeList.{last_index};
ghost use Rattle.triple_arena_traits.specs.Walks.{entries};
ghost use Rattle.triple_arena_traits.specs.Copying.{Copies};
ghost use Rattle.triple_arena_traits.specs.Cloning.{IsCloneAnswer, IsRoomRefusal, IsMapRefusal, IsFront, SomeMayFail};

use crate::arena_trait::ArenaTrait;
use crate::compact_arena_trait::CompactArenaTrait;
use std::alloc::Global;
use triple_arena_base::{AllocError, CloneFromError, ReallocationError};
use triple_arena_ptr::Ptr;

/// An arena that takes over the entries of another, under the same pointers.
pub trait ArenaCloneFromWith<P: Ptr, T>: ArenaTrait<P, T> {
    // what cloning leaves, for the source's last index and its next generation, and for the slots of
    // the copy
    ghost clones: { Self → ℕ → Option ℕ → List (Option (ℕ × T)) → Self → Type 0 };

    /// Drops the entries, and holds those of `source` instead, under the same pointers, each mapped
    /// by `map`, which is called at them in the order of their indexes. Where the arena has a counter,
    /// it becomes the source's next generation, or `two()` where that has none.
    ///
    /// `Reallocation` only where the source's last index is above the capacity, and as
    /// `reallocate_min_capacity` refuses that index: `BeyondMaxCapacity` exactly where the limit is
    /// below it; then every entry is as it was. Where memory is there and the limit allows it, it
    /// isn't refused so. `Map` exactly where `map` refuses an entry; then exactly those that were
    /// mapped before stand. The room changes only where the last index is above the capacity, and no
    /// memory is taken elsewhere.
    ///
    /// Without a refusal both arenas end with the same index (`same_end`); the capacity of each reaches
    /// its last index (`source_fits`, `fits`). So what `laws::clones_keep_capacity` asks of a clone,
    /// this call tells.
    fn clone_from_with<U, E, A: CompactArenaTrait<P, U>, M: FnMut(P, &U) -> Result<T, E>>(
        &mut self,
        source: &A,
        map: M,
    ) -> Result<(), CloneFromError<E>>
    where
        T: Drop,
        requires callable { M.IsAlwaysCallable map }
        ensures cloned { (answer : Result (Unit {0}) E) → IsCloneAnswer answer result
            → (new : List (Option (ℕ × T)))
            × Copies P.numbers M.step map (entries (A.slots source.now)) answer new
            × clones self.old (last_index (A.slots source.now)) (A.next_generation source.now) new
            self.new }
        ensures refused { IsRoomRefusal result
            → Self.tidies self.old (last_index (A.slots source.now)) self.new }
        ensures short { IsRoomRefusal result
            → Self.capacity self.old < last_index (A.slots source.now) }
        ensures beyond { (result
            ≡ Err (CloneFromError.Reallocation ReallocationError.BeyondMaxCapacity))
            ↔ ((Self.capacity self.old < last_index (A.slots source.now))
            × IsBeyond (Self.limit self.old) (last_index (A.slots source.now))) }
        ensures with_memory { IsWithin (Self.limit self.old) (last_index (A.slots source.now))
            → Self.gets_room self.old (last_index (A.slots source.now)) → IsRoomRefusal result
            → ⊥ }
        ensures same_end { OnOk result
            (last_index (Self.slots self.new) ≡ last_index (A.slots source.now)) }
        ensures source_fits { last_index (A.slots source.now) ≤ A.capacity source.now }
        ensures fits { last_index (Self.slots self.new) ≤ Self.capacity self.new };

    // the entries are those of the copy, the limit stays, and the capacity where the last index is
    // not above it
    ghost slots_cloned: { (old : Self) (last : ℕ) (next : Option ℕ) (copy : List (Option (ℕ × T)))
        (new : Self) → clones old last next copy new → KeepsEntries copy (Self.slots new) };

    ghost limit_cloned: { (old : Self) (last : ℕ) (next : Option ℕ) (copy : List (Option (ℕ × T)))
        (new : Self) → clones old last next copy new → Self.limit new ≡ Self.limit old };

    ghost capacity_cloned: { (old : Self) (last : ℕ) (next : Option ℕ)
        (copy : List (Option (ℕ × T))) (new : Self) → clones old last next copy new
        → last ≤ Self.capacity old → Self.capacity new ≡ Self.capacity old };

    /// Drops the entries, and holds clones of those of `source` instead, under the same pointers. Where
    /// the arena has a counter, it becomes the source's next generation, or `two()` where that has none. A
    /// clone must equal its original.
    ///
    /// `Reallocation` as `clone_from_with` tells it, and then every entry is as it was. `Map` where
    /// the clone of a value is refused; then exactly those before it stand.
    final fn clone_from<A: CompactArenaTrait<P, T>>(
        &mut self,
        source: &A,
    ) -> Result<(), CloneFromError<AllocError>>
    where
        T: Clone,
        requires exact { (x y : T) → T.is_clone x y → y ≡ x }
        ensures cloned { (answer : Result (Unit {0}) AllocError) → IsCloneAnswer answer result
            → (new : List (Option (ℕ × T)))
            × IsFront T.is_infallible (entries (A.slots source.now)) answer new
            × clones self.old (last_index (A.slots source.now)) (A.next_generation source.now) new
            self.new }
        ensures entries { OnOk result (KeepsEntries (A.slots source.now) (Self.slots self.new)) }
        ensures refused { IsRoomRefusal result
            → Self.tidies self.old (last_index (A.slots source.now)) self.new }
        ensures short { IsRoomRefusal result
            → Self.capacity self.old < last_index (A.slots source.now) }
        ensures beyond { (result
            ≡ Err (CloneFromError.Reallocation ReallocationError.BeyondMaxCapacity))
            ↔ ((Self.capacity self.old < last_index (A.slots source.now))
            × IsBeyond (Self.limit self.old) (last_index (A.slots source.now))) }
        ensures with_memory { IsWithin (Self.limit self.old) (last_index (A.slots source.now))
            → Self.gets_room self.old (last_index (A.slots source.now)) → IsRoomRefusal result
            → ⊥ }
        ensures same_end { OnOk result
            (last_index (Self.slots self.new) ≡ last_index (A.slots source.now)) }
        ensures source_fits { last_index (A.slots source.now) ≤ A.capacity source.now }
        ensures fits { last_index (Self.slots self.new) ≤ Self.capacity self.new }
        ensures mapped { IsMapRefusal result
            → SomeMayFail T.is_infallible (entries (A.slots source.now)) }
        ensures succeeds { ((x : T) → T.is_infallible x)
            → last_index (A.slots source.now) ≤ Self.capacity self.old → IsOk result }
    {
        self.clone_from_with(
            source,
            |_p, value|
                ensures { MatchResult result (T.is_clone value.now)
                    (λ _. ¬ (T.is_infallible value.now)) }
            { Ok(value.clone()?) },
        )
    }

    /// A clone: a new arena that holds clones of the entries, under the same pointers, as
    /// `clone_from` leaves it. A clone of a value must equal its original.
    ///
    /// `Reallocation` and `Map` as `clone_from` tells them of a new arena. A stack whose new one has
    /// limit 0 has place for no entry: there make an arena `with_min_capacity`, and `clone_from`.
    final fn clone(&self, alloc: Global) -> Result<Self, CloneFromError<AllocError>>
    where
        T: Clone,
        Self: CompactArenaTrait<P, T> + Drop,
        requires exact { (x y : T) → T.is_clone x y → y ≡ x }
        ensures cloned { IfOk result (λ copy. (new : List (Option (ℕ × T)))
            × IsFront T.is_infallible (entries (Self.slots self.now)) (Ok tt) new
            × clones (Self.empty (new_room Self.kind) (new_limit Self.kind))
            (last_index (Self.slots self.now)) (Self.next_generation self.now) new copy) }
        ensures entries { IfOk result (λ copy. KeepsEntries (Self.slots self.now)
            (Self.slots copy)) }
        ensures short { IsRoomRefusal result
            → Self.capacity (Self.empty (new_room Self.kind) (new_limit Self.kind))
            < last_index (Self.slots self.now) }
        ensures beyond { (result
            ≡ Err (CloneFromError.Reallocation ReallocationError.BeyondMaxCapacity))
            ↔ IsBeyond (new_limit Self.kind) (last_index (Self.slots self.now)) }
        ensures with_memory { IsWithin (new_limit Self.kind) (last_index (Self.slots self.now))
            → Self.gets_room (Self.empty (new_room Self.kind) (new_limit Self.kind))
            (last_index (Self.slots self.now)) → IsRoomRefusal result → ⊥ }
        ensures mapped { IsMapRefusal result
            → SomeMayFail T.is_infallible (entries (Self.slots self.now)) }
        ensures succeeds { ((x : T) → T.is_infallible x) → last_index (Self.slots self.now)
            ≤ Self.capacity (Self.empty (new_room Self.kind) (new_limit Self.kind))
            → IsOk result }
    {
        let mut copy = Self::new(alloc);
        copy.clone_from(self)?;
        Ok(copy)
    }
}
