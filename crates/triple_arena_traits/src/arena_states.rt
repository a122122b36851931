//! What clauses see of an arena.

ghost use Rattle.std.specs.Prelude.{◌≡◌, ℕ, ◌+◌, ◌<◌, Bool, List, Option, IsSome, None, [], min};
ghost use Rattle.std.specs.Option.{option_map};
ghost use Rattle.triple_arena_ptr.specs.Numbers.{greatest_index};
ghost use Rattle.triple_arena_stack.specs.Capacity.{stack_capacity};
ghost use Rattle.triple_arena_traits.specs.Entries.{entry_in, entry_count, with_value_in, ChangesAt, KeepsEntries};
ghost use Rattle.triple_arena_traits.specs.Histories.{History, Continues};

use triple_arena_ptr::{Ptr, PtrInx};

/// The words in which clauses speak of an arena. It has no calls.
pub trait ArenaStates<P: Ptr, T>: Sized {
    // by index from 1, the generation and the value of the entry that stands there, or nothing
    ghost slots: { Self → List (Option (ℕ × T)) };

    // what holds of every arena; the laws on insertion ask for it, and `len` and insertions tell it
    ghost valid: { Self → Type 0 };

    // how many entries fit without growth
    ghost capacity: { Self → ℕ };

    // how many are allowed, if there is a limit
    ghost limit: { Self → Option ℕ };

    // the arena without slots, of this room and this limit
    ghost empty: { ℕ → Option ℕ → Self };

    // the generation of the next insertion, where the arena gives it
    ghost next_generation: { Self → Option ℕ };

    // a history fits: it gave no pointer twice, and those valid are the ones that it gave and did not
    // end; an arena that promises this of no history has none
    ghost fits: { History → Self → Type 0 };

    // the same with another value in the entry at an index
    ghost with_value: { Self → ℕ → T → Self };

    // how many slots were touched, where the arena counts them
    ghost steps: { Self → ℕ };

    // nothing changed but that count
    ghost unchanged: { Self → Self → Type 0 };

    // what an invalidation at an index leaves, and the generation of the entry after it
    ghost invalidates: { Self → ℕ → Self → Type 0 };

    ghost renewed: { Self → ℕ → ℕ };

    // what a removal at an index leaves
    ghost removes: { Self → ℕ → Self → Type 0 };

    // whether an invalidation and a removal wrap the counter
    ghost ending_wraps: { Self → Bool };

    // what clearing leaves, and whether it wraps the counter
    ghost clears: { Self → Self → Type 0 };

    ghost clearing_wraps: { Self → Bool };

    // what a reallocation to so many leaves where it is refused
    ghost tidies: { Self → ℕ → Self → Type 0 };
}

/// What holds of these words. It has no calls.
pub trait ArenaLaws<P: Ptr, T>: ArenaStates<P, T> {
    // an arena without slots has none, and its limit and capacity are those asked for
    ghost slots_empty: { (room : ℕ) (most : Option ℕ) → Self.slots (Self.empty room most) ≡ [] };

    ghost limit_empty: { (room : ℕ) (most : Option ℕ) → Self.limit (Self.empty room most) ≡ most };

    ghost capacity_empty: { (room : ℕ) (most : Option ℕ)
        → Self.capacity (Self.empty room most) ≡ min (stack_capacity room most) (greatest_index P.Inx.greatest) };

    // another value changes one entry's value, and leaves the number of entries, limit and capacity
    ghost slots_with_value: { (arena : Self) (i : ℕ) (value : T)
        → Self.slots (Self.with_value arena i value) ≡ with_value_in (Self.slots arena) i value };

    ghost len_with_value: { (arena : Self) (i : ℕ) (value : T)
        → entry_count (Self.slots (Self.with_value arena i value)) ≡ entry_count (Self.slots arena) };

    ghost limit_with_value: { (arena : Self) (i : ℕ) (value : T)
        → Self.limit (Self.with_value arena i value) ≡ Self.limit arena };

    ghost capacity_with_value: { (arena : Self) (i : ℕ) (value : T)
        → Self.capacity (Self.with_value arena i value) ≡ Self.capacity arena };

    // a removal takes away the entry at its index alone, so that there is one less, and leaves
    // limit and capacity
    ghost slots_removed: { (old : Self) (i : ℕ) (new : Self) → Self.removes old i new
        → ChangesAt (Self.slots old) i None (Self.slots new) };

    ghost len_removed: { (old : Self) (i : ℕ) (new : Self) → Self.removes old i new
        → IsSome (entry_in (Self.slots old) i)
        → entry_count (Self.slots new) + 1 ≡ entry_count (Self.slots old) };

    ghost limit_removed: { (old : Self) (i : ℕ) (new : Self) → Self.removes old i new
        → Self.limit new ≡ Self.limit old };

    ghost capacity_removed: { (old : Self) (i : ℕ) (new : Self) → Self.removes old i new
        → Self.capacity new ≡ Self.capacity old };

    // where nothing changed but the count, entries, limit, capacity and next generation are the same,
    // an arena that was valid is, an ending is told and renewed as before, and each history that
    // fitted fits
    ghost slots_unchanged: { (old new : Self) → Self.unchanged old new → Self.slots new ≡ Self.slots old };

    ghost valid_unchanged: { (old new : Self) → Self.unchanged old new → Self.valid old → Self.valid new };

    ghost limit_unchanged: { (old new : Self) → Self.unchanged old new → Self.limit new ≡ Self.limit old };

    ghost capacity_unchanged: { (old new : Self) → Self.unchanged old new → Self.capacity new ≡ Self.capacity old };

    ghost generation_unchanged: { (old new : Self) → Self.unchanged old new
        → Self.next_generation new ≡ Self.next_generation old };

    ghost renewed_unchanged: { (old new : Self) (i : ℕ) → Self.unchanged old new
        → Self.renewed new i ≡ Self.renewed old i };

    ghost ending_wraps_unchanged: { (old new : Self) → Self.unchanged old new
        → Self.ending_wraps new ≡ Self.ending_wraps old };

    ghost clearing_wraps_unchanged: { (old new : Self) → Self.unchanged old new
        → Self.clearing_wraps new ≡ Self.clearing_wraps old };

    ghost fits_unchanged: { (old new : Self) → Self.unchanged old new → Continues Self.fits old [] new };

    // an invalidation renews the generation of the entry at its index alone, and leaves the number
    // of entries, limit and capacity
    ghost slots_invalidated: { (old : Self) (i : ℕ) (new : Self) → Self.invalidates old i new
        → ChangesAt (Self.slots old) i (option_map (λ e. (Self.renewed old i, e.1)) (entry_in (Self.slots old) i))
        (Self.slots new) };

    ghost len_invalidated: { (old : Self) (i : ℕ) (new : Self) → Self.invalidates old i new
        → entry_count (Self.slots new) ≡ entry_count (Self.slots old) };

    ghost limit_invalidated: { (old : Self) (i : ℕ) (new : Self) → Self.invalidates old i new
        → Self.limit new ≡ Self.limit old };

    ghost capacity_invalidated: { (old : Self) (i : ℕ) (new : Self) → Self.invalidates old i new
        → Self.capacity new ≡ Self.capacity old };

    // clearing leaves no entry, and limit and capacity as they are
    ghost slots_cleared: { (old new : Self) → Self.clears old new
        → (i : ℕ) → entry_in (Self.slots new) i ≡ None };

    ghost len_cleared: { (old new : Self) → Self.clears old new → entry_count (Self.slots new) ≡ 0 };

    ghost limit_cleared: { (old new : Self) → Self.clears old new → Self.limit new ≡ Self.limit old };

    ghost capacity_cleared: { (old new : Self) → Self.clears old new → Self.capacity new ≡ Self.capacity old };

    // a refused reallocation leaves every entry, the limit and the capacity
    ghost slots_tidied: { (old : Self) (m : ℕ) (new : Self) → Self.tidies old m new
        → KeepsEntries (Self.slots old) (Self.slots new) };

    ghost len_tidied: { (old : Self) (m : ℕ) (new : Self) → Self.tidies old m new
        → entry_count (Self.slots new) ≡ entry_count (Self.slots old) };

    ghost limit_tidied: { (old : Self) (m : ℕ) (new : Self) → Self.tidies old m new
        → Self.limit new ≡ Self.limit old };

    ghost capacity_tidied: { (old : Self) (m : ℕ) (new : Self) → Self.tidies old m new
        → Self.capacity new ≡ Self.capacity old };
}
