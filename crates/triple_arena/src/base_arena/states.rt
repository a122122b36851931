//! What clauses see of an arena.

ghost use Rattle.std.specs.Prelude.{◌≡◌, ◌==◌, cond, false, Some};
ghost use Rattle.triple_arena_ptr.specs.Numbers.{greatest_index, raise, wraps, first_generation};
ghost use Rattle.triple_arena_traits.specs.ArenaState.{new_arena, capacity, arena_len, with_value, IsWellFormed};
ghost use Rattle.triple_arena_traits.specs.SlotSteps.{IsTouched};
ghost use Rattle.triple_arena_traits.specs.Ending.{removed, invalidated, cleared};
ghost use Rattle.triple_arena_traits.specs.FreeList.{tidied};
ghost use Rattle.triple_arena_traits.specs.Histories.{Fits};

use crate::base_arena::Arena;
use triple_arena_ptr::{Ptr, PtrGen, PtrInx};
use triple_arena_slots::ArenaSlot;
use triple_arena_stack::NonZeroInxGenericStack;
use triple_arena_traits::{ArenaLaws, ArenaStates};

impl<P: Ptr, T, S: NonZeroInxGenericStack<ArenaSlot<P, T>>> ArenaStates<P, T> for Arena<P, T, S> {
    // the entries of the slots, and nothing for a free one
    ghost slots = { λ s. s.slots };

    // the free list has each free index once, and the slots are no more than fit
    ghost valid = { IsWellFormed };

    // the smallest of room, limit and greatest index
    ghost capacity = { capacity };

    ghost limit = { λ s. s.limit };

    // no slot, and the first generation as the counter
    ghost empty = { λ room limit. new_arena room limit (greatest_index P.Inx.greatest)
        (first_generation P.Gen.generations) };

    // the counter
    ghost next_generation = { λ s. Some s.counter };

    // no pointer is given twice, and exactly those that were given and have not ended are valid
    ghost fits = { Fits };

    ghost with_value = { with_value };

    // the count of the slots that were touched
    ghost steps = { λ s. s.steps };

    // nothing else changed
    ghost unchanged = { IsTouched };

    // the counter is raised, and the entry has it as its generation
    ghost invalidates = { λ old i new. IsTouched (invalidated (raise P.Gen.generations) old i) new };

    // the raised counter
    ghost renewed = { λ s _. raise P.Gen.generations s.counter };

    // the counter is raised; the last slot goes, and any other becomes the first free one
    ghost removes = { λ old i new. IsTouched (removed (raise P.Gen.generations) old i) new };

    // the counter is the greatest generation
    ghost ending_wraps = { λ s. wraps P.Gen.generations s.counter };

    // no slot is left; the counter is raised once if there was an entry
    ghost clears = { λ old new. new ≡ cleared (raise P.Gen.generations) old };

    // there was an entry, and the counter is the greatest generation
    ghost clearing_wraps = { λ s. cond (arena_len s == 0) false (wraps P.Gen.generations s.counter) };

    // the free list is tidied
    ghost tidies = { λ old _ new. IsTouched (tidied old) new };
}

impl<P: Ptr, T, S: NonZeroInxGenericStack<ArenaSlot<P, T>>> ArenaLaws<P, T> for Arena<P, T, S> {
    ghost use Rattle.std.specs.Prelude.{refl};
    ghost use Rattle.std.proofs.Common.{ap};
    ghost use Rattle.triple_arena_traits.specs.laws.EntryLaws.{slots-cleared};
    ghost use Rattle.triple_arena_traits.specs.laws.LengthLaws.{len-with_value};
    ghost use Rattle.triple_arena_traits.specs.laws.WellFormedLaws.{IsWellFormed-touched};
    ghost use Rattle.triple_arena.specs.laws.TouchedLaws.{removed_slots, removed_len, removed_limit, removed_capacity, invalidated_slots, invalidated_len, tidied_slots, tidied_len, Continues-unchanged};

    ghost slots_empty = { λ _ _. refl };

    ghost limit_empty = { λ _ _. refl };

    ghost capacity_empty = { λ _ _. refl };

    ghost slots_with_value = { λ _ _ _. refl };

    ghost len_with_value = { len-with_value };

    ghost limit_with_value = { λ _ _ _. refl };

    ghost capacity_with_value = { λ _ _ _. refl };

    ghost slots_removed = { removed_slots (raise P.Gen.generations) };

    ghost len_removed = { removed_len (raise P.Gen.generations) };

    ghost limit_removed = { removed_limit (raise P.Gen.generations) };

    ghost capacity_removed = { removed_capacity (raise P.Gen.generations) };

    ghost slots_unchanged = { λ _ _ same. ap (λ s. s.slots) same.0 };

    ghost valid_unchanged = { IsWellFormed-touched };

    ghost limit_unchanged = { λ _ _ same. ap (λ s. s.limit) same.0 };

    ghost capacity_unchanged = { λ _ _ same. ap capacity same.0 };

    ghost generation_unchanged = { λ _ _ same. ap (λ s. Some s.counter) same.0 };

    ghost renewed_unchanged = { λ _ _ _ same. ap (λ s. raise P.Gen.generations s.counter) same.0 };

    ghost ending_wraps_unchanged = { λ _ _ same. ap (λ s. wraps P.Gen.generations s.counter) same.0 };

    ghost clearing_wraps_unchanged = { λ _ _ same.
        ap (λ s. cond (arena_len s == 0) false (wraps P.Gen.generations s.counter)) same.0 };

    ghost fits_unchanged = { Continues-unchanged };

    ghost slots_invalidated = { invalidated_slots (raise P.Gen.generations) };

    ghost len_invalidated = { invalidated_len (raise P.Gen.generations) };

    ghost limit_invalidated = { λ _ _ _ same. ap (λ s. s.limit) same.0 };

    ghost capacity_invalidated = { λ _ _ _ same. ap capacity same.0 };

    ghost slots_cleared = { slots-cleared (raise P.Gen.generations) };

    ghost len_cleared = { λ _ _. ap arena_len };

    ghost limit_cleared = { λ _ _. ap (λ s. s.limit) };

    ghost capacity_cleared = { λ _ _. ap capacity };

    ghost slots_tidied = { λ old _. tidied_slots old };

    ghost len_tidied = { λ old _. tidied_len old };

    ghost limit_tidied = { λ _ _ _ same. ap (λ s. s.limit) same.0 };

    ghost capacity_tidied = { λ _ _ _ same. ap capacity same.0 };
}
