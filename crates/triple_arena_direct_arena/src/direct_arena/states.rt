//! What clauses see of a direct arena.

ghost use Rattle.std.specs.Prelude.{◌≡◌, false, None};
ghost use Rattle.triple_arena_ptr.specs.Numbers.{greatest_index};
ghost use Rattle.triple_arena_traits.specs.Entries.{entry_in};
ghost use Rattle.triple_arena_direct_arena.specs.DirectState.{new_direct, generation_of, direct_len, direct_capacity, SlotsFit, direct_with_value, direct_removed, direct_cleared, direct_shortened};

use crate::direct_arena::DirectArena;
use crate::slot::DirectSlot;
use triple_arena_ptr::{Ptr, PtrGen, PtrInx};
use triple_arena_stack::NonZeroInxGenericStack;
use triple_arena_traits::{ArenaLaws, ArenaStates};

impl<P: Ptr, T, S: NonZeroInxGenericStack<DirectSlot<P, T>>> ArenaStates<P, T>
    for DirectArena<P, T, S> {
    // the entries of the slots, and nothing for a free one
    ghost slots = { λ s. s.slots };

    // the slots are no more than fit
    ghost valid = { SlotsFit };

    // the smallest of room, limit and greatest index
    ghost capacity = { direct_capacity };

    ghost limit = { λ s. s.limit };

    // no slot
    ghost empty = { λ room limit. new_direct room limit (greatest_index P.Inx.greatest) };

    // an insertion is told its generation
    ghost next_generation = { λ _. None };

    // none, since insertion is told the pointer
    ghost fits = { λ _ _. ⊥ };

    ghost with_value = { direct_with_value };

    // nothing is counted
    ghost steps = { λ _. 0 };

    ghost unchanged = { λ old new. new ≡ old };

    // all stays, the generation too
    ghost invalidates = { λ old _ new. new ≡ old };

    ghost renewed = { λ s i. generation_of (entry_in s.slots i) };

    // the slot is free
    ghost removes = { λ old i new. new ≡ direct_removed old i };

    // there is no counter
    ghost ending_wraps = { λ _. false };

    // no slot is left
    ghost clears = { λ old new. new ≡ direct_cleared old };

    ghost clearing_wraps = { λ _. false };

    // free slots past the capacity that was asked for go
    ghost tidies = { λ old m new. new ≡ direct_shortened old m };
}

impl<P: Ptr, T, S: NonZeroInxGenericStack<DirectSlot<P, T>>> ArenaLaws<P, T>
    for DirectArena<P, T, S> {
    ghost use Rattle.std.specs.Prelude.{refl};
    ghost use Rattle.std.proofs.Common.{ap, subst, sym};
    ghost use Rattle.triple_arena_direct_arena.specs.laws.DirectStepLaws.{len-with_value, slots-removed, len-removed, slots-kept, slots-cleared, slots-tidied, len-tidied};

    ghost slots_empty = { λ _ _. refl };

    ghost limit_empty = { λ _ _. refl };

    ghost capacity_empty = { λ _ _. refl };

    ghost slots_with_value = { λ _ _ _. refl };

    ghost len_with_value = { len-with_value };

    ghost limit_with_value = { λ _ _ _. refl };

    ghost capacity_with_value = { λ _ _ _. refl };

    ghost slots_removed = { slots-removed };

    ghost len_removed = { len-removed };

    ghost limit_removed = { λ _ _ _. ap (λ s. s.limit) };

    ghost capacity_removed = { λ _ _ _. ap direct_capacity };

    ghost slots_unchanged = { λ _ _. ap (λ s. s.slots) };

    ghost valid_unchanged = { λ _ _ same. subst SlotsFit (sym same) };

    ghost limit_unchanged = { λ _ _. ap (λ s. s.limit) };

    ghost capacity_unchanged = { λ _ _. ap direct_capacity };

    ghost generation_unchanged = { λ _ _ _. refl };

    ghost renewed_unchanged = { λ _ _ i. ap (λ s. generation_of (entry_in s.slots i)) };

    ghost ending_wraps_unchanged = { λ _ _ _. refl };

    ghost clearing_wraps_unchanged = { λ _ _ _. refl };

    ghost fits_unchanged = { λ _ _ _ _ none. none };

    ghost slots_invalidated = { slots-kept };

    ghost len_invalidated = { λ _ _ _. ap direct_len };

    ghost limit_invalidated = { λ _ _ _. ap (λ s. s.limit) };

    ghost capacity_invalidated = { λ _ _ _. ap direct_capacity };

    ghost slots_cleared = { slots-cleared };

    ghost len_cleared = { λ _ _. ap direct_len };

    ghost limit_cleared = { λ _ _. ap (λ s. s.limit) };

    ghost capacity_cleared = { λ _ _. ap direct_capacity };

    ghost slots_tidied = { slots-tidied };

    ghost len_tidied = { len-tidied };

    ghost limit_tidied = { λ _ _ _. ap (λ s. s.limit) };

    ghost capacity_tidied = { λ _ _ _. ap direct_capacity };
}
