//! Compaction of the direct arena.

ghost use Rattle.std.specs.Prelude.{◌≡◌, None, false};
ghost use Rattle.triple_arena_traits.specs.Compression.{rank_in};
ghost use Rattle.triple_arena_direct_arena.specs.DirectState.{direct_compressed};

use super::DirectArena;
use crate::slot::DirectSlot;
use triple_arena_base::InvalidationOption;
use triple_arena_ptr::{Ptr, PtrGen, PtrInx};
use triple_arena_stack::NonZeroInxGenericStack;
use triple_arena_traits::{CompactArenaTrait, close_up};

impl<P: Ptr, T, S: NonZeroInxGenericStack<DirectSlot<P, T>>> CompactArenaTrait<P, T>
    for DirectArena<P, T, S> {
    ghost use Rattle.std.specs.Prelude.{refl};
    ghost use Rattle.std.proofs.Common.{ap};
    ghost use Rattle.triple_arena_traits.specs.laws.CompressionLaws.{ranks};
    ghost use Rattle.triple_arena_direct_arena.specs.DirectState.{direct_capacity};
    ghost use Rattle.triple_arena_direct_arena.specs.laws.DirectCompressionLaws.{keys-compressed, values-compressed, compressed-with_value, with_value-same};

    // the entries have these values, in their order, from index 1 on, each under its generation
    ghost compresses = { λ old _ values new. new ≡ direct_compressed old values };

    // the number of the entry, under its generation
    ghost rank = { λ s _. rank_in None s.slots };

    // there is no counter
    ghost compression_wraps = { λ _ _. false };

    fn compress_with<F: FnMut(P, T, P) -> T>(
        &mut self,
        _reset_generation: bool,
        f: F,
    ) -> InvalidationOption<()> {
        close_up::<P, T, DirectSlot<P, T>, S, F>(self.slots.uncounted_stack_mut(), None, f);
        InvalidationOption::Success(())
    }

    ghost advanced = { λ _ _ _ _ steps. steps };

    ghost with_value_same = { with_value-same };

    ghost keys_compressed = { λ old _ values new. keys-compressed old new values };

    ghost values_compressed = { λ old _ values new. values-compressed old new values };

    ghost ranked = { λ old _. ranks None old.slots };

    ghost compresses_with_value = { λ old _ values new. compressed-with_value old new values };

    ghost rank_unchanged = { λ _ _ _. ap (λ s. rank_in None s.slots) };

    ghost compression_wraps_unchanged = { λ _ _ _ _. refl };

    ghost limit_compressed = { λ _ _ _ _. ap (λ s. s.limit) };

    ghost capacity_compressed = { λ _ _ _ _. ap direct_capacity };
}
