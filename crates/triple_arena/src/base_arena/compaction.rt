//! Compaction of the arena.

ghost use Rattle.std.specs.Prelude.{◌≡◌, List, Some, map};
ghost use Rattle.triple_arena_ptr.specs.Numbers.{raise, wraps, first_generation};
ghost use Rattle.triple_arena_traits.specs.Ending.{told};
ghost use Rattle.triple_arena_traits.specs.Walks.{entries};
ghost use Rattle.triple_arena_traits.specs.Compression.{compressed, counter_after, wraps_after, rank};
ghost use Rattle.triple_arena_traits.specs.SlotSteps.{IsTouched};
ghost use Rattle.triple_arena_traits.specs.Moves.{Moves};

use super::Arena;
use triple_arena_base::InvalidationOption;
use triple_arena_ptr::{Ptr, PtrGen, PtrInx};
use triple_arena_slots::ArenaSlot;
use triple_arena_stack::NonZeroInxGenericStack;
use triple_arena_traits::{ArenaTrait, CompactArenaTrait};

impl<P: Ptr, T, S: NonZeroInxGenericStack<ArenaSlot<P, T>>> CompactArenaTrait<P, T>
    for Arena<P, T, S> {
    ghost use Rattle.std.proofs.Common.{ap};
    ghost use Rattle.triple_arena_traits.specs.ArenaState.{capacity};
    ghost use Rattle.triple_arena_traits.specs.laws.CompressionLaws.{ranks, with_value-same};
    ghost use Rattle.triple_arena.specs.laws.TouchedLaws.{compressed_keys, compressed_values, compressed_with_value};

    ghost advanced = { λ _ _ _ _ steps. steps };

    // the entries have these values, in their order, from index 1 on, under the counter
    ghost compresses = { λ old reset values new. IsTouched (compressed old
        (counter_after (first_generation P.Gen.generations) (raise P.Gen.generations)
        reset old) values) new };

    // the number of the entry, under the counter
    ghost rank = { λ s reset. rank s (counter_after (first_generation P.Gen.generations)
        (raise P.Gen.generations) reset s) };

    // there is no reset, there is an entry, and the counter is the greatest generation
    ghost compression_wraps = { λ s reset.
        wraps_after (wraps P.Gen.generations) reset s };

    fn compress_with<F: FnMut(P, T, P) -> T>(
        &mut self,
        reset_generation: bool,
        f: F,
    ) -> InvalidationOption<()> {
        let answer = self.renew_counter(reset_generation);
        self.close_up(f);
        answer
    }

    ghost with_value_same = { with_value-same };

    ghost keys_compressed = { λ old reset values new. compressed_keys old new (counter_after
        (first_generation P.Gen.generations) (raise P.Gen.generations) reset old) values };

    ghost values_compressed = { λ old reset values new. compressed_values old new (counter_after
        (first_generation P.Gen.generations) (raise P.Gen.generations) reset old) values };

    ghost ranked = { λ old reset. ranks (Some (counter_after
        (first_generation P.Gen.generations) (raise P.Gen.generations) reset old))
        old.slots };

    ghost compresses_with_value = { λ old reset values new. compressed_with_value old new
        (counter_after (first_generation P.Gen.generations) (raise P.Gen.generations)
        reset old) values };

    ghost rank_unchanged = { λ _ _ reset same. ap (λ s. rank s (counter_after
        (first_generation P.Gen.generations) (raise P.Gen.generations) reset s)) same.0 };

    ghost compression_wraps_unchanged = { λ _ _ reset same.
        ap (wraps_after (wraps P.Gen.generations) reset) same.0 };

    ghost limit_compressed = { λ _ _ _ _ same. ap (λ s. s.limit) same.0 };

    ghost capacity_compressed = { λ _ _ _ _ same. ap capacity same.0 };
}

impl<P: Ptr, T, S: NonZeroInxGenericStack<ArenaSlot<P, T>>> Arena<P, T, S> {
    // Raises the counter if there is an entry, or resets it, and tells of a wrap.
    fn renew_counter(&mut self, reset_generation: bool) -> InvalidationOption<()>
        ensures answer { result ≡ told (wraps_after (wraps P.Gen.generations)
            reset_generation self.old) tt }
        ensures state { self.new ≡ record self.old {
          counter = counter_after (first_generation P.Gen.generations)
              (raise P.Gen.generations) reset_generation self.old;
        } }
    {
        if reset_generation {
            self.set_generation(P::Gen::two());
            return InvalidationOption::Success(());
        }
        if self.len == 0 {
            return InvalidationOption::Success(());
        }
        self.inc_generation()
    }

    // Moves the entries to the first slots, in their order, under the counter, with the values that
    // the closure gives back for them, and leaves no other slot.
    fn close_up<F: FnMut(P, T, P) -> T>(&mut self, f: F)
        requires callable { F.IsAlwaysCallable f }
        ensures { (values : List T)
            × Moves P.numbers F.step (rank self.old self.old.counter) f (entries self.old.slots) values
            × IsTouched (compressed self.old self.old.counter values) self.new }
    {
        self.slots.close_up(self.counter, f);
    }
}
