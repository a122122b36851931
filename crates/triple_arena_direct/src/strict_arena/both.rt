//! Compaction of two strict arenas that point at each other.

ghost use Rattle.std.specs.Prelude.{◌≡◌, ◌⊎◌, ◌↔◌, ◌++◌, true, false, Err, OnOk, OnErr, IfOk};
ghost use Rattle.std.specs.Result.{IfErr};
ghost use Rattle.triple_arena_base.specs.Held.{held_all};
ghost use Rattle.triple_arena_traits.specs.ArenaState.{arena_len};
ghost use Rattle.triple_arena_traits.specs.Walks.{values};
ghost use Rattle.triple_arena_recasting.specs.Compacted.{ResolveBoth};
ghost use Rattle.triple_arena_recasting.specs.Renaming.{MapsPointers, first_unresolved};
ghost use Rattle.triple_arena_recasting.specs.RenamingBoth.{StandApart};
ghost use Rattle.triple_arena_direct.specs.StrictAnswers.{is_exhausted_for_any, strict_rank, RefusesBothStrictly};
ghost use Rattle.triple_arena_direct.specs.StrictCompacted.{IsStrictlyBoth, IsStrictCompaction, KeepsStrictSize};

use super::StrictArena;
use crate::errors::StrictCompactBothError;
use std::alloc::Global;
use triple_arena::ArenaSlot;
use triple_arena_base::Recast;
use triple_arena_direct_arena::DirectArena;
use triple_arena_ptr::{Ptr, PtrGen};
use triple_arena_recasting::compress_recast_both;
use triple_arena_stack::NonZeroInxGenericStack;

impl<P: Ptr, T, S: NonZeroInxGenericStack<ArenaSlot<P, T>>> StrictArena<P, T, S> {
    /// Compresses this arena and a second one, renames each pointer to either that a value of the one
    /// or the other holds, and gives both maps from old pointers to new ones, as
    /// [`crate::compress_recast_both`] of `Arena`s without a reset.
    ///
    /// `Exhausted` exactly where in either arena there is an entry and its counter is at its greatest
    /// value; else `Compact` with its refusal: `First` is of this arena. Refused, nothing has changed,
    /// in either arena.
    ///
    /// The two kinds of pointers have to stand apart in a value (`StandApart`): where they are in fields
    /// of their own, a caller proves it with no file.
    pub fn compress_recast_both<Q: Ptr, U, Z: NonZeroInxGenericStack<ArenaSlot<Q, U>>>(
        &mut self,
        second: &mut StrictArena<Q, U, Z>,
        alloc: Global,
    ) -> Result<(DirectArena<P, P>, DirectArena<Q, Q>), StrictCompactBothError<P, Q>>
    where
        T: Recast<P> + Recast<Q>,
        U: Recast<P> + Recast<Q>,
        requires first_apart { StandApart ⟦<T as Recast<P>>⟧.held ⟦<T as Recast<P>>⟧.refill
            ⟦<T as Recast<Q>>⟧.held ⟦<T as Recast<Q>>⟧.refill }
        requires second_apart { StandApart ⟦<U as Recast<Q>>⟧.held ⟦<U as Recast<Q>>⟧.refill
            ⟦<U as Recast<P>>⟧.held ⟦<U as Recast<P>>⟧.refill }

        // Done: each map leads from the old pointers of its arena to the new ones. Each arena is
        // compacted, and each pointer of both kinds that its values hold is renamed. Each of these found
        // an entry. Of each it is one strict call.
        ensures maps { IfOk result (λ images.
            MapsPointers P.numbers (strict_rank P.Gen.generations self.old)
            self.old.slots images.0.slots
            × MapsPointers Q.numbers (strict_rank Q.Gen.generations second.old)
            second.old.slots images.1.slots) }
        ensures first { OnOk result (IsStrictlyBoth P.Gen.generations false self.old
            P.numbers ⟦<T as Recast<P>>⟧.held ⟦<T as Recast<P>>⟧.refill
            Q.numbers (strict_rank Q.Gen.generations second.old)
            ⟦<T as Recast<Q>>⟧.held ⟦<T as Recast<Q>>⟧.refill self.new) }
        ensures second { OnOk result (IsStrictlyBoth Q.Gen.generations false second.old
            Q.numbers ⟦<U as Recast<Q>>⟧.held ⟦<U as Recast<Q>>⟧.refill
            P.numbers (strict_rank P.Gen.generations self.old)
            ⟦<U as Recast<P>>⟧.held ⟦<U as Recast<P>>⟧.refill second.new) }
        ensures resolved { OnOk result (ResolveBoth
            (first_unresolved P.numbers self.old.slots
            (held_all ⟦<T as Recast<P>>⟧.held (values self.old.slots)
            ++ held_all ⟦<U as Recast<P>>⟧.held (values second.old.slots)))
            (first_unresolved Q.numbers second.old.slots
            (held_all ⟦<U as Recast<Q>>⟧.held (values second.old.slots)
            ++ held_all ⟦<T as Recast<Q>>⟧.held (values self.old.slots)))) }
        ensures fresh { OnOk result (
            IsStrictCompaction S.kind P.Gen.generations self.old self.new
            × IsStrictCompaction Z.kind Q.Gen.generations second.old second.new) }

        // Refused: nothing has changed, and the error tells why.
        ensures refused { OnErr result ((self.new ≡ self.old) × (second.new ≡ second.old)) }
        ensures exhausted { (result ≡ Err StrictCompactBothError.Exhausted)
            ↔ ((is_exhausted_for_any P.Gen.generations self.old ≡ true)
            ⊎ (is_exhausted_for_any Q.Gen.generations second.old ≡ true)) }
        ensures refusal { IfErr result (RefusesBothStrictly
            (arena_len self.old) (first_unresolved P.numbers self.old.slots
            (held_all ⟦<T as Recast<P>>⟧.held (values self.old.slots)
            ++ held_all ⟦<U as Recast<P>>⟧.held (values second.old.slots)))
            (arena_len second.old) (first_unresolved Q.numbers second.old.slots
            (held_all ⟦<U as Recast<Q>>⟧.held (values second.old.slots)
            ++ held_all ⟦<T as Recast<Q>>⟧.held (values self.old.slots)))) }

        // In each case entries are as many as before, and limit and capacity stay.
        ensures sizes { KeepsStrictSize self.old self.new × KeepsStrictSize second.old second.new }
    {
        if self.is_exhausted_for_any() {
            return Err(StrictCompactBothError::Exhausted);
        }
        if second.is_exhausted_for_any() {
            return Err(StrictCompactBothError::Exhausted);
        }
        let (firsts, seconds) = compress_recast_both(
            &mut self.arena,
            &mut second.arena,
            alloc,
            false,
        )?;
        Ok((firsts.allow(), seconds.allow()))
    }
}
