//! Compaction of a strict arena.

ghost use Rattle.std.specs.Prelude.{◌≡◌, ◌↔◌, ◌++◌, List, map, true, false, IfOk, OnOk, OnErr, None, Err};
ghost use Rattle.std.specs.Result.{IfErr};
ghost use Rattle.triple_arena_base.specs.Held.{held_all};
ghost use Rattle.triple_arena_ptr.specs.Numbers.{raise};
ghost use Rattle.triple_arena_traits.specs.ArenaState.{arena_len};
ghost use Rattle.triple_arena_traits.specs.SlotSteps.{IsTouched};
ghost use Rattle.triple_arena_traits.specs.Compression.{compressed, raised_if_any};
ghost use Rattle.triple_arena_traits.specs.Histories.{begun_with, Fits};
ghost use Rattle.triple_arena_traits.specs.Moves.{Moves};
ghost use Rattle.triple_arena_traits.specs.Walks.{entries, keys, values};
ghost use Rattle.triple_arena_recasting.specs.Renaming.{MapsPointers, first_unresolved, IsRenamed};
ghost use Rattle.triple_arena_direct.specs.StrictAnswers.{is_exhausted_for_any, strict_all, strict_rank, RefusesStrictly};
ghost use Rattle.triple_arena_direct.specs.StrictCompacted.{IsStrictlyKeeping, IsStrictlyRenaming, IsStrictCompaction, KeepsStrictSize};

use super::StrictArena;
use crate::errors::{StrictCompactError, StrictError};
use std::alloc::Global;
use triple_arena::{ArenaSlot, ArenaTrait, CompactArenaTrait};
use triple_arena_base::Recast;
use triple_arena_direct_arena::DirectArena;
use triple_arena_ptr::{Ptr, PtrGen};
use triple_arena_recasting::{compress_recast, compress_recast_with};
use triple_arena_stack::NonZeroInxGenericStack;

impl<P: Ptr, T, S: NonZeroInxGenericStack<ArenaSlot<P, T>>> StrictArena<P, T, S> {
    /// Moves the entries to the indexes from 1 on, in their order, under the counter, which is raised
    /// once before if there is an entry; as [`CompactArenaTrait::compress_with`] of an `Arena` without
    /// a reset. Limit and capacity stay.
    ///
    /// Where generations count, it is one model call: it ends every pointer, and gives those that stand
    /// after it (`history` of `fresh`), with which a history can begin, too (`begun`).
    ///
    /// `Exhausted` exactly where there is an entry and the counter is at its greatest value. Then
    /// nothing changes, and `f` is not called.
    pub fn compress_with<F: FnMut(P, T, P) -> T>(&mut self, f: F) -> Result<(), StrictError>
        requires callable { F.IsAlwaysCallable f }

        // Done: the entries stand at their ranks, with the values that `f` gave. It is one strict call.
        ensures moved { OnOk result ((new : List T)
            × Moves P.numbers F.step (strict_rank P.Gen.generations self.old) f
            (entries self.old.slots) new
            × IsTouched (compressed self.old
            (raised_if_any (raise P.Gen.generations) self.old) new) self.new) }
        ensures keys { OnOk result (keys self.new.slots
            ≡ map (strict_rank P.Gen.generations self.old) (keys self.old.slots)) }
        ensures fresh { OnOk result
            (IsStrictCompaction S.kind P.Gen.generations self.old self.new) }

        // Refused: nothing has changed, and the error tells why.
        ensures refused { OnErr result (self.new ≡ self.old) }
        ensures answer { result
            ≡ strict_all (is_exhausted_for_any P.Gen.generations self.old) }

        // In each case entries are as many as before, and limit and capacity stay. Where generations
        // count, a history can begin.
        ensures size { KeepsStrictSize self.old self.new }
        ensures begun { P.Gen.generations.counting ≡ true
            → Fits (begun_with (keys self.new.slots)) self.new }
    {
        if self.is_exhausted_for_any() {
            return Err(StrictError::Exhausted);
        }
        let _answer = self.arena.compress_with(false, f);
        Ok(())
    }

    /// As [`Self::compress_with`], and no value changes.
    pub fn compress(&mut self) -> Result<(), StrictError>
        // Done: the entries stand at their ranks, with their values. It is one strict call.
        ensures compacted { OnOk result
            (IsStrictlyKeeping P.Gen.generations false self.old self.new) }
        ensures fresh { OnOk result
            (IsStrictCompaction S.kind P.Gen.generations self.old self.new) }

        // Refused: nothing has changed, and the error tells why.
        ensures refused { OnErr result (self.new ≡ self.old) }
        ensures answer { result
            ≡ strict_all (is_exhausted_for_any P.Gen.generations self.old) }

        // In each case entries are as many as before, and limit and capacity stay. Where generations
        // count, a history can begin.
        ensures size { KeepsStrictSize self.old self.new }
        ensures begun { P.Gen.generations.counting ≡ true
            → Fits (begun_with (keys self.new.slots)) self.new }
    {
        if self.is_exhausted_for_any() {
            return Err(StrictError::Exhausted);
        }
        let _answer = self.arena.compress(false);
        Ok(())
    }

    /// Compresses the arena, renames each pointer that a value of it holds to the one that its entry
    /// has then, and gives the map from old pointers to new ones, as
    /// [`crate::compress_recast`] of an `Arena` without a reset.
    ///
    /// `Exhausted` exactly where there is an entry and the counter is at its greatest value; else
    /// `Compact` with its refusal: `Reallocation` only where there is an entry and memory for the map
    /// is refused, and then `Unresolved` exactly where a value holds a pointer that finds no entry,
    /// with the first one. Refused, nothing has changed.
    pub fn compress_recast(
        &mut self,
        alloc: Global,
    ) -> Result<DirectArena<P, P>, StrictCompactError<P>>
    where
        T: Recast<P>,
        // Done: the map leads from the old pointers to the new ones. The arena is compacted, and each
        // pointer that its values hold is renamed. Each of these found an entry. It is one strict call.
        ensures maps { IfOk result (λ images. MapsPointers P.numbers
            (strict_rank P.Gen.generations self.old) self.old.slots images.slots) }
        ensures compacted { OnOk result (IsStrictlyRenaming P.Gen.generations false self.old
            P.numbers T.held T.refill self.new) }
        ensures resolved { OnOk result (first_unresolved P.numbers self.old.slots
            (held_all T.held (values self.old.slots)) ≡ None) }
        ensures fresh { OnOk result
            (IsStrictCompaction S.kind P.Gen.generations self.old self.new) }

        // Refused: nothing has changed, and the error tells why.
        ensures refused { OnErr result (self.new ≡ self.old) }
        ensures exhausted { (result ≡ Err StrictCompactError.Exhausted)
            ↔ (is_exhausted_for_any P.Gen.generations self.old ≡ true) }
        ensures refusal { IfErr result (RefusesStrictly (arena_len self.old)
            (first_unresolved P.numbers self.old.slots
            (held_all T.held (values self.old.slots)))) }

        // In each case entries are as many as before, and limit and capacity stay. Where generations
        // count, a history can begin.
        ensures size { KeepsStrictSize self.old self.new }
        ensures begun { P.Gen.generations.counting ≡ true
            → Fits (begun_with (keys self.new.slots)) self.new }
    {
        if self.is_exhausted_for_any() {
            return Err(StrictCompactError::Exhausted);
        }
        let answer = compress_recast(&mut self.arena, alloc, false)?;
        Ok(answer.allow())
    }

    /// As [`Self::compress_recast`], and renames each pointer that `holder` holds, too, as
    /// [`crate::compress_recast_with`] of an `Arena` without a reset.
    ///
    /// `Exhausted` as of [`Self::compress_recast`], and first, whatever the holder holds. Else `Compact`
    /// with its refusal: `Reallocation` as there, and then `Unresolved` exactly where a value or the
    /// holder holds a pointer that finds no entry, with the first one, those of the values first. Refused,
    /// nothing has changed, in the arena or in the holder.
    pub fn compress_recast_with<H: Recast<P>>(
        &mut self,
        holder: &mut H,
        alloc: Global,
    ) -> Result<DirectArena<P, P>, StrictCompactError<P>>
    where
        T: Recast<P>,
        // Done: the map leads from the old pointers to the new ones. The arena is compacted, and each
        // pointer that its values or the holder hold is renamed. Each of these found an entry. It is one
        // strict call.
        ensures maps { IfOk result (λ images. MapsPointers P.numbers
            (strict_rank P.Gen.generations self.old) self.old.slots images.slots) }
        ensures compacted { OnOk result (IsStrictlyRenaming P.Gen.generations false self.old
            P.numbers T.held T.refill self.new) }
        ensures renamed { OnOk result (IsRenamed P.numbers
            (strict_rank P.Gen.generations self.old) H.held H.refill holder.old holder.new) }
        ensures resolved { OnOk result (first_unresolved P.numbers self.old.slots
            (held_all T.held (values self.old.slots) ++ H.held holder.old) ≡ None) }
        ensures fresh { OnOk result
            (IsStrictCompaction S.kind P.Gen.generations self.old self.new) }

        // Refused: nothing has changed, and the error tells why.
        ensures refused { OnErr result ((self.new ≡ self.old) × (holder.new ≡ holder.old)) }
        ensures exhausted { (result ≡ Err StrictCompactError.Exhausted)
            ↔ (is_exhausted_for_any P.Gen.generations self.old ≡ true) }
        ensures refusal { IfErr result (RefusesStrictly (arena_len self.old)
            (first_unresolved P.numbers self.old.slots
            (held_all T.held (values self.old.slots) ++ H.held holder.old))) }

        // In each case entries are as many as before, and limit and capacity stay. Where generations
        // count, a history can begin.
        ensures size { KeepsStrictSize self.old self.new }
        ensures begun { P.Gen.generations.counting ≡ true
            → Fits (begun_with (keys self.new.slots)) self.new }
    {
        if self.is_exhausted_for_any() {
            Err(StrictCompactError::Exhausted)
        } else {
            let answer = compress_recast_with(&mut self.arena, holder, alloc, false)?;
            Ok(answer.allow())
        }
    }
}
