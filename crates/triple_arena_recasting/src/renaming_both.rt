//! Compaction of two arenas that point at each other.

ghost use Rattle.std.specs.Prelude.{◌≡◌, ◌++◌, None, OnOk, OnErr, IfOk};
ghost use Rattle.std.specs.Result.{IfErr};
ghost use Rattle.std.proofs.Common.{refl};
ghost use Rattle.triple_arena_base.specs.Held.{held_all, held_nothing, refill_nothing, recast_items};
ghost use Rattle.triple_arena_base.specs.laws.HeldLaws.{nothing_held_refill};
ghost use Rattle.triple_arena_traits.specs.Entries.{look_up, entry_count};
ghost use Rattle.triple_arena_stack.specs.StackKind.{new_limit};
ghost use Rattle.triple_arena_traits.specs.FreeList.{last_index};
ghost use Rattle.triple_arena_traits.specs.Walks.{keys, values};
ghost use Rattle.triple_arena_recasting.specs.Compacted.{TellsMap, KeepsSize, IsCompactedBoth, ResolveBoth};
ghost use Rattle.triple_arena_recasting.specs.Renaming.{first_unresolved, Refuses, IsUnresolved, MapHasMemory};
ghost use Rattle.triple_arena_recasting.specs.RenamingBoth.{StandApart, IsRenamedBoth, RefusesBoth};

use crate::errors::CompactBothError;
use crate::renaming::{compress_renaming, resolved_map};
use std::alloc::Global;
use triple_arena_base::{CompactError, InvalidationOption, Recast, Recaster};
use triple_arena_direct_arena::{DirectArena, DirectSlot};
use triple_arena_ptr::{Ptr, PtrGen};
use triple_arena_stack::NonZeroInxGenericStack;
use triple_arena_traits::{ArenaTrait, CompactArenaTrait, recast_entries};

/// Compresses two arenas, renames each pointer to either that a value of the one or the other holds,
/// and gives both maps from old pointers to new ones. Of each arena it is as
/// [`compress_recast`](crate::compress_recast).
///
/// All is found before either arena changes. First the memory for the map of the first, and each
/// pointer to the first, in its own values and then in the second's; then so of the second, its own
/// values first. `First` or `Second` tells to which arena the refusal belongs: `Reallocation` only
/// where that one has an entry, and else `Unresolved` with the first pointer to it that finds no
/// entry. `Second` comes only where each pointer to the first finds one. Refused, nothing has changed,
/// in either arena.
///
/// A type of values says of both kinds of pointers which it holds; of a kind that it holds none of,
/// by `held_nothing`. So no relation is forgotten, but for a pointer that a `held` leaves out.
/// The two kinds have to stand apart in a value (`StandApart`), so that to replace those of one kind
/// leaves those of the other: where they are in fields of their own, a caller proves it with no file.
/// Two arenas of one pointer type have no such call: their kinds don't stand apart.
pub fn compress_recast_both<
    P: Ptr,
    Q: Ptr,
    T: Recast<P> + Recast<Q>,
    U: Recast<P> + Recast<Q>,
    A: CompactArenaTrait<P, T>,
    B: CompactArenaTrait<Q, U>,
>(
    first: &mut A,
    second: &mut B,
    alloc: Global,
    reset_generation: bool,
) -> Result<
    (
        InvalidationOption<DirectArena<P, P>>,
        InvalidationOption<DirectArena<Q, Q>>,
    ),
    CompactBothError<P, Q>,
>
    requires first_apart { StandApart ⟦<T as Recast<P>>⟧.held ⟦<T as Recast<P>>⟧.refill
        ⟦<T as Recast<Q>>⟧.held ⟦<T as Recast<Q>>⟧.refill }
    requires second_apart { StandApart ⟦<U as Recast<Q>>⟧.held ⟦<U as Recast<Q>>⟧.refill
        ⟦<U as Recast<P>>⟧.held ⟦<U as Recast<P>>⟧.refill }

    // Done: each map leads from the old pointers of its arena to the new ones. Each arena is compacted,
    // and each pointer of both kinds that its values hold is renamed. Each of these found an entry.
    ensures maps { IfOk result (λ answers.
        TellsMap P.numbers (A.rank first.old reset_generation) (A.slots first.old)
        (A.compression_wraps first.old reset_generation) answers.0
        × TellsMap Q.numbers (B.rank second.old reset_generation) (B.slots second.old)
        (B.compression_wraps second.old reset_generation) answers.1) }
    ensures first { OnOk result (IsCompactedBoth A.slots A.fits
        (A.compresses first.old reset_generation) (A.rank first.old reset_generation)
        P.Gen.generations (A.compression_wraps first.old reset_generation) reset_generation
        P.numbers ⟦<T as Recast<P>>⟧.held ⟦<T as Recast<P>>⟧.refill
        Q.numbers (B.rank second.old reset_generation)
        ⟦<T as Recast<Q>>⟧.held ⟦<T as Recast<Q>>⟧.refill first.old first.new) }
    ensures second { OnOk result (IsCompactedBoth B.slots B.fits
        (B.compresses second.old reset_generation) (B.rank second.old reset_generation)
        Q.Gen.generations (B.compression_wraps second.old reset_generation) reset_generation
        Q.numbers ⟦<U as Recast<Q>>⟧.held ⟦<U as Recast<Q>>⟧.refill
        P.numbers (A.rank first.old reset_generation)
        ⟦<U as Recast<P>>⟧.held ⟦<U as Recast<P>>⟧.refill second.old second.new) }
    ensures resolved { OnOk result (ResolveBoth
        (first_unresolved P.numbers (A.slots first.old)
        (held_all ⟦<T as Recast<P>>⟧.held (values (A.slots first.old))
        ++ held_all ⟦<U as Recast<P>>⟧.held (values (B.slots second.old))))
        (first_unresolved Q.numbers (B.slots second.old)
        (held_all ⟦<U as Recast<Q>>⟧.held (values (B.slots second.old))
        ++ held_all ⟦<T as Recast<Q>>⟧.held (values (A.slots first.old))))) }

    // Refused: nothing has changed, and the error tells why.
    ensures refused { OnErr result ((first.new ≡ first.old) × (second.new ≡ second.old)) }
    ensures refusal { IfErr result (RefusesBoth
        (entry_count (A.slots first.old)) (first_unresolved P.numbers (A.slots first.old)
        (held_all ⟦<T as Recast<P>>⟧.held (values (A.slots first.old))
        ++ held_all ⟦<U as Recast<P>>⟧.held (values (B.slots second.old))))
        (entry_count (B.slots second.old)) (first_unresolved Q.numbers (B.slots second.old)
        (held_all ⟦<U as Recast<Q>>⟧.held (values (B.slots second.old))
        ++ held_all ⟦<T as Recast<Q>>⟧.held (values (A.slots first.old))))) }

    // In each case entries are as many as before, and limit and capacity stay.
    ensures sizes { KeepsSize A.slots A.limit A.capacity first.old first.new
        × KeepsSize B.slots B.limit B.capacity second.old second.new }
{
    compress_recast_both_with(first, second, &mut NoHolder, alloc, reset_generation)
}

/// As [`compress_recast_both`], and renames each pointer to either arena that `holder` holds, too:
/// names, say, that lead to entries of both.
///
/// The holder is asked before anything changes, of each arena behind the values of both: first all
/// that belongs to the first arena, and then so of the second. What is refused is as of
/// [`compress_recast_both`], with the holder's pointers last. Refused, nothing has changed, in either
/// arena or in the holder.
///
/// The holder says of both kinds of pointers which it holds, and they have to stand apart in it, too.
/// A pointer that its `held` leaves out keeps its old name, and no clause can find that.
pub fn compress_recast_both_with<
    P: Ptr,
    Q: Ptr,
    T: Recast<P> + Recast<Q>,
    U: Recast<P> + Recast<Q>,
    A: CompactArenaTrait<P, T>,
    B: CompactArenaTrait<Q, U>,
    H: Recast<P> + Recast<Q>,
>(
    first: &mut A,
    second: &mut B,
    holder: &mut H,
    alloc: Global,
    reset_generation: bool,
) -> Result<
    (
        InvalidationOption<DirectArena<P, P>>,
        InvalidationOption<DirectArena<Q, Q>>,
    ),
    CompactBothError<P, Q>,
>
    requires first_apart { StandApart ⟦<T as Recast<P>>⟧.held ⟦<T as Recast<P>>⟧.refill
        ⟦<T as Recast<Q>>⟧.held ⟦<T as Recast<Q>>⟧.refill }
    requires second_apart { StandApart ⟦<U as Recast<Q>>⟧.held ⟦<U as Recast<Q>>⟧.refill
        ⟦<U as Recast<P>>⟧.held ⟦<U as Recast<P>>⟧.refill }
    requires holder_apart { StandApart ⟦<H as Recast<P>>⟧.held ⟦<H as Recast<P>>⟧.refill
        ⟦<H as Recast<Q>>⟧.held ⟦<H as Recast<Q>>⟧.refill }

    // Done: each map leads from the old pointers of its arena to the new ones. Each arena is compacted,
    // and each pointer of both kinds that its values or the holder hold is renamed. Each of these found
    // an entry.
    ensures maps { IfOk result (λ answers.
        TellsMap P.numbers (A.rank first.old reset_generation) (A.slots first.old)
        (A.compression_wraps first.old reset_generation) answers.0
        × TellsMap Q.numbers (B.rank second.old reset_generation) (B.slots second.old)
        (B.compression_wraps second.old reset_generation) answers.1) }
    ensures first { OnOk result (IsCompactedBoth A.slots A.fits
        (A.compresses first.old reset_generation) (A.rank first.old reset_generation)
        P.Gen.generations (A.compression_wraps first.old reset_generation) reset_generation
        P.numbers ⟦<T as Recast<P>>⟧.held ⟦<T as Recast<P>>⟧.refill
        Q.numbers (B.rank second.old reset_generation)
        ⟦<T as Recast<Q>>⟧.held ⟦<T as Recast<Q>>⟧.refill first.old first.new) }
    ensures second { OnOk result (IsCompactedBoth B.slots B.fits
        (B.compresses second.old reset_generation) (B.rank second.old reset_generation)
        Q.Gen.generations (B.compression_wraps second.old reset_generation) reset_generation
        Q.numbers ⟦<U as Recast<Q>>⟧.held ⟦<U as Recast<Q>>⟧.refill
        P.numbers (A.rank first.old reset_generation)
        ⟦<U as Recast<P>>⟧.held ⟦<U as Recast<P>>⟧.refill second.old second.new) }
    ensures renamed { OnOk result (IsRenamedBoth
        P.numbers (A.rank first.old reset_generation) ⟦<H as Recast<P>>⟧.held ⟦<H as Recast<P>>⟧.refill
        Q.numbers (B.rank second.old reset_generation)
        ⟦<H as Recast<Q>>⟧.held ⟦<H as Recast<Q>>⟧.refill holder.old holder.new) }
    ensures resolved { OnOk result (ResolveBoth
        (first_unresolved P.numbers (A.slots first.old)
        ((held_all ⟦<T as Recast<P>>⟧.held (values (A.slots first.old))
        ++ held_all ⟦<U as Recast<P>>⟧.held (values (B.slots second.old)))
        ++ ⟦<H as Recast<P>>⟧.held holder.old))
        (first_unresolved Q.numbers (B.slots second.old)
        ((held_all ⟦<U as Recast<Q>>⟧.held (values (B.slots second.old))
        ++ held_all ⟦<T as Recast<Q>>⟧.held (values (A.slots first.old)))
        ++ ⟦<H as Recast<Q>>⟧.held holder.old))) }

    // Refused: nothing has changed, and the error tells why.
    ensures refused { OnErr result ((first.new ≡ first.old) × (second.new ≡ second.old)
        × (holder.new ≡ holder.old)) }
    ensures refusal { IfErr result (RefusesBoth
        (entry_count (A.slots first.old)) (first_unresolved P.numbers (A.slots first.old)
        ((held_all ⟦<T as Recast<P>>⟧.held (values (A.slots first.old))
        ++ held_all ⟦<U as Recast<P>>⟧.held (values (B.slots second.old)))
        ++ ⟦<H as Recast<P>>⟧.held holder.old))
        (entry_count (B.slots second.old)) (first_unresolved Q.numbers (B.slots second.old)
        ((held_all ⟦<U as Recast<Q>>⟧.held (values (B.slots second.old))
        ++ held_all ⟦<T as Recast<Q>>⟧.held (values (A.slots first.old)))
        ++ ⟦<H as Recast<Q>>⟧.held holder.old))) }

    // In each case entries are as many as before, and limit and capacity stay.
    ensures sizes { KeepsSize A.slots A.limit A.capacity first.old first.new
        × KeepsSize B.slots B.limit B.capacity second.old second.new }
{
    let mut firsts = match resolved_beside(first, second, holder, alloc) {
        Ok(map) => map,
        Err(refusal) => return Err(CompactBothError::First(refusal)),
    };
    let mut seconds = match resolved_beside(second, first, holder, alloc) {
        Ok(map) => map,
        Err(refusal) => return Err(CompactBothError::Second(refusal)),
    };
    let first_answer = compress_renaming(first, &mut firsts, reset_generation);
    let second_answer = compress_renaming(second, &mut seconds, reset_generation);
    // Each pointer has an image: it had one in the map of the old pointers.
    let _renamed = recast_entries(first, &seconds);
    let _also_renamed = recast_entries(second, &firsts);
    follow(holder, &firsts);
    follow(holder, &seconds);
    Ok((
        first_answer.map(|()| firsts),
        second_answer.map(|()| seconds),
    ))
}

// The map of each pointer of an arena to itself, if each that its values, those of the arena beside it
// or the holder hold finds an entry. Memory is not refused where it is there.
fn resolved_beside<
    P: Ptr,
    Q: Ptr,
    T: Recast<P>,
    U: Recast<P>,
    A: CompactArenaTrait<P, T>,
    B: CompactArenaTrait<Q, U>,
    H: Recast<P>,
    K: NonZeroInxGenericStack<DirectSlot<P, P>> + Drop,
>(
    this: &mut A,
    beside: &mut B,
    holder: &mut H,
    alloc: Global,
) -> Result<DirectArena<P, P, K>, CompactError<P>>
    // Done: the map is of the arena's pointers, and each that is held finds an entry.
    ensures keys { IfOk result (λ all. keys all.slots ≡ keys (A.slots this.old)) }
    ensures resolved { OnOk result (first_unresolved P.numbers (A.slots this.old)
        ((held_all T.held (values (A.slots this.old))
        ++ held_all U.held (values (B.slots beside.old))) ++ H.held holder.old) ≡ None) }

    // Refused: the error tells why, and memory isn't refused where it is there.
    ensures refusal { new_limit K.kind ≡ None
        → IfErr result (Refuses (entry_count (A.slots this.old))
        (first_unresolved P.numbers (A.slots this.old)
        ((held_all T.held (values (A.slots this.old))
        ++ held_all U.held (values (B.slots beside.old))) ++ H.held holder.old))) }
    ensures with_memory { MapHasMemory K.kind K.has_memory (last_index (A.slots this.old))
        → IfErr result IsUnresolved }

    // In each case nothing has changed.
    ensures unchanged { this.new ≡ this.old }
    ensures beside_unchanged { beside.new ≡ beside.old }
    ensures holder_unchanged { holder.new ≡ holder.old }
{
    let all = resolved_map(this, alloc)?;
    match recast_entries(beside, &all) {
        Ok(()) => match holder.recast(&all) {
            Ok(()) => Ok(all),
            Err(p) => Err(CompactError::Unresolved(p)),
        },
        Err(p) => Err(CompactError::Unresolved(p)),
    }
}

// Renames the pointers of a holder by a map that has each of them.
fn follow<P: Ptr, H: Recast<P>>(holder: &mut H, map: &DirectArena<P, P>)
    ensures { holder.new ≡ H.refill holder.old
        (recast_items (λ p. look_up map.now.slots (P.numbers p)) (H.held holder.old)) }
{
    let _renamed = holder.recast(map);
}

// A holder of no pointer.
#[derive(Drop)]
struct NoHolder;

impl<I> Recast<I> for NoHolder {
    ghost held = { held_nothing };

    ghost refill = { refill_nothing };

    fn recast<R: Recaster<Item = I>>(&mut self, _recaster: &R) -> Result<(), I> {
        Ok(())
    }

    ghost held_refill = { nothing_held_refill };

    ghost refill_held = { λ _. refl };

    ghost refill_refill = { λ _ _ _ _ _. refl };
}
