//! A holder of pointers to two arenas that point at each other, of any types.

ghost use Rattle.std.specs.Prelude.{◌≡◌, OnOk, OnErr};
ghost use Rattle.triple_arena_direct.specs.Concrete.{p0_numbers, q2_numbers, moved};
ghost use Rattle.triple_arena_direct.specs.RenamingBoth.{StandApart, IsRenamedBoth};

use std::alloc::Global;
use triple_arena_direct::{
    Arena, CompactBothError, DirectArena, InvalidationOption, P0, Q2, Recast,
    compress_recast_both_with,
};

/// The maps of two arenas.
pub type Maps = (
    InvalidationOption<DirectArena<P0, P0>>,
    InvalidationOption<DirectArena<Q2, Q2>>,
);

/// Moves the entries of both arenas to the indexes from 1 on, and renames each pointer that they or the
/// names hold. Where one finds nothing, or memory is refused, neither changes, nor do the names.
pub fn compact_with_names<
    T: Recast<P0> + Recast<Q2>,
    U: Recast<P0> + Recast<Q2>,
    H: Recast<P0> + Recast<Q2>,
>(
    cells: &mut Arena<P0, T>,
    nets: &mut Arena<Q2, U>,
    names: &mut H,
    alloc: Global,
) -> Result<Maps, CompactBothError<P0, Q2>>
    requires cells_apart { StandApart ⟦<T as Recast<P0>>⟧.held ⟦<T as Recast<P0>>⟧.refill
        ⟦<T as Recast<Q2>>⟧.held ⟦<T as Recast<Q2>>⟧.refill }
    requires nets_apart { StandApart ⟦<U as Recast<Q2>>⟧.held ⟦<U as Recast<Q2>>⟧.refill
        ⟦<U as Recast<P0>>⟧.held ⟦<U as Recast<P0>>⟧.refill }
    requires names_apart { StandApart ⟦<H as Recast<P0>>⟧.held ⟦<H as Recast<P0>>⟧.refill
        ⟦<H as Recast<Q2>>⟧.held ⟦<H as Recast<Q2>>⟧.refill }
    ensures names { OnOk result (IsRenamedBoth
        p0_numbers (moved cells.old) ⟦<H as Recast<P0>>⟧.held ⟦<H as Recast<P0>>⟧.refill
        q2_numbers (moved nets.old) ⟦<H as Recast<Q2>>⟧.held ⟦<H as Recast<Q2>>⟧.refill
        names.old names.new) }
    ensures cells_refused { OnErr result (cells.new ≡ cells.old) }
    ensures nets_refused { OnErr result (nets.new ≡ nets.old) }
    ensures names_refused { OnErr result (names.new ≡ names.old) }
{
    compress_recast_both_with(cells, nets, names, alloc, false)
}
