//! Labels of cells and nets, beside two arenas that point at each other: all three follow one compaction,
//! or nothing changes.

ghost use Rattle.std.specs.Prelude.{◌++◌, IsSome, IfOk, OnOk, OnErr};
ghost use Rattle.std.specs.Result.{IfErr};
ghost use Rattle.triple_arena_base.specs.Held.{held_all};
ghost use Rattle.triple_arena_ptr.specs.Pointers.{Pointer};
ghost use Rattle.triple_arena.specs.ArenaState.{arena_len};
ghost use Rattle.triple_arena.specs.Entries.{look_up};
ghost use Rattle.triple_arena.specs.Walks.{values};
ghost use Rattle.triple_arena_direct.specs.Compacted.{TellsMap};
ghost use Rattle.triple_arena_direct.specs.Concrete.{p0_numbers, q2_numbers, moved, moving_wraps};
ghost use Rattle.triple_arena_direct.specs.Renaming.{first_unresolved};
ghost use Rattle.triple_arena_direct.specs.RenamingBoth.{IsRenamedBoth, IsFoundRenamedBoth, RefusesBoth};
ghost use Rattle.triple_arena_direct_uses.specs.Circuit.{cells_in_cell, nets_in_cell, cells_in_net, nets_in_net};
ghost use Rattle.triple_arena_direct_uses.specs.Labels.{cells_labelled, nets_labelled, AreReadRenamed};
ghost use Rattle.triple_arena_direct_uses.specs.Unchanged.{AllUnchanged};

use crate::circuit::{Cell, Net};
use std::alloc::Global;
use triple_arena::Arena;
use triple_arena_base::{InvalidationOption, Recast, Recaster};
use triple_arena_direct::{CompactBothError, DirectArena, compress_recast_both_with};
use triple_arena_ptr::{P0, Q2};

/// Labels of cells, and labels of nets.
#[derive(Drop)]
pub struct Labels {
    pub cells: Vec<(u64, P0)>,
    pub nets: Vec<(u64, Q2)>,
}

/// Holds the cells that have labels, in their order.
impl Recast<P0> for Labels {
    ghost held = { cells_labelled.held };

    ghost refill = { cells_labelled.refill };

    fn recast<R: Recaster<Item = P0>>(&mut self, recaster: &R) -> Result<(), P0> {
        self.cells.recast(recaster)
    }

    ghost held_refill = { cells_labelled.held_refill };

    ghost refill_held = { cells_labelled.refill_held };

    ghost refill_refill = { cells_labelled.refill_refill };
}

/// Holds the nets that have labels, in their order.
impl Recast<Q2> for Labels {
    ghost held = { nets_labelled.held };

    ghost refill = { nets_labelled.refill };

    fn recast<R: Recaster<Item = Q2>>(&mut self, recaster: &R) -> Result<(), Q2> {
        self.nets.recast(recaster)
    }

    ghost held_refill = { nets_labelled.held_refill };

    ghost refill_held = { nets_labelled.refill_held };

    ghost refill_refill = { nets_labelled.refill_refill };
}

/// Moves the cells and the nets to the indexes from 1 on, and renames each pointer that they or the
/// labels hold, so that each label leads to what it led to. The maps tell the new pointers.
///
/// Where memory is refused, and else exactly where a pointer finds nothing, nothing changes, in either
/// arena or in the labels.
pub fn compact_labelled(
    cells: &mut Arena<P0, Cell>,
    nets: &mut Arena<Q2, Net>,
    labels: &mut Labels,
    alloc: Global,
) -> Result<
    (
        InvalidationOption<DirectArena<P0, P0>>,
        InvalidationOption<DirectArena<Q2, Q2>>,
    ),
    CompactBothError<P0, Q2>,
>
    // Done: the maps lead from the old pointers to the new ones, and under the new one stands what
    // stood under the old one, renamed, as in the labels: each leads to what it led to.
    ensures cell_map { IfOk result (λ maps. TellsMap p0_numbers (moved cells.old)
        cells.old.slots (moving_wraps cells.old) maps.0) }
    ensures net_map { IfOk result (λ maps. TellsMap q2_numbers (moved nets.old)
        nets.old.slots (moving_wraps nets.old) maps.1) }
    ensures cells { OnOk result ((c : Pointer) → IsSome (look_up cells.old.slots c)
        → IsFoundRenamedBoth p0_numbers (moved cells.old) cells_in_cell.held cells_in_cell.refill
        q2_numbers (moved nets.old) nets_in_cell.held nets_in_cell.refill
        (look_up cells.old.slots c) (look_up cells.new.slots (moved cells.old c))) }
    ensures nets { OnOk result ((n : Pointer) → IsSome (look_up nets.old.slots n)
        → IsFoundRenamedBoth q2_numbers (moved nets.old) nets_in_net.held nets_in_net.refill
        p0_numbers (moved cells.old) cells_in_net.held cells_in_net.refill
        (look_up nets.old.slots n) (look_up nets.new.slots (moved nets.old n))) }
    ensures labels { OnOk result (IsRenamedBoth
        p0_numbers (moved cells.old) cells_labelled.held cells_labelled.refill
        q2_numbers (moved nets.old) nets_labelled.held nets_labelled.refill labels.old labels.new) }
    ensures read { OnOk result (AreReadRenamed (moved cells.old) (moved nets.old)
        labels.old labels.new) }

    // Refused: nothing has changed, and the error tells why.
    ensures refused { OnErr result
        (AllUnchanged cells.old cells.new nets.old nets.new labels.old labels.new) }
    ensures refusal { IfErr result (RefusesBoth
        (arena_len cells.old) (first_unresolved p0_numbers cells.old.slots
        ((held_all cells_in_cell.held (values cells.old.slots)
        ++ held_all cells_in_net.held (values nets.old.slots))
        ++ cells_labelled.held labels.old))
        (arena_len nets.old) (first_unresolved q2_numbers nets.old.slots
        ((held_all nets_in_net.held (values nets.old.slots)
        ++ held_all nets_in_cell.held (values cells.old.slots))
        ++ nets_labelled.held labels.old))) }
{
    compress_recast_both_with(cells, nets, labels, alloc, false)
}
