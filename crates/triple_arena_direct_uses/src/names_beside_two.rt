//! Names of cells and nets, in maps: each leads to what it led to, once both arenas are compacted.

ghost use Rattle.std.specs.Prelude.{◌++◌, IsSome, OnOk, OnErr};
ghost use Rattle.std.specs.Result.{IfErr};
ghost use Rattle.triple_arena_direct.specs.ArenaState.{arena_len};
ghost use Rattle.triple_arena_direct.specs.Concrete.{p0_numbers, q2_numbers, moved};
ghost use Rattle.triple_arena_direct.specs.Entries.{look_up};
ghost use Rattle.triple_arena_direct.specs.Held.{held_all};
ghost use Rattle.triple_arena_direct.specs.Pointers.{Pointer};
ghost use Rattle.triple_arena_direct.specs.Renaming.{first_unresolved};
ghost use Rattle.triple_arena_direct.specs.RenamingBoth.{StandApart, IsRenamedBoth, IsFoundRenamedBoth, RefusesBoth};
ghost use Rattle.triple_arena_direct.specs.Walks.{values};
ghost use Rattle.triple_arena_direct_uses.specs.NamesBesideTwo.{cells_in_cell, nets_in_cell, cells_in_net, nets_in_net, NamesFollow, StayNamed};
ghost use Rattle.triple_arena_direct_uses.specs.Unchanged.{AreUnchanged};

use std::alloc::Global;
use std::collections::BTreeMap;
use triple_arena_direct::renaming_laws::{names_follow, names_follow_both};
use triple_arena_direct::{
    Arena, CompactBothError, P0, Q2, Recast, Recaster, compress_recast_both_with, recast_values,
};

/// What a cell does.
#[derive(Clone, Copy, PartialEq, Eq, Debug)]
pub enum Kind {
    And,
    Or,
    Flop,
}

/// A cell: its kind, and the nets that it reads.
#[derive(Drop)]
pub struct Cell {
    pub kind: Kind,
    pub reads: Vec<Q2>,
}

/// A net: its label, and the cell that drives it, if one does.
#[derive(Drop)]
pub struct Net {
    pub label: u64,
    pub driver: Option<P0>,
}

/// Cells and nets, which point at each other, and names that lead to them.
pub struct NamedNetlist {
    pub cells: Arena<P0, Cell>,
    pub nets: Arena<Q2, Net>,
    pub cell_names: BTreeMap<String, P0>,
    pub net_names: BTreeMap<String, Q2>,
}

/// Holds the nets that it reads.
impl Recast<Q2> for Cell {
    ghost held = { nets_in_cell.held };

    ghost refill = { nets_in_cell.refill };

    fn recast<R: Recaster<Item = Q2>>(&mut self, recaster: &R) -> Result<(), Q2> {
        self.reads.recast(recaster)
    }

    ghost held_refill = { nets_in_cell.held_refill };

    ghost refill_held = { nets_in_cell.refill_held };

    ghost refill_refill = { nets_in_cell.refill_refill };
}

/// Holds no cell.
impl Recast<P0> for Cell {
    ghost held = { cells_in_cell.held };

    ghost refill = { cells_in_cell.refill };

    fn recast<R: Recaster<Item = P0>>(&mut self, _recaster: &R) -> Result<(), P0> {
        Ok(())
    }

    ghost held_refill = { cells_in_cell.held_refill };

    ghost refill_held = { cells_in_cell.refill_held };

    ghost refill_refill = { cells_in_cell.refill_refill };
}

/// Holds the cell that drives it.
impl Recast<P0> for Net {
    ghost held = { cells_in_net.held };

    ghost refill = { cells_in_net.refill };

    fn recast<R: Recaster<Item = P0>>(&mut self, recaster: &R) -> Result<(), P0> {
        self.driver.recast(recaster)
    }

    ghost held_refill = { cells_in_net.held_refill };

    ghost refill_held = { cells_in_net.refill_held };

    ghost refill_refill = { cells_in_net.refill_refill };
}

/// Holds no net.
impl Recast<Q2> for Net {
    ghost held = { nets_in_net.held };

    ghost refill = { nets_in_net.refill };

    fn recast<R: Recaster<Item = Q2>>(&mut self, _recaster: &R) -> Result<(), Q2> {
        Ok(())
    }

    ghost held_refill = { nets_in_net.held_refill };

    ghost refill_held = { nets_in_net.refill_held };

    ghost refill_refill = { nets_in_net.refill_refill };
}

/// Moves the cells and the nets to the indexes from 1 on, and renames each pointer that they or the
/// pins hold, and each name: it leads to the cell or the net to which it led. A name whose entry was
/// gone stays as it is, and may find another one then.
///
/// Where memory is refused, and else exactly where a pointer of a cell, a net or the pins finds nothing,
/// nothing changes.
pub fn compact_named<H: Recast<P0> + Recast<Q2>>(
    netlist: &mut NamedNetlist,
    pins: &mut H,
    alloc: Global,
) -> Result<(), CompactBothError<P0, Q2>>
    requires pins_apart { StandApart ⟦<H as Recast<P0>>⟧.held ⟦<H as Recast<P0>>⟧.refill
        ⟦<H as Recast<Q2>>⟧.held ⟦<H as Recast<Q2>>⟧.refill }
    // Done: under the new pointer stands what stood under the old one, renamed, as in the pins, and each
    // name of an entry leads to that entry.
    ensures cells { OnOk result ((c : Pointer) → IsSome (look_up netlist.old.cells.slots c)
        → IsFoundRenamedBoth
        p0_numbers (moved netlist.old.cells) cells_in_cell.held cells_in_cell.refill
        q2_numbers (moved netlist.old.nets) nets_in_cell.held nets_in_cell.refill
        (look_up netlist.old.cells.slots c)
        (look_up netlist.new.cells.slots (moved netlist.old.cells c))) }
    ensures nets { OnOk result ((n : Pointer) → IsSome (look_up netlist.old.nets.slots n)
        → IsFoundRenamedBoth
        q2_numbers (moved netlist.old.nets) nets_in_net.held nets_in_net.refill
        p0_numbers (moved netlist.old.cells) cells_in_net.held cells_in_net.refill
        (look_up netlist.old.nets.slots n)
        (look_up netlist.new.nets.slots (moved netlist.old.nets n))) }
    ensures pins { OnOk result (IsRenamedBoth
        p0_numbers (moved netlist.old.cells) ⟦<H as Recast<P0>>⟧.held ⟦<H as Recast<P0>>⟧.refill
        q2_numbers (moved netlist.old.nets) ⟦<H as Recast<Q2>>⟧.held ⟦<H as Recast<Q2>>⟧.refill
        pins.old pins.new) }
    ensures cell_names { OnOk result (NamesFollow p0_numbers (moved netlist.old.cells)
        netlist.old.cells.slots netlist.old.cell_names netlist.new.cell_names) }
    ensures net_names { OnOk result (NamesFollow q2_numbers (moved netlist.old.nets)
        netlist.old.nets.slots netlist.old.net_names netlist.new.net_names) }
    ensures named { OnOk result (StayNamed netlist.old netlist.new) }

    // Refused: nothing has changed, and the error tells why.
    ensures refused { OnErr result
        (AreUnchanged netlist.old netlist.new pins.old pins.new) }
    ensures refusal { IfErr result (RefusesBoth
        (arena_len netlist.old.cells) (first_unresolved p0_numbers netlist.old.cells.slots
        ((held_all cells_in_cell.held (values netlist.old.cells.slots)
        ++ held_all cells_in_net.held (values netlist.old.nets.slots))
        ++ ⟦<H as Recast<P0>>⟧.held pins.old))
        (arena_len netlist.old.nets) (first_unresolved q2_numbers netlist.old.nets.slots
        ((held_all nets_in_net.held (values netlist.old.nets.slots)
        ++ held_all nets_in_cell.held (values netlist.old.cells.slots))
        ++ ⟦<H as Recast<Q2>>⟧.held pins.old))) }
{
    let (cells, nets) = compress_recast_both_with(
        &mut netlist.cells,
        &mut netlist.nets,
        pins,
        alloc,
        false,
    )?;
    // The maps are right also where a counter wraps.
    let (cells, nets) = (cells.allow(), nets.allow());
    // Each name leads to what it led to.
    names_follow::<P0, Cell, Kind>();
    names_follow::<Q2, Net, u64>();
    names_follow_both::<P0, Q2, Cell, Kind>();
    names_follow_both::<Q2, P0, Net, u64>();
    recast_values(&mut netlist.cell_names, &cells);
    recast_values(&mut netlist.net_names, &nets);
    Ok(())
}
