//! Two arenas, of cells and of the nets that drive them, that point at each other.

use crate::links::Link;
use crate::on_heap::{seen_on_heap, with_room};
use crate::state::State;
use crate::told::{Told, told_compaction};
use crate::value::{Row, Value};
use std::alloc::Global;
use triple_arena::Arena;
use triple_arena_direct::{CompactBothError, compress_recast_both};
use triple_arena_ptr::{P0, Ptr, Q2};
use triple_arena_refused_kit::{Wrong, holds};
use triple_arena_test_kit::inx;

/// The arenas.
#[derive(Drop)]
pub struct Circuit {
    cells: Arena<P0, Value>,
    nets: Arena<Q2, Value>,
}

/// What the compaction of both tells.
#[derive(Clone, Copy, PartialEq)]
pub enum Answer {
    Done,
    /// What refuses that of the cells.
    First(Told),
    /// What refuses that of the nets.
    Second(Told),
}

// A cell that reads this net.
fn row_of_cell(net: Link) -> Row {
    Row {
        number: 0,
        link: None,
        net,
    }
}

// A net that this cell drives.
fn row_of_net(cell: Link) -> Row {
    Row {
        number: 0,
        link: cell,
        net: None,
    }
}

// An arena of a value behind a gap.
fn behind_a_gap<P: Ptr>(alloc: Global, row: Row) -> Result<Arena<P, Value>, Wrong> {
    let mut arena: Arena<P, Value> = with_room(alloc, 2)?;
    let is_first = arena.insert(row.value(alloc)).is_ok();
    let is_second = arena.insert(row.value(alloc)).is_ok();
    drop(arena.remove_inx(inx(1)));
    holds(is_first && is_second, Wrong::Answer(0))?;
    Ok(arena)
}

impl Circuit {
    /// A cell that reads this net, and a net that this cell drives, behind a gap each.
    pub fn new(alloc: Global, net: Link, cell: Link) -> Result<Circuit, Wrong> {
        let cells = behind_a_gap(alloc, row_of_cell(net))?;
        let nets = behind_a_gap(alloc, row_of_net(cell))?;
        Ok(Circuit { cells, nets })
    }

    /// All of the cells, and of the nets.
    pub fn seen(&self) -> (State, State) {
        (seen_on_heap(&self.cells), seen_on_heap(&self.nets))
    }

    /// What a compaction without a reset tells.
    pub fn compact(&mut self, alloc: Global) -> Answer {
        match compress_recast_both(&mut self.cells, &mut self.nets, alloc, false) {
            Ok(_maps) => Answer::Done,
            Err(CompactBothError::First(refusal)) => Answer::First(told_compaction(refusal)),
            Err(CompactBothError::Second(refusal)) => Answer::Second(told_compaction(refusal)),
        }
    }
}

/// Whether the cell and the net lead to each other, where both have moved to index 1 under the generation 4.
pub fn is_renamed((cells, nets): &(State, State)) -> bool {
    let to_first = Some((1, 4));
    let cell = Some((4, row_of_cell(to_first).shown()));
    let net = Some((4, row_of_net(to_first).shown()));
    cells.entries[0] == cell && nets.entries[0] == net
}
