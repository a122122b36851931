//! A circuit: cells in one arena and nets in another, which point at each other.
//!
//! Its clauses say what is read under each pointer before a call, and after it. A call that has a
//! cell read a net, or read it no more, does so on both sides, or on neither; who drives a net, the net
//! alone knows (`ends.rt`). Compaction keeps each tie, or changes nothing (`compaction.rt`).

ghost use Rattle.std.specs.Prelude.{◌≡◌, ◌≢◌, ◌<◌, [], map, None, Some, IsOk, IfOk, OnErr, option_copied};
ghost use Rattle.std.specs.Option.{option_map};
ghost use Rattle.std.specs.Result.{IfErr};
ghost use Rattle.std.proofs.Common.{ap};
ghost use Rattle.triple_arena_base.specs.Held.{held_itself, refill_itself, held_option, refill_option};
ghost use Rattle.triple_arena_base.specs.HeldVecs.{held_vec, refill_vec};
ghost use Rattle.triple_arena_base.specs.laws.ReadingLaws.{itself_follows, option_follows, vec_follows, both_follows};
ghost use Rattle.triple_arena_ptr.specs.Pointers.{Pointer};
ghost use Rattle.triple_arena.specs.ArenaState.{arena_len, capacity};
ghost use Rattle.triple_arena.specs.Entries.{look_up};
ghost use Rattle.triple_arena_uses.specs.Entities.{p0_numbers};
ghost use Rattle.triple_arena_direct_uses.specs.Circuit.{q2_numbers, cell_at, net_at, cells_in_cell, nets_in_cell, cells_in_net, nets_in_net};

mod compaction;
mod ends;
pub mod names;

use std::alloc::{AllocError, Global};
use std::marker::Model;
use thiserror::Error;
use triple_arena::Arena;
use triple_arena_base::{ReallocationError, Recast, Recaster, recast_both};
use triple_arena_direct::Reading;
use triple_arena_ptr::{P0, Q2};

/// A cell: its kind, and the nets that it reads.
#[derive(Drop)]
pub struct Cell {
    pub kind: u32,
    pub reads: Vec<Q2>,
}

/// A net: its label, the cell that drives it, if one does, and those that read it.
#[derive(Drop)]
pub struct Net {
    pub label: u64,
    pub driver: Option<P0>,
    pub sinks: Vec<P0>,
}

/// A call on a circuit was refused, and what is read of it stays the same.
#[derive(Clone, Copy, Debug, PartialEq, Eq, Error)]
pub enum CircuitError {
    /// There is no such cell.
    #[error("there is no such cell")]
    NoCell,
    /// There is no such net.
    #[error("there is no such net")]
    NoNet,
    /// A net leads to the cell, or a cell reads the net.
    #[error("it is still in use")]
    InUse,
    /// Memory was refused.
    #[error("memory was refused: {0}")]
    Memory(AllocError),
}

/// Holds the nets that it reads.
impl Recast<Q2> for Cell {
    ghost held = { nets_in_cell.held };

    ghost refill = { nets_in_cell.refill };

    fn recast<R: Recaster<Item = Q2>>(&mut self, recaster: &R) -> Result<(), Q2> {
        self.reads.recast(recaster)
    }

    ghost held_refill = { nets_in_cell.held_refill };

    ghost refill_held = { nets_in_cell.refill_held };

    ghost refill_refill = { nets_in_cell.refill_refill };
}

/// Its nets are read in the order in which it reads them.
impl Reading<Q2> for Cell {
    ghost use Rattle.triple_arena_direct_uses.specs.Circuit.{CellRead, cell_read, nets_renamed};

    ghost Read = { CellRead };

    ghost read = { cell_read };

    ghost renamed = { nets_renamed };

    ghost follows = { λ rename cell l names.
        ap (λ reads. record { kind = cell.kind; reads = reads })
        (vec_follows q2_numbers held_itself refill_itself q2_numbers (λ f. f)
        (itself_follows q2_numbers) rename cell.reads l names) };
}

/// Holds no cell.
impl Recast<P0> for Cell {
    ghost held = { cells_in_cell.held };

    ghost refill = { cells_in_cell.refill };

    fn recast<R: Recaster<Item = P0>>(&mut self, _recaster: &R) -> Result<(), P0> {
        Ok(())
    }

    ghost held_refill = { cells_in_cell.held_refill };

    ghost refill_held = { cells_in_cell.refill_held };

    ghost refill_refill = { cells_in_cell.refill_refill };
}

/// Holds the cell that drives it, if one does, and then those that read it.
impl Recast<P0> for Net {
    ghost held = { cells_in_net.held };

    ghost refill = { cells_in_net.refill };

    fn recast<R: Recaster<Item = P0>>(&mut self, recaster: &R) -> Result<(), P0> {
        recast_both(&mut self.driver, &mut self.sinks, recaster)
    }

    ghost held_refill = { cells_in_net.held_refill };

    ghost refill_held = { cells_in_net.refill_held };

    ghost refill_refill = { cells_in_net.refill_refill };
}

/// Its driver is read, if it has one, and its sinks in their order.
impl Reading<P0> for Net {
    ghost use Rattle.triple_arena_direct_uses.specs.Circuit.{NetRead, net_read, cells_renamed};

    ghost Read = { NetRead };

    ghost read = { net_read };

    ghost renamed = { cells_renamed };

    ghost follows = { λ rename net l names.
        ap (λ parts. record { label = net.label; driver = parts.0; sinks = parts.1 })
        (both_follows p0_numbers
        (held_option held_itself) (refill_option refill_itself)
        (option_map p0_numbers) (λ f. option_map f)
        (held_vec held_itself refill_itself) (refill_vec held_itself refill_itself)
        (λ v. map p0_numbers v.items) (λ f. map f)
        (option_follows p0_numbers held_itself refill_itself p0_numbers (λ f. f)
        (itself_follows p0_numbers))
        (vec_follows p0_numbers held_itself refill_itself p0_numbers (λ f. f)
        (itself_follows p0_numbers)) rename (net.driver, net.sinks) l names) };
}

/// Holds no net.
impl Recast<Q2> for Net {
    ghost held = { nets_in_net.held };

    ghost refill = { nets_in_net.refill };

    fn recast<R: Recaster<Item = Q2>>(&mut self, _recaster: &R) -> Result<(), Q2> {
        Ok(())
    }

    ghost held_refill = { nets_in_net.held_refill };

    ghost refill_held = { nets_in_net.refill_held };

    ghost refill_refill = { nets_in_net.refill_refill };
}

/// A circuit of cells and nets, each named by the pointer that its insertion gave. The pointers of
/// cells and those of nets are of two types, so that neither is taken for the other.
#[derive(Drop)]
pub struct Circuit {
    cells: Arena<P0, Cell>,
    nets: Arena<Q2, Net>,
}

impl Model for Circuit {
    ghost use Rattle.triple_arena_direct_uses.specs.Circuit.{Wiring};

    ghost Value = { Wiring };

    ghost view = { λ circuit. record { cells = circuit.cells; nets = circuit.nets } };

    ghost inverse = { λ wiring. record { cells = wiring.cells; nets = wiring.nets } };
}

impl Circuit {
    /// A circuit without cells and nets.
    pub fn new(alloc: Global) -> Self
        ensures cells { (c : Pointer) → cell_at result c ≡ None }
        ensures nets { (n : Pointer) → net_at result n ≡ None }
    {
        Circuit {
            cells: Arena::on_heap(alloc),
            nets: Arena::on_heap(alloc),
        }
    }

    /// A new cell, which reads no net.
    ///
    /// `AllocError`, and nothing changes, only where there is no place, and memory is refused or each index
    /// has a cell. `BeyondMaxCapacity` never comes, as the heap has no limit.
    pub fn add_cell(&mut self, kind: u32, alloc: Global) -> Result<P0, ReallocationError>
        ensures found { IfOk result (λ c. cell_at self.new (p0_numbers c)
            ≡ Some record { kind = kind; reads = [] }) }
        ensures free { IfOk result (λ c. cell_at self.old (p0_numbers c) ≡ None) }
        ensures others { IfOk result (λ c. (q : Pointer) → q ≢ p0_numbers c
            → cell_at self.new q ≡ cell_at self.old q) }
        ensures nets { self.new.nets ≡ self.old.nets }
        ensures had_place { arena_len self.old.cells < capacity self.old.cells → IsOk result }
        ensures refusal { IfErr result (λ e. e ≡ ReallocationError.AllocError) }
        ensures refused { OnErr result (self.new ≡ self.old) }
    {
        // There is no limit.
        let _limit = self.cells.max_capacity();
        self.cells.insert(Cell {
            kind,
            reads: Vec::new(alloc),
        })
    }

    /// A new net, which no cell drives, and none reads.
    ///
    /// `AllocError`, and nothing changes, only where there is no place, and memory is refused or each index
    /// has a net. `BeyondMaxCapacity` never comes, as the heap has no limit.
    pub fn add_net(&mut self, label: u64, alloc: Global) -> Result<Q2, ReallocationError>
        ensures found { IfOk result (λ n. net_at self.new (q2_numbers n)
            ≡ Some record { label = label; driver = None; sinks = [] }) }
        ensures free { IfOk result (λ n. net_at self.old (q2_numbers n) ≡ None) }
        ensures others { IfOk result (λ n. (q : Pointer) → q ≢ q2_numbers n
            → net_at self.new q ≡ net_at self.old q) }
        ensures cells { self.new.cells ≡ self.old.cells }
        ensures had_place { arena_len self.old.nets < capacity self.old.nets → IsOk result }
        ensures refusal { IfErr result (λ e. e ≡ ReallocationError.AllocError) }
        ensures refused { OnErr result (self.new ≡ self.old) }
    {
        // There is no limit.
        let _limit = self.nets.max_capacity();
        self.nets.insert(Net {
            label,
            driver: None,
            sinks: Vec::new(alloc),
        })
    }

    /// The cell under a pointer.
    pub fn cell(&self, c: P0) -> Option<&Cell>
        ensures { option_copied result ≡ look_up self.now.cells.slots (p0_numbers c) }
    {
        self.cells.get(c)
    }

    /// The net under a pointer.
    pub fn net(&self, n: Q2) -> Option<&Net>
        ensures { option_copied result ≡ look_up self.now.nets.slots (q2_numbers n) }
    {
        self.nets.get(n)
    }
}
