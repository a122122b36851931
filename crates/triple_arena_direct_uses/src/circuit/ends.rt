//! The ends of nets at cells: tied and untied on both sides, and looked for before a cell or a net
//! goes, which it does even if a counter wraps.

ghost use Rattle.std.specs.Prelude.{◌≡◌, ◌≢◌, ◌+◌, ◌≤◌, true, false, None, Some, IsSome, IfOk, OnOk, OnErr, OnSome, IfNone};
ghost use Rattle.std.specs.Option.{option_map};
ghost use Rattle.std.specs.Result.{IfErr};
ghost use Rattle.std.specs.Vec.{vec_len, vec_capacity};
ghost use Rattle.triple_arena_ptr.specs.Pointers.{Pointer};
ghost use Rattle.triple_arena.specs.Entries.{look_up};
ghost use Rattle.triple_arena_uses.specs.Entities.{p0_numbers};
ghost use Rattle.triple_arena_direct_uses.specs.Circuit.{q2_numbers, CellRead, NetRead, cell_read, net_read, cell_at, net_at, leads_to, reads_net, IsLedTo, IsReadByCell, with_driver, with_sink, with_read, without_sink, without_cell, without_net, AreThere, RefusesEnds, RefusesMore, KeepsCell, KeepsNet, IsReadAsBefore};

use super::{Cell, Circuit, CircuitError, Net};
use triple_arena::{Arena, CompactArenaTrait};
use triple_arena_ptr::{P0, Q2};

impl Circuit {
    /// Has a cell drive a net, in place of the one that drove it. The cell stays as it is: who drives a
    /// net, the net alone knows.
    ///
    /// `NoNet`, then `NoCell`, where there is none.
    pub fn drive(&mut self, net: Q2, cell: P0) -> Result<(), CircuitError>
        ensures net { OnOk result (net_at self.new (q2_numbers net)
            ≡ option_map (with_driver (p0_numbers cell)) (net_at self.old (q2_numbers net))) }
        ensures there { OnOk result
            (AreThere self.old (q2_numbers net) (p0_numbers cell)) }
        ensures other_nets { (n : Pointer) → n ≢ q2_numbers net
            → net_at self.new n ≡ net_at self.old n }
        ensures cells { self.new.cells ≡ self.old.cells }
        ensures refused { OnErr result (IsReadAsBefore self.old self.new) }
        ensures refusal { IfErr result
            (RefusesEnds self.old (q2_numbers net) (p0_numbers cell)) }
    {
        let Some(driven) = self.nets.get_mut(net) else {
            return Err(CircuitError::NoNet);
        };
        if !self.cells.contains(cell) {
            return Err(CircuitError::NoCell);
        }
        driven.driver = Some(cell);
        Ok(())
    }

    /// Has a cell read a net, once more if it reads it already: the cell becomes the last sink of
    /// the net, and the net the last that the cell reads.
    ///
    /// `NoNet`, then `NoCell`, where there is none; then `Memory` where either side is refused the
    /// memory for one more, which both ask for before either changes.
    pub fn connect(&mut self, net: Q2, cell: P0) -> Result<(), CircuitError>
        ensures net { OnOk result (net_at self.new (q2_numbers net)
            ≡ option_map (with_sink (p0_numbers cell)) (net_at self.old (q2_numbers net))) }
        ensures cell { OnOk result (cell_at self.new (p0_numbers cell)
            ≡ option_map (with_read (q2_numbers net)) (cell_at self.old (p0_numbers cell))) }
        ensures there { OnOk result
            (AreThere self.old (q2_numbers net) (p0_numbers cell)) }
        ensures other_nets { (n : Pointer) → n ≢ q2_numbers net
            → net_at self.new n ≡ net_at self.old n }
        ensures other_cells { (c : Pointer) → c ≢ p0_numbers cell
            → cell_at self.new c ≡ cell_at self.old c }
        ensures refused { OnErr result (IsReadAsBefore self.old self.new) }
        ensures refusal { IfErr result
            (RefusesMore self.old (q2_numbers net) (p0_numbers cell)) }
    {
        let Some(joined) = self.nets.get_mut(net) else {
            return Err(CircuitError::NoNet);
        };
        let Some(reader) = self.cells.get_mut(cell) else {
            return Err(CircuitError::NoCell);
        };
        joined.sinks.reserve(1).map_err(CircuitError::Memory)?;
        reader.reads.reserve(1).map_err(CircuitError::Memory)?;
        joined.add_sink(cell);
        reader.add_read(net);
        Ok(())
    }

    /// Has a cell read a net no more: the net loses each sink that is the cell, and the cell each
    /// reading of the net. A cell that drives the net still does.
    ///
    /// `NoNet`, then `NoCell`, where there is none.
    pub fn disconnect(&mut self, net: Q2, cell: P0) -> Result<(), CircuitError>
        ensures net { OnOk result (net_at self.new (q2_numbers net)
            ≡ option_map (without_sink (p0_numbers cell)) (net_at self.old (q2_numbers net))) }
        ensures cell { OnOk result (cell_at self.new (p0_numbers cell)
            ≡ option_map (without_net (q2_numbers net)) (cell_at self.old (p0_numbers cell))) }
        ensures there { OnOk result
            (AreThere self.old (q2_numbers net) (p0_numbers cell)) }
        ensures other_nets { (n : Pointer) → n ≢ q2_numbers net
            → net_at self.new n ≡ net_at self.old n }
        ensures other_cells { (c : Pointer) → c ≢ p0_numbers cell
            → cell_at self.new c ≡ cell_at self.old c }
        ensures refused { OnErr result (IsReadAsBefore self.old self.new) }
        ensures refusal { IfErr result
            (RefusesEnds self.old (q2_numbers net) (p0_numbers cell)) }
    {
        let Some(joined) = self.nets.get_mut(net) else {
            return Err(CircuitError::NoNet);
        };
        let Some(reader) = self.cells.get_mut(cell) else {
            return Err(CircuitError::NoCell);
        };
        joined.drop_sink(cell);
        reader.drop_net(net);
        Ok(())
    }

    /// Takes a cell away that no net leads to. It looks at each net.
    ///
    /// `NoCell` where there is none, and else `InUse` exactly where a net leads to it: it drives
    /// the net, or is a sink of it.
    pub fn remove_cell(&mut self, c: P0) -> Result<Cell, CircuitError>
        ensures answer { IfOk result (λ cell. look_up self.old.cells.slots (p0_numbers c)
            ≡ Some cell) }
        ensures unused { OnOk result (IsLedTo self.old (p0_numbers c) → ⊥) }
        ensures gone { OnOk result (cell_at self.new (p0_numbers c) ≡ None) }
        ensures others { (q : Pointer) → q ≢ p0_numbers c
            → look_up self.new.cells.slots q ≡ look_up self.old.cells.slots q }
        ensures nets { self.new.nets ≡ self.old.nets }
        ensures refused { OnErr result (self.new ≡ self.old) }
        ensures refusal { IfErr result (KeepsCell self.old (p0_numbers c)) }
    {
        if !self.cells.contains(c) {
            return Err(CircuitError::NoCell);
        }
        if is_led_to(&self.nets, c) {
            return Err(CircuitError::InUse);
        }
        self.cells.remove(c).allow().ok_or(CircuitError::NoCell)
    }

    /// Takes a net away that no cell reads. It looks at each cell.
    ///
    /// `NoNet` where there is none, and else `InUse` exactly where a cell reads it.
    pub fn remove_net(&mut self, n: Q2) -> Result<Net, CircuitError>
        ensures answer { IfOk result (λ net. look_up self.old.nets.slots (q2_numbers n)
            ≡ Some net) }
        ensures unused { OnOk result (IsReadByCell self.old (q2_numbers n) → ⊥) }
        ensures gone { OnOk result (net_at self.new (q2_numbers n) ≡ None) }
        ensures others { (q : Pointer) → q ≢ q2_numbers n
            → look_up self.new.nets.slots q ≡ look_up self.old.nets.slots q }
        ensures cells { self.new.cells ≡ self.old.cells }
        ensures refused { OnErr result (self.new ≡ self.old) }
        ensures refusal { IfErr result (KeepsNet self.old (q2_numbers n)) }
    {
        if !self.nets.contains(n) {
            return Err(CircuitError::NoNet);
        }
        if is_read(&self.cells, n) {
            return Err(CircuitError::InUse);
        }
        self.nets.remove(n).allow().ok_or(CircuitError::NoNet)
    }

    /// Takes a cell away, and each end of a net at it: no net leads to it any more. It goes through
    /// each net. None, and no change of what is read, where there is no such cell.
    pub fn remove_cell_with_ends(&mut self, c: P0) -> Option<Cell>
        ensures answer { result ≡ look_up self.old.cells.slots (p0_numbers c) }
        ensures gone { cell_at self.new (p0_numbers c) ≡ None }
        ensures others { (q : Pointer) → q ≢ p0_numbers c
            → look_up self.new.cells.slots q ≡ look_up self.old.cells.slots q }
        ensures nets { OnSome result ((n : Pointer) → net_at self.new n
            ≡ option_map (without_cell (p0_numbers c)) (net_at self.old n)) }
        ensures none { IfNone result (self.new.nets ≡ self.old.nets) }
    {
        let cell = self.cells.remove(c).allow()?;
        leave_cell(&mut self.nets, c);
        Some(cell)
    }

    /// Takes a net away, and each reading of it: no cell reads it any more. It goes through each
    /// cell. None, and no change of what is read, where there is no such net.
    pub fn remove_net_with_ends(&mut self, n: Q2) -> Option<Net>
        ensures answer { result ≡ look_up self.old.nets.slots (q2_numbers n) }
        ensures gone { net_at self.new (q2_numbers n) ≡ None }
        ensures others { (q : Pointer) → q ≢ q2_numbers n
            → look_up self.new.nets.slots q ≡ look_up self.old.nets.slots q }
        ensures cells { OnSome result ((c : Pointer) → cell_at self.new c
            ≡ option_map (without_net (q2_numbers n)) (cell_at self.old c)) }
        ensures none { IfNone result (self.new.cells ≡ self.old.cells) }
    {
        let net = self.nets.remove(n).allow()?;
        leave_net(&mut self.cells, n);
        Some(net)
    }
}

// Whether one of these nets leads to a cell.
fn is_led_to(nets: &Arena<Q2, Net>, cell: P0) -> bool
    ensures led { result ≡ true → (n : Pointer) × (net : NetRead)
        × (option_map net_read (look_up nets.now.slots n) ≡ Some net)
        × (leads_to (p0_numbers cell) net ≡ true) }
    ensures unled { result ≡ false → (n : Pointer) (net : NetRead)
        → option_map net_read (look_up nets.now.slots n) ≡ Some net
        → leads_to (p0_numbers cell) net ≡ false }
{
    'walk: for net in nets.vals() {
        if net.leads_to(cell) {
            return true;
        }
    }
    false
}

// Whether one of these cells reads a net.
fn is_read(cells: &Arena<P0, Cell>, net: Q2) -> bool
    ensures read { result ≡ true → (c : Pointer) × (cell : CellRead)
        × (option_map cell_read (look_up cells.now.slots c) ≡ Some cell)
        × (reads_net (q2_numbers net) cell ≡ true) }
    ensures unread { result ≡ false → (c : Pointer) (cell : CellRead)
        → option_map cell_read (look_up cells.now.slots c) ≡ Some cell
        → reads_net (q2_numbers net) cell ≡ false }
{
    'walk: for cell in cells.vals() {
        if cell.reads_net(net) {
            return true;
        }
    }
    false
}

// None of these nets leads to a cell any more.
fn leave_cell(nets: &mut Arena<Q2, Net>, cell: P0)
    ensures { (n : Pointer) → option_map net_read (look_up nets.new.slots n)
        ≡ option_map (λ net. without_cell (p0_numbers cell) (net_read net))
        (look_up nets.old.slots n) }
{
    nets.for_each_mut(|_n, net| net.leave(cell));
}

// None of these cells reads a net any more.
fn leave_net(cells: &mut Arena<P0, Cell>, net: Q2)
    ensures { (c : Pointer) → option_map cell_read (look_up cells.new.slots c)
        ≡ option_map (λ cell. without_net (q2_numbers net) (cell_read cell))
        (look_up cells.old.slots c) }
{
    cells.for_each_mut(|_c, cell| cell.drop_net(net));
}

impl Net {
    // Whether a cell drives it or reads it.
    fn leads_to(&self, cell: P0) -> bool
        ensures { result ≡ leads_to (p0_numbers cell) (net_read self.now) }
    {
        self.driver == Some(cell) || self.sinks.contains(&cell)
    }

    fn add_sink(&mut self, cell: P0)
        requires room { vec_len self.old.sinks + 1 ≤ vec_capacity self.old.sinks }
        ensures { net_read self.new ≡ with_sink (p0_numbers cell) (net_read self.old) }
    {
        let _pushed = self.sinks.push(cell);
    }

    fn drop_sink(&mut self, cell: P0)
        ensures { net_read self.new ≡ without_sink (p0_numbers cell) (net_read self.old) }
    {
        self.sinks.retain(|sink| *sink != cell);
    }

    // Leads to a cell no more.
    fn leave(&mut self, cell: P0)
        ensures { net_read self.new ≡ without_cell (p0_numbers cell) (net_read self.old) }
    {
        if self.driver == Some(cell) {
            self.driver = None;
        }
        self.drop_sink(cell);
    }
}

impl Cell {
    fn reads_net(&self, net: Q2) -> bool
        ensures { result ≡ reads_net (q2_numbers net) (cell_read self.now) }
    {
        self.reads.contains(&net)
    }

    fn add_read(&mut self, net: Q2)
        requires room { vec_len self.old.reads + 1 ≤ vec_capacity self.old.reads }
        ensures { cell_read self.new ≡ with_read (q2_numbers net) (cell_read self.old) }
    {
        let _pushed = self.reads.push(net);
    }

    fn drop_net(&mut self, net: Q2)
        ensures { cell_read self.new ≡ without_net (q2_numbers net) (cell_read self.old) }
    {
        self.reads.retain(|read| *read != net);
    }
}
