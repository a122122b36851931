//! A large circuit that is compacted, beside a plain model of it: vectors of numbers; and a net with more
//! sinks than 16 bits count.

use std::alloc::Global;
use std::process::Abort;
use triple_arena_direct_uses::circuit::Circuit;
use triple_arena_ptr::{P0, Ptr, Q2};
use triple_arena_test_kit::{Numbered, is, pointer};

// How many cells are added, and how many nets.
const COUNT: usize = 150_000;

// How often one cell is connected to one net.
const SINKS: usize = 70_000;

// One net in so many is removed.
const NETS_APART: usize = 5_000;

// A cell in three is removed, and no net leads to it.
fn cells(rt: &impl Abort, alloc: Global, circuit: &mut Circuit) -> Vec<P0> {
    let mut all = Vec::new(alloc);
    for number in 0..COUNT {
        let c = circuit.add_cell(number as u32, alloc);
        all.push(c.expect(rt, "memory")).expect(rt, "memory");
    }
    let mut kept = Vec::new(alloc);
    for (number, c) in all.into_iter().enumerate() {
        if number % 3 == 0 {
            is(circuit.remove_cell(c).is_ok(), true).expect(rt, "a cell without nets");
        } else {
            kept.push(c).expect(rt, "memory");
        }
    }
    kept
}

fn nets(rt: &impl Abort, alloc: Global, circuit: &mut Circuit) -> Vec<Q2> {
    let mut all = Vec::new(alloc);
    for number in 0..COUNT {
        let n = circuit.add_net(number as u64, alloc);
        all.push(n.expect(rt, "memory")).expect(rt, "memory");
    }
    let mut kept = Vec::new(alloc);
    for (number, n) in all.into_iter().enumerate() {
        if number % NETS_APART == 0 {
            is(circuit.remove_net(n).is_ok(), true).expect(rt, "a net without cells");
        } else {
            kept.push(n).expect(rt, "memory");
        }
    }
    kept
}

// The place among these cells of the one that drives the net of a number, and of the one that reads
// it.
fn driver_of(net: usize, cells: usize) -> usize {
    net.checked_rem(cells).unwrap_or(0)
}

fn sink_of(net: usize, cells: usize) -> usize {
    driver_of(net.wrapping_mul(7).wrapping_add(1), cells)
}

// Each net is driven by one cell, and read by another.
fn connect(rt: &impl Abort, circuit: &mut Circuit, cells: &[P0], nets: &[Q2]) {
    for (number, n) in nets.iter().enumerate() {
        let driver = cells.get(driver_of(number, cells.len()));
        let sink = cells.get(sink_of(number, cells.len()));
        let is_driven = circuit.drive(*n, *driver.expect(rt, "a driver"));
        let is_read = circuit.connect(*n, *sink.expect(rt, "a sink"));
        is((is_driven, is_read), (Ok(()), Ok(()))).expect(rt, "a net with its ends");
    }
}

// The pointer of the entry at a place, once so many entries were removed before the compaction:
// each removal raises the counter, which begins at 2, and the compaction raises it once.
fn moved<P: Ptr>(place: usize, removed: usize) -> P
where
    P::Gen: Numbered,
{
    pointer(place.wrapping_add(1), (removed as u64).wrapping_add(3))
}

// Whether the net of a number leads from and to the cells that it led from and to, and is what its
// reader reads at this place.
fn is_kept(
    rt: &impl Abort,
    circuit: &Circuit,
    number: usize,
    sizes: [usize; 2],
    place: usize,
) -> bool {
    let [cells, nets] = sizes;
    let (gone_cells, gone_nets) = (COUNT.saturating_sub(cells), COUNT.saturating_sub(nets));
    let driver: P0 = moved(driver_of(number, cells), gone_cells);
    let sink: P0 = moved(sink_of(number, cells), gone_cells);
    let n: Q2 = moved(number, gone_nets);
    let net = circuit.net(n).expect(rt, "the net");
    let reader = circuit.cell(sink).expect(rt, "its reader");
    let leads = net.driver == Some(driver) && net.sinks.as_slice() == [sink].as_slice();
    leads && reader.reads.get(place) == Some(&n)
}

// Whether each net is kept, and each cell reads no more than its nets, in their order.
fn are_kept(rt: &impl Abort, alloc: Global, circuit: &Circuit, sizes: [usize; 2]) -> bool {
    let [cells, nets] = sizes;
    let mut reads = Vec::new(alloc);
    for _cell in 0..cells {
        reads.push(0usize).expect(rt, "memory");
    }
    for number in 0..nets {
        let count = reads.get_mut(sink_of(number, cells)).expect(rt, "a sink");
        if !is_kept(rt, circuit, number, sizes, *count) {
            return false;
        }
        *count = count.wrapping_add(1);
    }
    for (place, count) in reads.iter().enumerate() {
        let c = moved(place, COUNT.saturating_sub(cells));
        let cell = circuit.cell(c).expect(rt, "a cell");
        if cell.reads.len() != *count {
            return false;
        }
    }
    true
}

// Whether a new circuit is as its model once it is large, and compacted.
fn is_kept_at_large(rt: &impl Abort, alloc: Global, circuit: &mut Circuit) -> bool {
    let cells = cells(rt, alloc, circuit);
    let nets = nets(rt, alloc, circuit);
    connect(rt, circuit, &cells, &nets);
    let _maps = circuit.compact(alloc).expect(rt, "memory");
    are_kept(rt, alloc, circuit, [cells.len(), nets.len()])
}

#[test]
fn a_large_circuit_is_as_its_model(rt: HostRuntime) {
    let mut circuit = Circuit::new(rt.alloc());
    is(is_kept_at_large(&rt, rt.alloc(), &mut circuit), true).expect(&rt, "as its model");
}

// How many sinks a net has, and how many readings its cell, once the two are connected so often.
fn joined_often(rt: &impl Abort, alloc: Global, circuit: &mut Circuit) -> (usize, usize) {
    let c = circuit.add_cell(1, alloc).expect(rt, "memory");
    let n = circuit.add_net(10, alloc).expect(rt, "memory");
    for _ in 0..SINKS {
        is(circuit.connect(n, c), Ok(())).expect(rt, "memory for one more");
    }
    let net = circuit.net(n).expect(rt, "the net");
    let cell = circuit.cell(c).expect(rt, "the cell");
    (net.sinks.len(), cell.reads.len())
}

#[test]
fn a_net_takes_seventy_thousand_sinks(rt: HostRuntime) {
    let mut circuit = Circuit::new(rt.alloc());
    let joined = joined_often(&rt, rt.alloc(), &mut circuit);
    is(joined, (SINKS, SINKS)).expect(&rt, "all the sinks and readings");
}
