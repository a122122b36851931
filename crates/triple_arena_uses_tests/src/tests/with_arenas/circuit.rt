use super::Numbers;
use std::alloc::Global;
use std::process::Abort;
use triple_arena_direct_uses::circuit::Circuit;
use triple_arena_ptr::{P0, Q2};
use triple_arena_test_kit::{is, numbers_of};

mod large;

// The label of a net, the cell that drives it, and the first that reads it.
fn net(circuit: &Circuit, n: Q2) -> Option<(u64, Option<Numbers>, Option<Numbers>)> {
    let net = circuit.net(n)?;
    Some((
        net.label,
        net.driver.map(numbers_of),
        net.sinks.first().copied().map(numbers_of),
    ))
}

// The kind of a cell, and the first net that it reads.
fn cell(circuit: &Circuit, c: P0) -> Option<(u32, Option<Numbers>)> {
    let cell = circuit.cell(c)?;
    Some((cell.kind, cell.reads.first().copied().map(numbers_of)))
}

// What is told of a net, and of a cell.
type Told = (
    Option<(u64, Option<Numbers>, Option<Numbers>)>,
    Option<(u32, Option<Numbers>)>,
);

// Of three cells and two nets, of which the second leads from the second cell to the third, the
// first ones go: the pointers of the last ones.
fn last_of_each(rt: &impl Abort, alloc: Global, circuit: &mut Circuit) -> (P0, Q2) {
    let first = circuit.add_cell(1, alloc).expect(rt, "memory");
    let second = circuit.add_cell(2, alloc).expect(rt, "memory");
    let third = circuit.add_cell(3, alloc).expect(rt, "memory");
    let loose = circuit.add_net(10, alloc).expect(rt, "memory");
    let net = circuit.add_net(20, alloc).expect(rt, "memory");
    circuit.drive(net, second).expect(rt, "a driver");
    circuit.connect(net, third).expect(rt, "a sink");
    is(circuit.remove_cell(first).is_ok(), true).expect(rt, "a cell without nets");
    is(circuit.remove_net(loose).is_ok(), true).expect(rt, "a net without cells");
    (third, net)
}

// The net and its reader once all is moved by one call.
fn after_one_compaction(rt: &impl Abort, alloc: Global) -> Told {
    let mut circuit = Circuit::new(alloc);
    let (c, n) = last_of_each(rt, alloc, &mut circuit);
    let (cells, nets) = circuit.compact(alloc).expect(rt, "memory");
    let n = *nets.allow().get(n).expect(rt, "the net");
    let c = *cells.allow().get(c).expect(rt, "the cell");
    (net(&circuit, n), cell(&circuit, c))
}

// The same once all is moved by a call for the cells and one for the nets.
fn after_two_compactions(rt: &impl Abort, alloc: Global) -> Told {
    let mut circuit = Circuit::new(alloc);
    let (c, n) = last_of_each(rt, alloc, &mut circuit);
    let cells = circuit.compact_cells(alloc).expect(rt, "memory");
    let nets = circuit.compact_nets(alloc).expect(rt, "memory");
    let n = *nets.allow().get(n).expect(rt, "the net");
    let c = *cells.allow().get(c).expect(rt, "the cell");
    (net(&circuit, n), cell(&circuit, c))
}

#[test]
fn each_end_follows(rt: HostRuntime) {
    let moved = (20, Some((1, 4)), Some((2, 4)));
    let wanted = (Some(moved), Some((3, Some((1, 4)))));
    let together = after_one_compaction(&rt, rt.alloc());
    is(together, wanted).expect(&rt, "moved together");
    let apart = after_two_compactions(&rt, rt.alloc());
    is(apart, wanted).expect(&rt, "moved apart");
}
