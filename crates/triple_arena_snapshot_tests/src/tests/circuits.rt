//! The circuit of users, from file to file.

use std::test::*;
use triple_arena_snapshot_uses::Circuit;
use triple_arena_test_kit::is;

#[test]
fn a_circuit_is_found_after_loading(rt: HostRuntime) {
    let alloc = rt.alloc();
    let mut circuit = Circuit::new(alloc);
    let clock = circuit.add_net(7, None).expect(&rt, "memory");
    let cell = circuit.add_cell(3, clock, alloc).expect(&rt, "memory");
    let output = circuit.add_net(8, Some(cell)).expect(&rt, "memory");
    let gone = circuit.add_net(9, None).expect(&rt, "memory");
    drop(circuit.remove_net(gone));
    let mut file = Vec::new(alloc);
    circuit.save(alloc, &mut file).expect(&rt, "memory");
    let mut loaded = Circuit::load(alloc, &mut file.as_slice()).expect(&rt, "the file");
    is(loaded.net(clock).map(|net| net.label), Some(7)).expect(&rt, "the clock");
    is(loaded.net(output).map(|net| net.driver), Some(Some(cell))).expect(&rt, "the output");
    is(loaded.net(gone).is_none(), true).expect(&rt, "a net that is gone");
    is(loaded.cell(cell) == circuit.cell(cell), true).expect(&rt, "the cell");
    is(loaded.add_net(1, None), circuit.add_net(1, None)).expect(&rt, "the next net");
}
