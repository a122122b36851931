use super::Numbers;
use std::alloc::Global;
use std::process::Abort;
use triple_arena_direct_uses::netlist::Netlist;
use triple_arena_ptr::P0;
use triple_arena_test_kit::{is, numbers_of};
use triple_arena_uses::gates::Gate;

// The pointers that a gate holds, as their indexes and generations.
type Held = ([Numbers; 2], Option<Numbers>);

fn gate(rt: &impl Abort, alloc: Global, fed_by: &[P0], output: Option<P0>) -> Gate<P0> {
    let mut inputs = Vec::new(alloc);
    for p in fed_by {
        inputs.push(*p).expect(rt, "memory");
    }
    Gate { inputs, output }
}

fn held(gate: &Gate<P0>) -> Option<Held> {
    let [first, second] = gate.inputs.as_slice() else {
        return None;
    };
    Some((
        [numbers_of(*first), numbers_of(*second)],
        gate.output.map(numbers_of),
    ))
}

// What the last of four gates holds once the second is gone, and the others are moved together.
fn after_compaction(rt: &impl Abort, alloc: Global) -> Option<Held> {
    let mut gates: Netlist<P0, Gate<P0>> = Netlist::new(alloc);
    let first = gates.add(gate(rt, alloc, &[], None)).expect(rt, "memory");
    let between = gates.add(gate(rt, alloc, &[], None)).expect(rt, "memory");
    let third = gates.add(gate(rt, alloc, &[], None)).expect(rt, "memory");
    let last = gate(rt, alloc, &[third, first], Some(third));
    let last = gates.add(last).expect(rt, "memory");
    gates.remove(between).expect(rt, "a gate");
    let map = gates.compact(alloc).expect(rt, "memory").allow();
    held(gates.get(*map.get(last).expect(rt, "the last gate"))?)
}

#[test]
fn each_pin_follows_its_gate(rt: HostRuntime) {
    let wanted = Some(([(2, 4), (1, 4)], Some((2, 4))));
    let told = after_compaction(&rt, rt.alloc());
    is(told, wanted).expect(&rt, "the pins of the last gate");
}
