use super::Numbers;
use std::alloc::Global;
use std::process::Abort;
use triple_arena_direct_uses::netlist::Netlist;
use triple_arena_ptr::P0;
use triple_arena_test_kit::{is, numbers_of};
use triple_arena_uses::links::Link;

fn gate(weight: u32, target: Option<P0>) -> Link {
    Link { weight, target }
}

// The weight of a gate, and index and generation of the one that it is wired to.
fn told(gate: &Link) -> (u32, Option<Numbers>) {
    (gate.weight, gate.target.map(numbers_of))
}

// Gates at the indexes 1 and 3, the second wired to the first, once they are moved: what is found
// under the second's old pointer, and under both new ones.
fn after_compaction(rt: &impl Abort, alloc: Global) -> [Option<(u32, Option<Numbers>)>; 3] {
    let mut wired: Netlist<P0, Link> = Netlist::new(alloc);
    let first = wired.add(gate(10, None)).expect(rt, "memory");
    let between = wired.add(gate(20, None)).expect(rt, "memory");
    let second = wired.add(gate(30, Some(first))).expect(rt, "memory");
    wired.remove(between).expect(rt, "a gate");
    let map = wired.compact(alloc).expect(rt, "memory").allow();
    let first = *map.get(first).expect(rt, "the first gate");
    let moved = *map.get(second).expect(rt, "the second gate");
    [
        wired.get(second).map(told),
        wired.get(first).map(told),
        wired.get(moved).map(told),
    ]
}

#[test]
fn a_wire_follows_its_gate(rt: HostRuntime) {
    let wanted = [None, Some((10, None)), Some((30, Some((1, 4))))];
    is(after_compaction(&rt, rt.alloc()), wanted).expect(&rt, "gates by pointers");
}
