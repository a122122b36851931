use super::Numbers;
use std::alloc::Global;
use std::process::Abort;
use triple_arena_direct::DirectArena;
use triple_arena_direct_uses::Netlist;
use triple_arena_ptr::P0;
use triple_arena_test_kit::{is, numbers_of};
use triple_arena_uses::Port;

type Ports = Netlist<P0, Port<P0>>;

fn output(to: Option<P0>) -> Port<P0> {
    Port::Output { to, load: 7 }
}

// The pointer that a port holds, if it holds one, and its load, if it has one.
fn told(port: &Port<P0>) -> (Option<Numbers>, u32) {
    match port {
        Port::Input(from) => (Some(numbers_of(*from)), 0),
        Port::Output { to, load } => (to.map(numbers_of), *load),
        Port::Open => (None, 0),
    }
}

// What is told of a port that had this pointer before the ports were moved.
fn moved(ports: &Ports, map: &DirectArena<P0, P0>, p: P0) -> Option<(Option<Numbers>, u32)> {
    Some(told(ports.get(*map.get(p)?)?))
}

// An input, an output that is wired, one that isn't, and an open port behind a gap, once they are
// moved.
fn after_compaction(rt: &impl Abort, alloc: Global) -> [Option<(Option<Numbers>, u32)>; 4] {
    let mut ports: Ports = Netlist::new(alloc);
    let gone = ports.add(Port::Open).expect(rt, "memory");
    let open = ports.add(Port::Open).expect(rt, "memory");
    let input = ports.add(Port::Input(open)).expect(rt, "memory");
    let wired = ports.add(output(Some(input))).expect(rt, "memory");
    let loose = ports.add(output(None)).expect(rt, "memory");
    ports.remove(gone).expect(rt, "a port");
    let map = ports.compact(alloc).expect(rt, "memory").allow();
    [
        moved(&ports, &map, open),
        moved(&ports, &map, input),
        moved(&ports, &map, wired),
        moved(&ports, &map, loose),
    ]
}

#[test]
fn each_port_follows_its_pin(rt: HostRuntime) {
    let wanted = [(None, 0), (Some((1, 4)), 0), (Some((2, 4)), 7), (None, 7)].map(Some);
    let told = after_compaction(&rt, rt.alloc());
    is(told, wanted).expect(&rt, "ports by their new pointers");
}
