//! Compaction that tells the new pointers, and that renames those which the values hold.

use crate::tests::compaction::{Compaction, Node, Nodes, answer_is_shown, compact, filled, map_of};
use crate::tests::shown::{arena_is_shown, direct_is_shown};
use std::alloc::Global;
use std::error::Error;
use std::process::Abort;
use triple_arena::Arena;
use triple_arena_base::{CompactError, Recast};
use triple_arena_direct::StrictArena;
use triple_arena_ptr::{P0, Ptr};
use triple_arena_test_kit::{Narrow, inx, is, is_shown, pointer};

// Compacts an arena, and recasts it by the map: the map, the answer to recasting, and then the arena show
// these.
fn follows_its_map(
    rt: &impl Abort,
    alloc: Global,
    nodes: &mut Nodes,
    reset_generation: bool,
    [map, recast, then]: [&str; 3],
) {
    let images = map_of(nodes, alloc, reset_generation).expect(rt, "memory for a map");
    direct_is_shown(alloc, &images, map).expect(rt, "the map");
    is_shown(alloc, &nodes.recast(&images), recast).expect(rt, "recasting");
    arena_is_shown(alloc, nodes, then).expect(rt, "the arena");
}

// Compacts an arena: the answer, and then the arena show these.
fn is_renamed(
    rt: &impl Abort,
    alloc: Global,
    nodes: &mut Nodes,
    reset_generation: bool,
    [answer, then]: [&str; 2],
) {
    let (mut none, renaming) = (Vec::new(alloc), Compaction::Renaming(reset_generation));
    let told = compact(nodes, &mut none, alloc, renaming);
    answer_is_shown(alloc, &told, answer).expect(rt, "the answer");
    arena_is_shown(alloc, nodes, then).expect(rt, "the arena");
}

#[test]
fn a_map_tells_the_new_pointers(rt: HostRuntime) {
    let alloc = rt.alloc();
    let nodes = [
        (0, None),
        (42, None),
        (1, None),
        (1337, Some(pointer(2, 2))),
    ];
    let mut nodes: Nodes = filled(alloc, &nodes, &[1, 3]).expect(&rt, "memory for nodes");
    let shown = [
        "{P0[2](2): P0[1](5), P0[4](2): P0[2](5)}",
        "Ok(())",
        "{P0[1](5): (42, None), P0[2](5): (1337, Some(P0[1](5)))}",
    ];
    follows_its_map(&rt, alloc, &mut nodes, false, shown);
    let shown = [
        "{P0[1](5): P0[1](2), P0[2](5): P0[2](2)}",
        "Ok(())",
        "{P0[1](2): (42, None), P0[2](2): (1337, Some(P0[1](2)))}",
    ];
    follows_its_map(&rt, alloc, &mut nodes, true, shown);
}

// The last of three nodes has a link that never was a node's pointer.
fn dangling(rt: &impl Abort, alloc: Global) -> Nodes {
    let nodes = [
        (1, None),
        (2, Some(pointer(1, 2))),
        (3, Some(P0::invalid())),
    ];
    filled(alloc, &nodes, &[]).expect(rt, "memory for nodes")
}

#[test]
fn recasting_by_a_map_ends_at_a_dangling_link(rt: HostRuntime) {
    let shown = [
        "{P0[1](2): P0[1](3), P0[2](2): P0[2](3), P0[3](2): P0[3](3)}",
        "Err(P0[ffffffffffffffff](1))",
        "{P0[1](3): (1, None), P0[2](3): (2, Some(P0[1](3))), \
            P0[3](3): (3, Some(P0[ffffffffffffffff](1)))}",
    ];
    follows_its_map(
        &rt,
        rt.alloc(),
        &mut dangling(&rt, rt.alloc()),
        false,
        shown,
    );
}

#[test]
fn a_dangling_link_refuses_and_nothing_changes(rt: HostRuntime) {
    let mut nodes = dangling(&rt, rt.alloc());
    let shown = [
        "Err(Unresolved(P0[ffffffffffffffff](1)))",
        "{P0[1](2): (1, None), P0[2](2): (2, Some(P0[1](2))), \
            P0[3](2): (3, Some(P0[ffffffffffffffff](1)))}",
    ];
    is_renamed(&rt, rt.alloc(), &mut nodes, false, shown);
    is(nodes.insert((4, None)), Ok(pointer(4, 2))).expect(&rt, "the counter");
}

// The new pointer of the second of two nodes behind a gap is the old one of the first.
#[test]
fn each_link_is_renamed_once(rt: HostRuntime) {
    let alloc = rt.alloc();
    let nodes = [(10, None), (20, Some(pointer(3, 2))), (30, None)];
    let mut nodes: Nodes = filled(alloc, &nodes, &[1]).expect(&rt, "memory for nodes");
    let shown = [
        "Ok(Success({P0[2](2): P0[1](2), P0[3](2): P0[2](2)}))",
        "{P0[1](2): (20, Some(P0[2](2))), P0[2](2): (30, None)}",
    ];
    is_renamed(&rt, alloc, &mut nodes, true, shown);
}

// How many entries there are before one of them is removed.
const MANY: usize = 1_000_001;

#[test]
fn a_map_has_a_million_pointers(rt: HostRuntime) {
    let mut nodes: Nodes = Arena::on_heap(rt.alloc());
    for number in 1..=MANY {
        nodes.insert((number as u64, None)).expect(&rt, "memory");
    }
    drop(nodes.remove_inx(inx(1)));
    let map = map_of(&mut nodes, rt.alloc(), false).expect(&rt, "memory for a map");
    is(map.get(pointer(2, 2)).copied(), Some(pointer(1, 4))).expect(&rt, "the first");
    is(
        map.get(pointer(MANY, 2)).copied(),
        Some(pointer(1_000_000, 4)),
    )
    .expect(&rt, "the last");
    is(map.len(), 1_000_000).expect(&rt, "how many there are");
}

// Of so many entries under byte indexes, the map of a compaction has the first and the last.
fn maps_narrow(rt: &impl Abort, alloc: Global, count: usize) {
    let mut nodes: StrictArena<Narrow, Node<Narrow>> = StrictArena::new(alloc);
    for number in 1..=count {
        nodes.insert((number as u64, None)).expect(rt, "memory");
    }
    let map = nodes.compress_recast(alloc).expect(rt, "memory for a map");
    is(map.get(pointer(1, 2)).copied(), Some(pointer(1, 3))).expect(rt, "the first");
    is(map.get(pointer(count, 2)).copied(), Some(pointer(count, 3))).expect(rt, "the last");
    is(map.len(), count).expect(rt, "how many there are");
}

/// There is no index 256, the power of two above both.
#[test]
fn a_map_has_pointers_up_to_the_greatest_byte_index(rt: HostRuntime) {
    maps_narrow(&rt, rt.alloc(), 129);
    maps_narrow(&rt, rt.alloc(), 255);
}

// A copy of an error.
fn copied<E: Error + Copy>(error: &E) -> E {
    *error
}

#[test]
fn a_refused_compaction_is_an_error(rt: HostRuntime) {
    let unresolved: CompactError<P0> = CompactError::Unresolved(P0::invalid());
    let copy = copied(&unresolved);
    is_shown(rt.alloc(), &copy, "Unresolved(P0[ffffffffffffffff](1))").expect(&rt, "the copy");
    is(copy == unresolved, true).expect(&rt, "whether it equals the first");
}
