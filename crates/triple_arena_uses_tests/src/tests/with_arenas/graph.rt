use std::process::Abort;
use triple_arena_ptr::{P0, Ptr};
use triple_arena_test_kit::is;
use triple_arena_uses::graph::Graph;

// Whether paths lead from `start` to just these nodes, in this order.
fn reaches(graph: &Graph, start: P0, wanted: &[P0]) -> bool {
    let found = graph.reachable(start);
    found.is_ok_and(|found| found.as_slice() == wanted)
}

// Whether edges lead from `p` to nodes of just these labels.
fn has_neighbours(graph: &Graph, p: P0, wanted: &[u64]) -> bool {
    let labels = graph.neighbour_labels(p);
    labels.is_ok_and(|labels| labels.as_slice() == wanted)
}

// Four nodes, the first three in a circle. An edge leads from the third to the fourth, and one from that
// to itself.
fn circle(rt: &impl Abort, graph: &mut Graph) -> (P0, P0, P0, P0) {
    let a = graph.add(1).expect(rt, "memory");
    let b = graph.add(2).expect(rt, "memory");
    let c = graph.add(3).expect(rt, "memory");
    let d = graph.add(4).expect(rt, "memory");
    for (from, to) in [(a, b), (b, c), (c, a), (c, d), (d, d)] {
        is(graph.connect(from, to), Ok(true)).expect(rt, "an edge");
    }
    (a, b, c, d)
}

// What holds of the circle, and then, once its third node is gone, of a node that stands there.
#[test]
fn paths_end_at_a_removed_node(rt: HostRuntime) {
    let mut graph = Graph::new(rt.alloc());
    let (a, b, c, d) = circle(&rt, &mut graph);
    let is_whole = reaches(&graph, b, &[b, c, a, d]);
    let is_removed = graph.remove(c).is_some();
    let e = graph.add(5).expect(&rt, "memory");
    let told = [
        is_whole,
        is_removed,
        e.inx() == c.inx(),
        reaches(&graph, a, &[a, b]),
        reaches(&graph, c, &[]),
        has_neighbours(&graph, a, &[2]),
        has_neighbours(&graph, b, &[]),
        graph.connect(c, a) == Ok(false),
    ];
    is(told, [true; 8]).expect(&rt, "paths and neighbours");
}
