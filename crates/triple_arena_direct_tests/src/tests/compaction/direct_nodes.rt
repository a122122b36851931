//! Compaction of a direct arena.

use crate::tests::compaction::{Node, answer_is_shown};
use crate::tests::shown::direct_is_shown;
use std::alloc::Global;
use triple_arena::{ArenaDirectInsertTrait, ArenaTrait};
use triple_arena_direct::{DirectArena, compress_recast};
use triple_arena_ptr::P0;
use triple_arena_test_kit::pointer;

type DirectNodes = DirectArena<P0, Node<P0>>;

// A direct arena of four places, with these nodes.
fn with_nodes(alloc: Global, nodes: &[(P0, Node<P0>)]) -> Option<DirectNodes> {
    let mut arena = DirectNodes::with_min_capacity(alloc, 4).ok()?;
    for (p, node) in nodes {
        if !arena.can_direct_insert(*p) {
            return None;
        }
        arena.direct_insert_reserved(*p, *node);
    }
    Some(arena)
}

#[test]
fn a_direct_arena_keeps_its_generations(rt: HostRuntime) {
    let alloc = rt.alloc();
    let nodes = [
        (pointer(4, 7), (1, Some(pointer(2, 9)))),
        (pointer(2, 9), (2, None)),
    ];
    let mut nodes = with_nodes(alloc, &nodes).expect(&rt, "places for nodes");
    let told = compress_recast(&mut nodes, alloc, false);
    let text = "Ok(Success({P0[2](9): P0[1](9), P0[4](7): P0[2](7)}))";
    answer_is_shown(alloc, &told, text).expect(&rt, "the answer");
    let text = "{P0[1](9): (2, None), P0[2](7): (1, Some(P0[1](9)))}";
    direct_is_shown(alloc, &nodes, text).expect(&rt, "the arena");
}
