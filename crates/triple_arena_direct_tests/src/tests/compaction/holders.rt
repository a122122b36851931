//! Compaction that renames what a holder beside the arena holds.

use crate::tests::compaction::{Compaction, Node, Nodes, compact};
use triple_arena::Arena;
use triple_arena_direct::StrictArena;
use triple_arena_ptr::P0;
use triple_arena_test_kit::{is, pointer};

// How many nodes are compacted beside a vector of the pointers to them.
const MANY: usize = 150_000;

// The node of a number, with a link to the next one, which the last has not: the indexes are by so many
// above the numbers.
fn numbered(number: usize, above: usize, generation: u64) -> Node<P0> {
    let next = number.saturating_add(1).saturating_add(above);
    let link = if number == MANY {
        None
    } else {
        Some(pointer(next, generation))
    };
    (number as u64, link)
}

// Whether each pointer to the nodes, and each link from one to the next, is that of its number.
fn are_renamed(nodes: &Nodes, holder: &[P0]) -> bool {
    let mut number = 0usize;
    for p in holder {
        number = number.saturating_add(1);
        let node = nodes.get(*p).copied();
        if *p != pointer(number, 4) || node != Some(numbered(number, 0, 4)) {
            return false;
        }
    }
    number == MANY && nodes.len() == MANY
}

// That many nodes behind one that is removed, compacted beside a vector of their pointers.
#[test]
fn thousands_of_pointers_follow_an_arena(rt: HostRuntime) {
    let alloc = rt.alloc();
    let mut nodes: Nodes = Arena::on_heap(alloc);
    let mut holder: Vec<P0> = Vec::new(alloc);
    nodes.insert((0, None)).expect(&rt, "memory");
    for number in 1..=MANY {
        let p = nodes.insert(numbered(number, 1, 2)).expect(&rt, "memory");
        holder.push(p).expect(&rt, "memory");
    }
    drop(nodes.remove(pointer(1, 2)));
    let answer = compact(&mut nodes, &mut holder, alloc, Compaction::Beside);
    is(answer.is_ok(), true).expect(&rt, "whether it is compacted");
    is(are_renamed(&nodes, holder.as_slice()), true).expect(&rt, "whether all is renamed");
}

// So of a strict arena.
#[test]
fn thousands_of_pointers_follow_a_strict_arena(rt: HostRuntime) {
    let alloc = rt.alloc();
    let mut nodes: StrictArena<P0, Node<P0>> = StrictArena::new(alloc);
    let mut holder: Vec<P0> = Vec::new(alloc);
    nodes.insert((0, None)).expect(&rt, "memory");
    for number in 1..=MANY {
        let p = nodes.insert(numbered(number, 1, 2)).expect(&rt, "memory");
        holder.push(p).expect(&rt, "memory");
    }
    is(nodes.remove(pointer(1, 2)), Ok((0, None))).expect(&rt, "a removal");
    let answer = nodes.compress_recast_with(&mut holder, alloc);
    is(answer.is_ok(), true).expect(&rt, "whether it is compacted");
    is(are_renamed(nodes.arena(), holder.as_slice()), true).expect(&rt, "whether all is renamed");
}
