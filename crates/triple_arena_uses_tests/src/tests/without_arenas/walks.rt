use super::values::{Values, second_and_fourth};
use std::alloc::Global;
use std::process::Abort;
use triple_arena::CompactArenaTrait;
use triple_arena_ptr::P0;
use triple_arena_test_kit::{is, numbers_of};
use triple_arena_uses::walks::{
    add, add_one, close_gaps, count, drain_three, pointers, remove_all, renew_all, take_all,
};

// The numbers 20 and 40 at the indexes 2 and 4, with free slots before each, and the counter 4.
fn two_of_four(rt: &impl Abort, alloc: Global) -> Values {
    second_and_fourth(rt, alloc, [10, 20, 30, 40])
}

// Whether these are the pointers of two such indexes and generations.
fn are_at(all: &[P0], wanted: [(usize, u64); 2]) -> bool {
    let [first, second] = all else {
        return false;
    };
    [numbers_of(*first), numbers_of(*second)] == wanted
}

// Whether these are all values, in the order of their pointers.
fn has_values<A: CompactArenaTrait<P0, u64>>(arena: &A, wanted: [u64; 2]) -> bool {
    let mut left = arena.vals();
    left.next() == Some(&wanted[0]) && left.next() == Some(&wanted[1]) && left.next().is_none()
}

fn is_empty<A: CompactArenaTrait<P0, u64>>(arena: &A) -> bool {
    arena.len() == 0 && count(arena) == 0
}

fn meets_each<A: CompactArenaTrait<P0, u64>>(rt: &impl Abort, alloc: Global, arena: &A) -> bool {
    let all = pointers(arena, alloc).expect(rt, "memory");
    count(arena) == 2 && are_at(&all, [(2, 2), (4, 2)])
}

fn writes_each<A: CompactArenaTrait<P0, u64>>(arena: &mut A) -> bool {
    add_one(arena);
    let is_written = has_values(arena, [21, 41]);
    add(arena, u64::MAX - 40);
    is_written && has_values(arena, [u64::MAX - 19, 0])
}

fn renews_each<A: CompactArenaTrait<P0, u64>>(
    rt: &impl Abort,
    alloc: Global,
    arena: &mut A,
) -> bool {
    let renewed = renew_all(arena, alloc).expect(rt, "memory");
    are_at(&renewed, [(2, 5), (4, 6)]) && has_values(arena, [20, 40])
}

fn closes_gaps<A: CompactArenaTrait<P0, u64>>(
    rt: &impl Abort,
    alloc: Global,
    arena: &mut A,
) -> bool {
    let is_told = close_gaps(arena).is_success();
    let all = pointers(arena, alloc).expect(rt, "memory");
    is_told && are_at(&all, [(1, 5), (2, 5)]) && has_values(arena, [20, 40])
}

fn removes_each<A: CompactArenaTrait<P0, u64>>(arena: &mut A) -> bool {
    remove_all(arena);
    is_empty(arena)
}

fn takes_each<A: CompactArenaTrait<P0, u64>>(arena: &mut A) -> bool {
    take_all(arena);
    is_empty(arena)
}

fn drains_each<A: CompactArenaTrait<P0, u64>>(arena: &mut A) -> bool {
    drain_three(arena);
    is_empty(arena)
}

// Each walk goes over an arena of its own: the last of four numbers, the others of two.
#[test]
fn each_entry_is_met_written_renewed_moved_and_taken_out(rt: HostRuntime) {
    let mut four = two_of_four(&rt, rt.alloc());
    four.insert(50).expect(&rt, "a place");
    four.insert(60).expect(&rt, "a place");
    let walks = [
        meets_each(&rt, rt.alloc(), &two_of_four(&rt, rt.alloc())),
        writes_each(&mut two_of_four(&rt, rt.alloc())),
        renews_each(&rt, rt.alloc(), &mut two_of_four(&rt, rt.alloc())),
        closes_gaps(&rt, rt.alloc(), &mut two_of_four(&rt, rt.alloc())),
        removes_each(&mut two_of_four(&rt, rt.alloc())),
        takes_each(&mut two_of_four(&rt, rt.alloc())),
        drains_each(&mut four),
    ];
    is(walks, [true; 7]).expect(&rt, "each walk");
}
