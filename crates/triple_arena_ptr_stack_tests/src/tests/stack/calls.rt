//! Each call that may be refused memory, where there is memory, over each of the four stacks.

use super::tables::Answer::{At, Done, Limit, NoPlace};
use super::tables::Call::{
    AsSlice, Entry, EntryReallocating, EntryWithin, MaxCapacity, Push, PushReallocating,
    PushWithin, Reallocate,
};
use super::tables::{BEYOND, Row, Stacks};
use std::mem;
use triple_arena_stack::{pair_if, pair_of};
use triple_arena_test_kit::is;

// On a stack that is made with four places.
const EACH_CALL: &[Row<'_>] = &[
    (Push(1), At(1), 4),
    (PushReallocating(2), At(2), 4),
    (PushWithin(3), At(3), 4),
    (Entry(None), At(4), 4),
    (EntryReallocating(None), At(4), 4),
    (EntryWithin(4, 5), Done, 4),
    (Reallocate(4), Done, 4),
    (PushWithin(6), NoPlace, 4),
    (AsSlice(&[1, 2, 3, 5]), Done, 4),
];

#[test]
fn each_call_on_each_stack(rt: HostRuntime) {
    let (stacks, room) = (Stacks::new(rt.alloc()), Some(4));
    stacks.on_heap(room, EACH_CALL).expect(&rt, "on the heap");
    let limited = stacks.up_to_limit(room, &[(None, EACH_CALL)]);
    limited.expect(&rt, "up to a limit");
    stacks
        .fixed(room, EACH_CALL)
        .expect(&rt, "in a room that stays");
    stacks
        .in_array::<4>(room, EACH_CALL)
        .expect(&rt, "in an array");
}

// From no room on.
const GROWTH: &[Row<'_>] = &[
    (Push(1), At(1), 4),
    (Reallocate(0), Done, 1),
    (PushReallocating(2), At(2), 2),
    (Entry(Some(3)), At(3), 4),
    (Reallocate(0), Done, 3),
    (EntryReallocating(Some(4)), At(4), 6),
    (Reallocate(9), Done, 9),
    (AsSlice(&[1, 2, 3, 4]), Done, 9),
];

// The limit of a new stack, and another.
const BELOW_LIMITS: &[(Option<usize>, &[Row<'_>])] = &[
    (Some(0), &[(Push(1), BEYOND, 0)]),
    (Some(9), GROWTH),
    (Some(9), &[(MaxCapacity, Limit(Some(9)), 9)]),
];

#[test]
fn each_call_grows_a_stack(rt: HostRuntime) {
    let stacks = Stacks::new(rt.alloc());
    stacks.on_heap(None, GROWTH).expect(&rt, "on the heap");
    stacks
        .up_to_limit(None, BELOW_LIMITS)
        .expect(&rt, "up to a limit");
}

// Two of three numbers, tenfold by `pair_of`: what stood there.
fn made_tenfold(numbers: &mut [u64; 3]) -> (u64, u64) {
    let (a, b) = pair_of(numbers, 2, 0);
    let found = (*a, *b);
    *a = 30;
    *b = 10;
    found
}

// Exchanges two numbers, if these are two places.
fn are_exchanged(numbers: &mut [u64], i: usize, j: usize) -> bool {
    match pair_if(numbers, i, j) {
        Some((a, b)) => {
            mem::swap(a, b);
            true
        }
        None => false,
    }
}

#[test]
fn two_of_a_slice(rt: HostRuntime) {
    let mut numbers = [1, 2, 3];
    is(made_tenfold(&mut numbers), (3, 1)).expect(&rt, "what was lent");
    is(numbers, [10, 2, 30]).expect(&rt, "what was written");
    is(are_exchanged(&mut numbers, 1, 1), false).expect(&rt, "one place twice");
    is(are_exchanged(&mut numbers, 0, 3), false).expect(&rt, "a place past the end");
    is(are_exchanged(&mut numbers, 0, 1), true).expect(&rt, "two places");
    is(numbers, [2, 10, 30]).expect(&rt, "two numbers exchanged");
}
