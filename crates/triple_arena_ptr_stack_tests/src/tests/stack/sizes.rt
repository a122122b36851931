//! Stacks of thousands of items, and room for more than a hundred thousand.

use super::tables::Answer::{Done, Limit};
use super::tables::Call::{MaxCapacity, Push, PushUpTo, Reallocate};
use super::tables::{BEYOND, Row, Stacks};

const GROWING: &[Row<'_>] = &[
    (PushUpTo(5000), Done, 8192),
    (MaxCapacity, Limit(None), 8192),
];

const UP_TO_5000: &[Row<'_>] = &[(PushUpTo(5000), Done, 5000), (Push(0), BEYOND, 5000)];

const IN_A_ROOM: &[Row<'_>] = &[(PushUpTo(5000), Done, 5000)];

#[test]
fn thousands_of_items_on_each_stack(rt: HostRuntime) {
    let stacks = Stacks::new(rt.alloc());
    stacks.on_heap(None, GROWING).expect(&rt, "on the heap");
    let limited = stacks.up_to_limit(None, &[(Some(5000), UP_TO_5000)]);
    limited.expect(&rt, "up to a limit");
    stacks
        .fixed(Some(5000), IN_A_ROOM)
        .expect(&rt, "in a room that stays");
}

// A stack is not made with so much room.
#[test]
fn a_limited_stack_makes_room_for_many_items(rt: HostRuntime) {
    let rows = &[(Reallocate(150_000), Done, 150_000)];
    let limited = Stacks::new(rt.alloc()).up_to_limit(None, &[(Some(200_000), rows)]);
    limited.expect(&rt, "its room");
}
