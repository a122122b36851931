//! Worked examples: how stacks grow, keep their room and heed their limit, and which two items they lend.

use super::tables::Answer::{At, Done, Item, Limit, NoItem, NoPair, NoPlace, Pair};
use super::tables::Call::{
    CheckDisjoint, Clear, MaxCapacity, Pop, Push, PushWithin, Reallocate, WithDisjoint,
};
use super::tables::{BEYOND, Row, Stacks};
use triple_arena_base::GetDisjointMutError::{IndexOutOfBounds, OverlappingIndices};

const ON_THE_HEAP: &[Row<'_>] = &[
    (Push(7), At(1), 4),
    (Push(7), At(2), 4),
    (Push(7), At(3), 4),
    (Push(7), At(4), 4),
    (Push(7), At(5), 8),
    (Clear, Done, 8),
    (Reallocate(4), Done, 4),
    (Push(7), At(1), 4),
    (Push(7), At(2), 4),
    (Push(7), At(3), 4),
    (Reallocate(0), Done, 3),
    (MaxCapacity, Limit(None), 3),
    (Push(7), At(4), 6),
];

#[test]
fn a_heap_stack_grows_and_keeps_room_for_its_items(rt: HostRuntime) {
    let stacks = Stacks::new(rt.alloc());
    stacks.on_heap(None, ON_THE_HEAP).expect(&rt, "its answers");
}

const UP_TO_SIX: &[Row<'_>] = &[
    (Push(7), At(1), 4),
    (Push(7), At(2), 4),
    (Push(7), At(3), 4),
    (Push(7), At(4), 4),
    (Push(7), At(5), 6),
    (Push(7), At(6), 6),
    (Push(7), BEYOND, 6),
];

#[test]
fn a_limited_stack_grows_to_its_limit(rt: HostRuntime) {
    let limited = Stacks::new(rt.alloc()).up_to_limit(None, &[(Some(6), UP_TO_SIX)]);
    limited.expect(&rt, "its answers");
}

// With room for eight.
const OF_TWO_LIMITS: &[(Option<usize>, &[Row<'_>])] = &[
    (Some(2), &[(MaxCapacity, Limit(Some(2)), 2)]),
    (
        Some(100),
        &[
            (MaxCapacity, Limit(Some(100)), 8),
            (Reallocate(101), BEYOND, 8),
            (Reallocate(3), Done, 3),
        ],
    ),
];

#[test]
fn a_limit_leaves_the_room(rt: HostRuntime) {
    let stacks = Stacks::new(rt.alloc());
    stacks
        .up_to_limit(Some(8), OF_TWO_LIMITS)
        .expect(&rt, "its answers");
}

// With room for two.
const IN_A_ROOM: &[Row<'_>] = &[
    (Push(7), At(1), 2),
    (Push(7), At(2), 2),
    (PushWithin(7), NoPlace, 2),
    (Push(7), BEYOND, 2),
    (Reallocate(1), Done, 2),
];

#[test]
fn a_fixed_stack_keeps_its_room(rt: HostRuntime) {
    let stacks = Stacks::new(rt.alloc());
    stacks.fixed(Some(2), IN_A_ROOM).expect(&rt, "its answers");
}

const WITHOUT_A_PLACE: &[Row<'_>] = &[(PushWithin(7), NoPlace, 0), (Push(7), BEYOND, 0)];

#[test]
fn an_array_has_its_places_and_no_more(rt: HostRuntime) {
    let stacks = Stacks::new(rt.alloc());
    stacks
        .in_array::<0>(None, WITHOUT_A_PLACE)
        .expect(&rt, "without a place");
    let three = &[(MaxCapacity, Limit(Some(3)), 3)];
    stacks
        .in_array::<3>(Some(3), three)
        .expect(&rt, "with three");
}

// In three places.
const TWO_OF_THREE: &[Row<'_>] = &[
    (Push(1), At(1), 3),
    (Push(2), At(2), 3),
    (Push(3), At(3), 3),
    (WithDisjoint(3, 3), NoPair(IndexOutOfBounds), 3),
    (WithDisjoint(1, 1), NoPair(OverlappingIndices), 3),
    (WithDisjoint(2, 0), Pair(3, 1), 3),
    (CheckDisjoint(3, 3), NoPair(IndexOutOfBounds), 3),
    (CheckDisjoint(1, 1), NoPair(OverlappingIndices), 3),
    (CheckDisjoint(2, 0), Done, 3),
    (Pop, Item(3), 3),
    (Clear, Done, 3),
    (Pop, NoItem, 3),
];

#[test]
fn two_of_three_items(rt: HostRuntime) {
    let (stacks, room) = (Stacks::new(rt.alloc()), Some(3));
    stacks
        .on_heap(room, TWO_OF_THREE)
        .expect(&rt, "on the heap");
    let limited = stacks.up_to_limit(room, &[(None, TWO_OF_THREE)]);
    limited.expect(&rt, "up to a limit");
    stacks
        .fixed(room, TWO_OF_THREE)
        .expect(&rt, "in a room that stays");
    stacks
        .in_array::<3>(room, TWO_OF_THREE)
        .expect(&rt, "in an array");
}
