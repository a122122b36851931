//! Items that count their drops: each is dropped once, whatever the call, on each of the four
//! stacks.

use super::tables::Answer::{At, Done, Item, NoPlace};
use super::tables::Call::{
    Clear, EntryWithin, Pop, Push, PushReallocating, PushWithin, Reallocate,
};
use super::tables::{BEYOND, Row, Stacks};
use std::cell::Cell;
use std::rc::Rc;
use triple_arena_test_kit::is;

// Each call that may drop an item, on a stack with three places.
const EACH_DROP: &[Row<'_>] = &[
    (Push(1), At(1), 0),
    (Push(2), At(2), 0),
    (Push(3), At(3), 0),
    // an item that the capacity refuses
    (PushWithin(4), NoPlace, 1),
    (Reallocate(3), Done, 1),
    // an item that is taken away, and that isn't dropped before
    (Pop, Item(1), 2),
    // an item that is written over through its entry
    (EntryWithin(5, 6), Done, 3),
    (Clear, Done, 6),
    (PushReallocating(7), At(1), 6),
];

#[test]
fn an_item_on_each_stack_is_dropped_once(rt: HostRuntime) {
    let drops = Rc::new(rt.alloc(), Cell::new(0)).expect(&rt, "memory");
    let (stacks, room) = (Stacks::counting(rt.alloc(), &drops), Some(3));
    stacks.on_heap(room, EACH_DROP).expect(&rt, "on the heap");
    is(drops.replace(0), 7).expect(&rt, "drops of a heap stack");
    let limited = stacks.up_to_limit(room, &[(None, EACH_DROP)]);
    limited.expect(&rt, "up to a limit");
    is(drops.replace(0), 7).expect(&rt, "drops of a limited stack");
    stacks
        .fixed(room, EACH_DROP)
        .expect(&rt, "in a room that stays");
    is(drops.replace(0), 7).expect(&rt, "drops of a fixed stack");
    stacks
        .in_array::<3>(room, EACH_DROP)
        .expect(&rt, "in an array");
    is(drops.get(), 7).expect(&rt, "drops of an array");
}

// Pushes on a full stack that has no way to grow.
const EACH_REFUSED_DROP: &[Row<'_>] = &[(Push(1), BEYOND, 1), (PushReallocating(2), BEYOND, 2)];

#[test]
fn an_item_that_a_stack_refuses_is_dropped_once(rt: HostRuntime) {
    let drops = Rc::new(rt.alloc(), Cell::new(0)).expect(&rt, "memory");
    let stacks = Stacks::counting(rt.alloc(), &drops);
    let limited = stacks.up_to_limit(None, &[(None, EACH_REFUSED_DROP)]);
    limited.expect(&rt, "up to a limit");
    is(drops.replace(0), 2).expect(&rt, "drops of a limited stack");
    stacks
        .fixed(None, EACH_REFUSED_DROP)
        .expect(&rt, "in a room that stays");
    is(drops.replace(0), 2).expect(&rt, "drops of a fixed stack");
    stacks
        .in_array::<0>(None, EACH_REFUSED_DROP)
        .expect(&rt, "in an array");
    is(drops.get(), 2).expect(&rt, "drops of an array");
}
