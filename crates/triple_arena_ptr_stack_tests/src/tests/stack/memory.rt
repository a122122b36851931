//! Requests for more memory than a vector may hold, which are refused.

use super::tables::Answer::{At, Done, Limit};
use super::tables::Call::{AsSlice, MaxCapacity, Push, Reallocate};
use super::tables::{NO_MEMORY, Row, Stacks, Wrong};
use std::alloc::Global;
use std::mem;
use triple_arena_base::ReallocationError;
use triple_arena_stack::{
    NonZeroInxGenericStack, NonZeroInxLimitedVec, NonZeroInxStack, NonZeroInxVec, SetMaxCapacity,
};
use triple_arena_test_kit::is;

// More items than a vector may hold.
const TOO_MANY: usize = 1 << 61;

#[test]
fn a_constructor_tells_of_no_memory(rt: HostRuntime) {
    let stacks = Stacks::new(rt.alloc());
    // neither a stack of too many items is made, nor one of the most
    for room in [TOO_MANY, usize::MAX] {
        let room = Some(room);
        is(stacks.on_heap(room, &[]), Err(Wrong::NotMade)).expect(&rt, "on the heap");
        is(stacks.up_to_limit(room, &[]), Err(Wrong::NotMade)).expect(&rt, "up to a limit");
        is(stacks.fixed(room, &[]), Err(Wrong::NotMade)).expect(&rt, "in a room that stays");
    }
    let in_array = stacks.in_array::<3>(Some(4), &[]);
    is(in_array, Err(Wrong::NotMade)).expect(&rt, "four in an array of three");
}

// The capacity of a stack that is made with so much room, if it is made.
fn capacity_of<S: NonZeroInxGenericStack<()> + Drop>(alloc: Global, room: usize) -> Option<usize> {
    match S::with_min_capacity(alloc, room) {
        Ok(stack) => Some(stack.capacity()),
        Err(_) => None,
    }
}

// They take no memory, and a vector of the toolchain holds fewer than 2^63 of them.
#[test]
fn items_of_no_size_have_their_greatest_number(rt: HostRuntime) {
    let most = usize::MAX / 2;
    let made = capacity_of::<NonZeroInxVec<()>>(rt.alloc(), most);
    is(made, Some(most)).expect(&rt, "the greatest number");
    let past = capacity_of::<NonZeroInxVec<()>>(rt.alloc(), most + 1);
    is(past, None).expect(&rt, "one more");
}

// With one number in four places.
const REFUSED: &[Row<'_>] = &[
    (Push(1), At(1), 4),
    (Reallocate(TOO_MANY), NO_MEMORY, 4),
    (AsSlice(&[1]), Done, 4),
    (Reallocate(usize::MAX), NO_MEMORY, 4),
    (AsSlice(&[1]), Done, 4),
];

const REFUSED_BELOW_LIMIT: &[(Option<usize>, &[Row<'_>])] = &[
    (Some(usize::MAX), REFUSED),
    (
        Some(usize::MAX),
        &[(MaxCapacity, Limit(Some(usize::MAX)), 4)],
    ),
];

#[test]
fn a_refused_reallocation_changes_nothing(rt: HostRuntime) {
    let stacks = Stacks::new(rt.alloc());
    stacks.on_heap(None, REFUSED).expect(&rt, "on the heap");
    stacks
        .up_to_limit(None, REFUSED_BELOW_LIMIT)
        .expect(&rt, "up to a limit");
}

// So long that two of them are more than a vector may hold. There is none.
type Long = [u64; 1 << 59];

// Whether entries of an empty stack without room are refused, each of which asks for two items or more.
fn refuses_entries<K: NonZeroInxGenericStack<Long>>(stack: &mut NonZeroInxStack<Long, K>) -> bool {
    let refused = Some(ReallocationError::AllocError);
    stack.entry_push().err() == refused
        && stack.entry_push_reallocating().err() == refused
        && stack.entry_push_within_capacity().is_err()
        && stack.reallocate_min_capacity(2) == Err(ReallocationError::AllocError)
        && stack.is_empty()
        && stack.capacity() == 0
}

// The stacks are forgotten, since so long an item could not be dropped.
#[test]
fn a_refused_growth_changes_nothing(rt: HostRuntime) {
    let mut on_heap: NonZeroInxVec<Long> = NonZeroInxStack::new(rt.alloc());
    let is_refused = refuses_entries(&mut on_heap);
    mem::forget(on_heap);
    is(is_refused, true).expect(&rt, "on the heap");
    let mut limited: NonZeroInxLimitedVec<Long> = NonZeroInxStack::new(rt.alloc());
    let is_limited = limited.set_max_capacity(2).is_ok();
    let is_refused = refuses_entries(&mut limited);
    mem::forget(limited);
    is(is_limited, true).expect(&rt, "a limit of two");
    is(is_refused, true).expect(&rt, "up to a limit");
}
