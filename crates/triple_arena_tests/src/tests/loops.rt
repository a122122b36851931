//! Loops over an arena, and how many items iterators say that are left.

use crate::tests::arenas::{Numbers, numbers};
use std::alloc::Global;
use std::process::Abort;
use triple_arena::CompactArenaTrait;
use triple_arena_ptr::Ptr;
use triple_arena_test_kit::is;

// Entries at 2, 4 and 5, each of its index.
fn three(rt: &impl Abort, alloc: Global) -> Numbers {
    numbers(rt, alloc, 6, &[1, 3, 6])
}

/// What an iterator tells of how many items are left.
pub type Left = (usize, (usize, Option<usize>));

const THREE: Left = (3, (3, Some(3)));

const TWO: Left = (2, (2, Some(2)));

// The sums of indexes and of numbers.
type Sums = (usize, u64);

// What iterators over entries, values and pointers tell, and what a loop over the arena meets.
fn met(arena: &Numbers) -> ([Left; 3], Sums) {
    let (entries, values, pointers) = (arena.iter(), arena.vals(), arena.ptrs());
    let left = [
        (entries.len(), entries.size_hint()),
        (values.len(), values.size_hint()),
        (pointers.len(), pointers.size_hint()),
    ];
    let mut sums = (0usize, 0u64);
    for (p, number) in arena {
        sums.0 = sums.0.wrapping_add(p.inx().get());
        sums.1 = sums.1.wrapping_add(*number);
    }
    (left, sums)
}

/// Adds to each value 10 in a loop over `iter_mut`, 100 by the steps of `vals_mut`, 1000 in a loop over the arena, and
/// 10000 by a closure. What the first two iterators tell before.
pub fn add_in_each_way(arena: &mut Numbers) -> [Left; 2] {
    let entries = arena.iter_mut();
    let left_of_entries = (entries.len(), entries.size_hint());
    for (_p, value) in entries {
        *value = value.wrapping_add(10);
    }
    let mut values = arena.vals_mut();
    let left_of_values = (values.len(), values.size_hint());
    while let Some(value) = values.next() {
        *value = value.wrapping_add(100);
    }
    for (_p, value) in &mut *arena {
        *value = value.wrapping_add(1000);
    }
    arena.for_each_mut(|_p, value| *value = value.wrapping_add(10_000));
    [left_of_entries, left_of_values]
}

// What a drain tells, before a step and behind it, and the sum of the numbers that a loop over the rest takes.
fn drained(arena: &mut Numbers) -> ([Left; 2], u64) {
    let mut drain = arena.drain();
    let first = (drain.len(), drain.size_hint());
    drop(drain.next());
    let second = (drain.len(), drain.size_hint());
    let mut sum = 0u64;
    for taken in drain {
        let (_p, number) = taken.allow();
        sum = sum.wrapping_add(number);
    }
    ([first, second], sum)
}

// What an arena by value tells, and what a loop over it takes.
fn taken(arena: Numbers) -> (Left, Sums) {
    let entries = arena.into_iter();
    let left = (entries.len(), entries.size_hint());
    let mut sums = (0usize, 0u64);
    for (p, number) in entries {
        sums.0 = sums.0.wrapping_add(p.inx().get());
        sums.1 = sums.1.wrapping_add(number);
    }
    (left, sums)
}

// And a loop meets each entry.
#[test]
fn each_iterator_tells_what_is_left(rt: HostRuntime) {
    let mut arena = three(&rt, rt.alloc());
    is(met(&arena), ([THREE; 3], (11, 11))).expect(&rt, "of an arena");
    is(drained(&mut arena), ([THREE, TWO], 9)).expect(&rt, "of a drain");
    is(arena.is_empty(), true).expect(&rt, "whether there is no entry");
    let lent = add_in_each_way(&mut three(&rt, rt.alloc()));
    is(lent, [THREE; 2]).expect(&rt, "of an arena to be written");
    let by_value = taken(three(&rt, rt.alloc()));
    is(by_value, (THREE, (11, 11))).expect(&rt, "of an arena by value");
}
