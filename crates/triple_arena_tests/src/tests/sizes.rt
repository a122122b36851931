//! Arenas of thousands of entries and of few indexes, and values of no size.

use crate::tests::arenas::{Numbers, numbers};
use std::alloc::Global;
use std::process::Abort;
use triple_arena::Arena;
use triple_arena_base::ReallocationError;
use triple_arena_ptr::{P0, Ptr};
use triple_arena_test_kit::{Narrow, is, pointer};

// 5000 insertions, the ends of every second, and as many insertions again.
fn thousands(rt: &impl Abort, alloc: Global) -> Numbers {
    let mut arena: Numbers = Arena::on_heap(alloc);
    for number in 1..=5000 {
        is(arena.insert(number), Ok(pointer(number as usize, 2))).expect(rt, "an insertion");
    }
    for half in 1..=2500 {
        is(arena.remove(pointer(2 * half, 2)).is_success(), true).expect(rt, "a removal");
    }
    for _ in 0..2500 {
        arena.insert(0).expect(rt, "memory");
    }
    arena
}

// Then a clone and a compression.
#[test]
fn thousands_of_entries(rt: HostRuntime) {
    let arena = thousands(&rt, rt.alloc());
    is(arena.len(), 5000).expect(&rt, "the length");
    is(arena.capacity(), 8192).expect(&rt, "the capacity");
    let mut copy = arena.clone(rt.alloc()).expect(&rt, "memory");
    is(copy.compress(false).is_success(), true).expect(&rt, "whether no counter wrapped");
    is(copy.contains(pointer(5000, 2503)), true).expect(&rt, "whether the last entry is there");
}

// Of three values the second is removed, and a fourth is inserted.
#[test]
fn values_of_no_size_have_their_pointers(rt: HostRuntime) {
    let mut arena: Arena<P0, ()> = Arena::on_heap(rt.alloc());
    let first = arena.insert(()).expect(&rt, "memory");
    let second = arena.insert(()).expect(&rt, "memory");
    let third = arena.insert(()).expect(&rt, "memory");
    is(arena.remove(second).is_success(), true).expect(&rt, "whether the second is removed");
    let fourth = arena.try_insert(()).expect(&rt, "memory");
    is(arena.contains(first), true).expect(&rt, "whether the first is there");
    is(arena.contains(third), true).expect(&rt, "whether the third is there");
    is(arena.contains(fourth), true).expect(&rt, "whether the fourth is there");
    is(arena.contains(second), false).expect(&rt, "the second");
    is(arena.len(), 3).expect(&rt, "the length");
}

// Has the numbers go over to an arena, under the generation 7.
fn transfer(
    target: &mut Arena<Narrow, u64>,
    source: &mut Numbers,
) -> Result<(), ReallocationError> {
    let seven = pointer::<Narrow>(1, 7).generation();
    target.transfer_reallocating(seven, source, |_old, taken, _new| taken.allow())
}

// Of 256 numbers and then of 255, to an arena with so many indexes.
#[test]
fn a_transfer_past_the_greatest_index_is_refused(rt: HostRuntime) {
    let mut source = numbers(&rt, rt.alloc(), 256, &[]);
    let mut target: Arena<Narrow, u64> = Arena::on_heap(rt.alloc());
    let refused = transfer(&mut target, &mut source);
    is(refused, Err(ReallocationError::AllocError)).expect(&rt, "the refusal");
    is([source.len(), target.len()], [256, 0]).expect(&rt, "the lengths");
    drop(source.remove(pointer(1, 2)));
    is(transfer(&mut target, &mut source), Ok(())).expect(&rt, "what fits");
    is([source.len(), target.len()], [0, 255]).expect(&rt, "the lengths then");
    is(target.get(pointer(255, 7)).copied(), Some(256)).expect(&rt, "the last number");
}
