//! The calls of an `Arena` that no line of the shell names.

use crate::tests::arenas::{Numbers, has_text, numbers};
use crate::tests::loops::add_in_each_way;
use std::num::NonZeroU128;
use triple_arena::{Arena, ArenaSlot, ArenaTrait, CompactArenaTrait};
use triple_arena_base::Advancer;
use triple_arena_ptr::{P0, Ptr};
use triple_arena_test_kit::{Wide, inx, is, pointer};

#[test]
fn a_default_slot_is_free(rt: HostRuntime) {
    let slot: ArenaSlot<P0, u64> = ArenaSlot::default();
    is(matches!(slot, ArenaSlot::Free(_)), true).expect(&rt, "whether the slot is free");
}

// The value under a pointer that is looked up by `[]`, over which another is written so.
fn exchange(arena: &mut Numbers, p: P0, value: u64) -> Option<u64> {
    if !arena.contains(p) {
        return None;
    }
    let old = arena[p];
    arena[p] = value;
    Some(old)
}

#[test]
fn each_way_to_write_to_the_values(rt: HostRuntime) {
    let mut arena = numbers(&rt, rt.alloc(), 3, &[]);
    let (first, third) = (pointer(1, 2), pointer(3, 2));
    drop(add_in_each_way(&mut arena));
    let lent = arena.with_disjoint_mut(first, third, |a, b| {
        *b = 7;
        *a
    });
    is(lent.ok(), Some(11_111)).expect(&rt, "the first of two values");
    is(exchange(&mut arena, first, 11_111), Some(11_111)).expect(&rt, "the first value");
    is(exchange(&mut arena, third, 8), Some(7)).expect(&rt, "the third value");
    has_text(
        rt.alloc(),
        &arena,
        "{P0[1](2): 11111, P0[2](2): 11112, P0[3](2): 8}",
    )
    .expect(&rt, "the arena");
}

// Adds ten times the index that a value had, and a hundred times the one that it gets.
fn add_its_indexes(arena: &mut Numbers) -> bool {
    let done = arena.compress_with(false, |old: P0, value, new: P0| {
        let indexes = u64::wrapping_mul(10, old.inx().get() as u64);
        let moved = u64::wrapping_mul(100, new.inx().get() as u64);
        value.wrapping_add(indexes).wrapping_add(moved)
    });
    done.is_success()
}

#[test]
fn a_compression_tells_a_closure_each_move(rt: HostRuntime) {
    let mut arena = numbers(&rt, rt.alloc(), 3, &[2]);
    is(add_its_indexes(&mut arena), true).expect(&rt, "whether no counter wrapped");
    has_text(rt.alloc(), &arena, "{P0[1](4): 111, P0[2](4): 233}").expect(&rt, "the arena");
}

// From the second of five entries on, of which the second and then the fourth were removed, and four are
// inserted while the advancer stands at the last.
#[test]
fn an_advancer_goes_on_while_the_arena_changes(rt: HostRuntime) {
    let mut arena = numbers(&rt, rt.alloc(), 5, &[2, 4]);
    let mut advancer = arena.advancer_inx(inx(2), false);
    is(advancer.advance(&arena), Some(pointer(3, 2))).expect(&rt, "the third entry");
    is(advancer.advance(&arena), Some(pointer(5, 2))).expect(&rt, "the fifth entry");
    is(advancer.advance(&arena), None).expect(&rt, "the end");
    for p in [pointer(4, 4), pointer(2, 4), pointer(6, 4), pointer(7, 4)] {
        is(arena.insert(0), Ok(p)).expect(&rt, "an insertion");
    }
    is(advancer.advance(&arena), Some(pointer(7, 4))).expect(&rt, "the last entry");
}

// Whether each call finds nothing at an index.
fn finds_nothing(arena: &mut Arena<Wide, u64>, inx: NonZeroU128) -> [bool; 8] {
    let p = Wide::_from_raw(inx, pointer::<Wide>(1, 2).generation());
    [
        arena.get_inx(inx).is_none(),
        arena.generation_at(inx).is_none(),
        arena.get(p).is_none(),
        arena.get_inx_mut(inx).is_none(),
        arena.get_mut(p).is_none(),
        arena.remove_inx(inx).is_invalid(),
        arena.invalidate(p).is_invalid(),
        arena.remove(p).is_invalid(),
    ]
}

// The first pointer that an advancer tells from an index on.
fn first_from(arena: &Arena<Wide, u64>, inx: NonZeroU128, reverse: bool) -> Option<Wide> {
    arena.advancer_inx(inx, reverse).advance(arena)
}

// At the first index past 64 bits, at the one that has the lower 64 bits of the entry's, and at the greatest.
#[test]
fn an_index_past_64_bits_has_no_entry(rt: HostRuntime) {
    let mut arena: Arena<Wide, u64> = Arena::on_heap(rt.alloc());
    arena.insert(1).expect(&rt, "memory");
    for index in [1 << 64, (1 << 64) + 1, u128::MAX] {
        let inx = NonZeroU128::new(index).expect(&rt, "an index");
        is(finds_nothing(&mut arena, inx), [true; 8]).expect(&rt, "what each call finds");
    }
    let past = NonZeroU128::new(1 << 64).expect(&rt, "an index");
    is(first_from(&arena, past, true), Some(pointer(1, 2))).expect(&rt, "the entry below");
    is(first_from(&arena, past, false), None).expect(&rt, "an entry above");
}
