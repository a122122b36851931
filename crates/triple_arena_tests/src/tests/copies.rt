//! Worked copies from one arena to another.

use crate::tests::arenas::{Numbers, has_text, numbers};
use std::num::NonZeroU64;
use triple_arena::{
    Arena, ArenaCloneFromWith, ArenaDirectInsertEntryTrait, ArenaDirectInsertTrait,
    ArenaInsertTrait, ArenaSlot, ArenaTrait,
};
use triple_arena_base::{CloneFromError, ReallocationError};
use triple_arena_direct_arena::DirectArena;
use triple_arena_ptr::{P0, Ptr, Q2};
use triple_arena_stack::{NonZeroInxGenericStack, NonZeroInxLimitedVec};
use triple_arena_test_kit::{is, is_shown, pointer};

#[test]
fn arenas_cloned_into_each_other_keep_their_room(rt: HostRuntime) {
    let mut first = numbers(&rt, rt.alloc(), 10, &[9, 10]);
    let mut second: Numbers = Arena::on_heap(rt.alloc());
    second.clone_from(&first).expect(&rt, "memory");
    is(second.capacity(), 8).expect(&rt, "the capacity of the clone");
    is(second.singular_generation(), NonZeroU64::new(4)).expect(&rt, "the generation");
    first.clone_from(&second).expect(&rt, "memory");
    is(first.capacity(), 16).expect(&rt, "the capacity of the source");
    is(first.backing().len(), 8).expect(&rt, "how many slots there are");
    second.clone_from(&first).expect(&rt, "memory");
    is(second.capacity(), 8).expect(&rt, "the capacity of the clone");
}

// A number, unless it is the refused one.
fn unless(number: u64, refused: u64) -> Result<u64, u64> {
    if number == refused {
        Err(number)
    } else {
        Ok(number)
    }
}

// Which number is refused, what the target holds then, and the index of its next pointer.
const REFUSED: &[(u64, &str, usize)] = &[
    (1, "{}", 1),
    (3, "{P0[1](2): 1}", 2),
    (5, "{P0[1](2): 1, P0[3](2): 3}", 2),
];

// So in a target of seven.
#[test]
fn a_map_that_refuses_leaves_those_before(rt: HostRuntime) {
    let source = numbers(&rt, rt.alloc(), 5, &[2, 4]);
    for row in REFUSED {
        let (refused, text, next) = *row;
        let mut target = numbers(&rt, rt.alloc(), 7, &[]);
        let told = target.clone_from_with(&source, |_p, number: &u64| unless(*number, refused));
        is(told, Err(CloneFromError::Map(refused))).expect(&rt, "the refusal");
        has_text(rt.alloc(), &target, text).expect(&rt, "the target");
        is(target.insert(0), Ok(pointer(next, 4))).expect(&rt, "the next pointer");
    }
}

// It has the texts of numbers, of which one was removed before, and one is inserted then.
#[test]
fn a_mirror_of_texts_keeps_the_pointers(rt: HostRuntime) {
    let alloc = rt.alloc();
    let mut numbers: Numbers = Arena::on_heap(alloc);
    let first = numbers.insert(42).expect(&rt, "memory");
    numbers.insert(1337).expect(&rt, "memory");
    drop(numbers.remove(first));
    let mut mirror: DirectArena<P0, String> = DirectArena::new(alloc);
    let told = mirror.clone_from_with(&numbers, |_p, number: &u64| format!(in alloc; "{number}"));
    told.expect(&rt, "memory");
    is_shown(alloc, &mirror, r#"{P0[2](2): "1337"}"#).expect(&rt, "the mirror");
    is(mirror.capacity(), 2).expect(&rt, "the capacity");
    let p = numbers.insert(7).expect(&rt, "memory");
    let seven = String::from_str(alloc, "7").expect(&rt, "memory");
    is(is_noted(&mut mirror, p, seven), true).expect(&rt, "whether there is a place");
    is_shown(alloc, &mirror, r#"{P0[1](3): "7", P0[2](2): "1337"}"#).expect(&rt, "the mirror");
    // another pointer of a free index is as good
    drop(mirror.remove_inx(p.inx()));
    is(mirror.can_direct_insert(pointer(1, 1)), true).expect(&rt, "whether there is a place");
}

// Inserts a text by an entry within the capacity: whether there was a place.
fn is_noted(mirror: &mut DirectArena<P0, String>, p: P0, text: String) -> bool {
    match mirror.direct_insert_within_capacity(p) {
        Ok(entry) => {
            entry.insert(text);
            true
        }
        Err(_) => false,
    }
}

// A new arena over its stack has no place.
#[test]
fn an_arena_under_a_limit_has_no_clone(rt: HostRuntime) {
    let mut arena: Arena<P0, u64, NonZeroInxLimitedVec<ArenaSlot<P0, u64>>> =
        Arena::with_min_capacity(rt.alloc(), 1).expect(&rt, "memory");
    let p = arena.insert(7).expect(&rt, "a place");
    let beyond = CloneFromError::Reallocation(ReallocationError::BeyondMaxCapacity);
    is(arena.clone(rt.alloc()).err(), Some(beyond)).expect(&rt, "the refusal");
    is(arena.get(p).copied(), Some(7)).expect(&rt, "the value");
}

// The last two of three numbers go over to an arena of other pointers.
#[test]
fn a_transfer_renumbers_and_empties_its_source(rt: HostRuntime) {
    let alloc = rt.alloc();
    let mut source = numbers(&rt, alloc, 3, &[1]);
    let mut target: Arena<Q2, u64> = Arena::on_heap(alloc);
    let seven = pointer::<Q2>(1, 7).generation();
    target
        .transfer_reallocating(seven, &mut source, |_old, taken, _new| taken.allow())
        .expect(&rt, "memory");
    has_text(alloc, &target, "{Q2[1](7): 2, Q2[2](7): 3}").expect(&rt, "the target");
    is(target.capacity(), 2).expect(&rt, "the capacity");
    is(source.is_empty(), true).expect(&rt, "whether the source has no entry");
    is(source.singular_generation(), NonZeroU64::new(5)).expect(&rt, "the generation");
    is(source.insert(4), Ok(pointer(2, 5))).expect(&rt, "the next pointer");
}
