//! Arenas of thousands of entries, a long text, and counts of slots that no bytes stand behind.

ghost use Rattle.std.specs.Prelude.{◌≡◌, []};

use std::alloc::Global;
use std::process::Abort;
use std::test::*;
use triple_arena::{
    Arena, ArenaDirectInsertTrait, ArenaSlot, ArenaTrait, NonZeroInxGenericStack, NonZeroInxVec, P0,
};
use triple_arena_direct::into_strict;
use triple_arena_direct_arena::{DirectArena, DirectSlot};
use triple_arena_snapshot::{
    DecodeError, Fault, decode_arena, decode_direct_arena, from_file_bytes, load_arena,
    load_direct_arena, load_strict_arena, save_arena, save_direct_arena, save_strict_arena,
    to_file_bytes,
};
use triple_arena_test_kit::{is, pointer};

/// How many entries are inserted. Where every second is removed 100,001 are left, in a file of 2.6 megabytes.
const ENTRIES: u64 = 200_002;

// A new stack for an arena's slots.
fn slots(alloc: Global) -> NonZeroInxVec<ArenaSlot<P0, u64>>
    ensures { result.items ≡ [] }
{
    NonZeroInxVec::new(alloc)
}

// An arena of so many entries, of which every second one was removed, and their pointers.
fn thinned(rt: &impl Abort, alloc: Global) -> (Arena<P0, u64>, Vec<P0>) {
    let mut arena: Arena<P0, u64> = Arena::on_heap(alloc);
    let mut given = Vec::new(alloc);
    for i in 0..ENTRIES {
        let p = arena.insert(i).expect(rt, "memory");
        given.push(p).expect(rt, "memory");
    }
    for (i, p) in given.iter().enumerate() {
        if i % 2 == 0 {
            drop(arena.remove(*p));
        }
    }
    (arena, given)
}

#[test]
fn thousands_of_entries_are_saved_and_loaded(rt: HostRuntime) {
    let alloc = rt.alloc();
    let (mut arena, given) = thinned(&rt, alloc);
    let mut file = Vec::new(alloc);
    save_arena(&arena, alloc, &mut file).expect(&rt, "memory");
    let mut loaded = load_arena(slots(alloc), alloc, &mut file.as_slice()).expect(&rt, "the file");
    for (i, p) in given.iter().enumerate() {
        let wanted = if i % 2 == 0 { None } else { Some(i as u64) };
        is(loaded.get(*p).copied(), wanted).expect(&rt, "under a pointer");
    }
    let mut again = Vec::new(alloc);
    save_arena(&loaded, alloc, &mut again).expect(&rt, "memory");
    is(again.as_slice() == file.as_slice(), true).expect(&rt, "the file of what was loaded");
    is(loaded.insert(0).ok(), arena.insert(0).ok()).expect(&rt, "the next pointer");
}

#[test]
fn thousands_of_entries_of_a_strict_arena_are_loaded(rt: HostRuntime) {
    let alloc = rt.alloc();
    let (arena, _given) = thinned(&rt, alloc);
    let mut file = Vec::new(alloc);
    match into_strict(arena) {
        Ok(strict) => {
            is(save_strict_arena(strict, alloc, &mut file).is_ok(), true).expect(&rt, "memory");
        }
        Err(_arena) => is(true, false).expect(&rt, "an arena up to its counter"),
    }
    let strict = load_strict_arena(slots(alloc), alloc, &mut file.as_slice()).expect(
        &rt, "the file",
    );
    let mut again = Vec::new(alloc);
    is(save_strict_arena(strict, alloc, &mut again).is_ok(), true).expect(&rt, "memory");
    is(again.as_slice() == file.as_slice(), true).expect(&rt, "the file of what was loaded");
}

#[test]
fn thousands_of_entries_of_a_direct_arena_are_saved_and_loaded(rt: HostRuntime) {
    let alloc = rt.alloc();
    let mut arena: DirectArena<P0, u64> = DirectArena::new(alloc);
    let entries = ENTRIES as usize;
    arena.reallocate_min_capacity(entries).expect(&rt, "memory");
    for i in 1..=entries {
        let p = pointer(i, 2);
        if arena.can_direct_insert(p) {
            arena.direct_insert_reserved(p, i as u64);
        }
    }
    is(arena.len(), entries).expect(&rt, "the number of entries");
    let mut file = Vec::new(alloc);
    save_direct_arena(&arena, alloc, &mut file).expect(&rt, "memory");
    let stack: NonZeroInxVec<DirectSlot<P0, u64>> = NonZeroInxVec::new(alloc);
    let loaded = load_direct_arena(stack, alloc, &mut file.as_slice()).expect(&rt, "the file");
    is(loaded.len(), entries).expect(&rt, "the entries of what was loaded");
    let mut again = Vec::new(alloc);
    save_direct_arena(&loaded, alloc, &mut again).expect(&rt, "memory");
    is(again.as_slice() == file.as_slice(), true).expect(&rt, "the file of what was loaded");
}

// One letter more than 16 bits count.
#[test]
fn a_long_text_is_saved_and_loaded(rt: HostRuntime) {
    let alloc = rt.alloc();
    let mut text = String::new(alloc);
    for _ in 0..65_537 {
        text.push('a').expect(&rt, "memory");
    }
    let file = to_file_bytes(&text, alloc).expect(&rt, "memory");
    let loaded: String = from_file_bytes(alloc, &file).expect(&rt, "the file");
    is(loaded == text, true).expect(&rt, "the text");
}

/// The front of an arena of `P0` that has 2^56 slots.
const COUNTED: [u8; 17] = [
    0xff, 0xff, 0xff, 0xff, 0xff, 0xff, 0xff, 0xff, 8, 0, 0, 0, 0, 0, 0, 0, 1,
];

#[test]
fn no_memory_is_asked_for_by_a_count(rt: HostRuntime) {
    let alloc = rt.alloc();
    let wanted = Some(DecodeError::Malformed(Fault::Cut, 0));
    let refusal = decode_arena(slots(alloc), alloc, &COUNTED).err();
    is(refusal, wanted).expect(&rt, "an arena");
    let stack: NonZeroInxVec<DirectSlot<P0, u64>> = NonZeroInxVec::new(alloc);
    let refusal = decode_direct_arena(stack, alloc, &COUNTED).err();
    is(refusal, wanted).expect(&rt, "a direct arena");
}
