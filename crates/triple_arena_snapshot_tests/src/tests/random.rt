//! An arena that is saved and loaded after each of many random calls, and goes on as what was loaded.

use rand_core::Rng;
use rand_pcg::Pcg64Mcg;
use std::alloc::Global;
use std::process::Abort;
use std::test::*;
use triple_arena::{Arena, ArenaInsertTrait, P3};
use triple_arena_snapshot::{from_file_bytes, to_file_bytes};
use triple_arena_test_kit::is;

type Bytes = Arena<P3, u8>;

// How many pointers are kept, of which at most so many are live.
const PLACES: usize = 7;

// The pointer that the next entry gets, unless a place for it is refused.
fn next(arena: &mut Bytes) -> Option<P3> {
    match arena.make_place() {
        Ok(()) => Some(arena.next_ptr()),
        Err(_) => None,
    }
}

// The arena that is loaded from what this one saves, and is saved alike.
fn come_back(rt: &impl Abort, alloc: Global, saved: &Bytes) -> Bytes {
    let file = to_file_bytes(saved, alloc).expect(rt, "memory");
    let loaded: Bytes = from_file_bytes(alloc, &file).expect(rt, "the file");
    let again = to_file_bytes(&loaded, alloc).expect(rt, "memory");
    is(again.as_slice() == file.as_slice(), true).expect(rt, "the file of what was loaded");
    loaded
}

// That what is loaded answers as what was saved, after each of so many random calls.
#[test]
fn many_random_states_come_back(rt: HostRuntime) {
    let alloc = rt.alloc();
    let mut saved: Bytes = Arena::on_heap(alloc);
    let mut pointers: [Option<P3>; PLACES] = [None; PLACES];
    let mut random = Pcg64Mcg::new(0xcafe_f00d_d15e_a5e5);
    for _ in 0..100_000 {
        let word = random.next_u64();
        let place = (word >> 32) as usize % PLACES;
        match pointers[place] {
            Some(p) if saved.contains(p) => {
                drop(saved.remove(p));
            }
            _ => pointers[place] = saved.insert((word % 256) as u8).ok(),
        }
        let mut loaded = come_back(&rt, alloc, &saved);
        for pointer in pointers.iter() {
            if let Some(p) = *pointer {
                is(loaded.get(p).copied(), saved.get(p).copied()).expect(&rt, "under a pointer");
            }
        }
        is(next(&mut loaded), next(&mut saved)).expect(&rt, "the next pointer");
        saved = loaded;
    }
}
