//! Set points that are saved on the heap, and loaded over an array.

use std::test::*;
use triple_arena::{Arena, ArenaInsertTrait, ArenaTrait, P0};
use triple_arena_snapshot::{Fault, LoadError, to_file_bytes};
use triple_arena_snapshot_uses::{PLACES, load_set_points};
use triple_arena_test_kit::is;

#[test]
fn set_points_are_loaded_over_an_array(rt: HostRuntime) {
    let alloc = rt.alloc();
    let mut edited: Arena<P0, u64> = Arena::on_heap(alloc);
    let low = edited.insert(180).expect(&rt, "memory");
    let gone = edited.insert(200).expect(&rt, "memory");
    let high = edited.insert(240).expect(&rt, "memory");
    drop(edited.remove(gone));
    let file = to_file_bytes(&edited, alloc).expect(&rt, "memory");
    let mut loaded = load_set_points(alloc, &mut file.as_slice()).expect(&rt, "the file");
    is(loaded.get(low).copied(), Some(180)).expect(&rt, "the low one");
    is(loaded.get(gone).is_none(), true).expect(&rt, "one that is gone");
    is(loaded.get(high).copied(), Some(240)).expect(&rt, "the high one");
    is(loaded.insert(220).ok(), edited.insert(220).ok()).expect(&rt, "the next pointer");
    for i in 0..PLACES {
        edited.insert(i as u64).expect(&rt, "memory");
    }
    let file = to_file_bytes(&edited, alloc).expect(&rt, "memory");
    let refusal = load_set_points(alloc, &mut file.as_slice()).err();
    is(refusal, Some(LoadError::Malformed(Fault::Slots, 36))).expect(
        &rt,
        "more than there are places",
    );
}
