//! Notes under a path of the disk.

use std::fs;
use std::test::*;
use triple_arena::{Arena, ArenaInsertTrait, ArenaTrait, P0};
use triple_arena_snapshot_uses::on_disk::{NotesError, load_notes, save_notes};
use triple_arena_test_kit::is;

// A file of this test alone, which it removes.
const PATH: &str = "notes_of_a_test";

#[test]
fn notes_come_back_from_the_disk(rt: HostRuntime) {
    let alloc = rt.alloc();
    let mut notes: Arena<P0, u64> = Arena::on_heap(alloc);
    let gone = notes.insert(180).expect(&rt, "memory");
    let kept = notes.insert(200).expect(&rt, "memory");
    drop(notes.remove(gone));
    let missing = matches!(load_notes(&rt, PATH, alloc), Err(NotesError::Open(_)));
    is(missing, true).expect(&rt, "no file");
    save_notes(&rt, PATH, &notes, alloc).expect(&rt, "the file");
    let mut loaded = load_notes(&rt, PATH, alloc).expect(&rt, "the file");
    fs::remove_file(&rt, PATH).expect(&rt, "the file");
    is(loaded.get(kept).copied(), Some(200)).expect(&rt, "one that stands");
    is(loaded.get(gone).is_none(), true).expect(&rt, "one that is gone");
    is(loaded.insert(240).ok(), notes.insert(240).ok()).expect(&rt, "the next pointer");
}
