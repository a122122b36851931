//! Tickets under a path of the disk.

use std::fs;
use std::test::*;
use triple_arena_snapshot_uses::tickets::{Paths, TicketsError, load_tickets, save_tickets};
use triple_arena_test_kit::is;

// Files of this test alone, which it removes.
const PATHS: Paths<'static> = Paths {
    folder: ".",
    saved: "tickets_of_a_test",
    taken: "tickets_of_a_test_taken",
    new: "tickets_of_a_test_new",
};

#[test]
fn tickets_go_on_in_one_process_at_a_time(rt: HostRuntime) {
    let alloc = rt.alloc();
    let mut first = load_tickets(&rt, PATHS, alloc).expect(&rt, "the first start");
    let gone = first.insert(180).expect(&rt, "memory");
    let kept = first.insert(200).expect(&rt, "memory");
    first.remove(gone).expect(&rt, "a ticket");
    save_tickets(&rt, PATHS, first, alloc).expect(&rt, "the file");

    let mut second = load_tickets(&rt, PATHS, alloc).expect(&rt, "the file");
    is(second.get(kept).copied(), Some(200)).expect(&rt, "one that stands");
    is(second.get(gone).is_none(), true).expect(&rt, "one that is gone");
    let new = second.insert(240).expect(&rt, "memory");
    is(new == gone, false).expect(&rt, "a new one");
    // A process that finds no file but the one that was taken begins no tickets of its own.
    let unsaved = matches!(load_tickets(&rt, PATHS, alloc), Err(TicketsError::Unsaved));
    is(unsaved, true).expect(&rt, "a process that didn't save");
    save_tickets(&rt, PATHS, second, alloc).expect(&rt, "the file");

    let third = load_tickets(&rt, PATHS, alloc).expect(&rt, "the file");
    fs::remove_file(&rt, PATHS.taken).expect(&rt, "the file that was taken");
    is(third.get(new).copied(), Some(240)).expect(&rt, "the new one");
}
