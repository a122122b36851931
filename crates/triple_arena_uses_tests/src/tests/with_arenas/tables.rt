use crate::tests::without_arenas::values::Values;
use std::alloc::Global;
use std::process::Abort;
use triple_arena::Arena;
use triple_arena_ptr::PtrGen;
use triple_arena_test_kit::is;
use triple_arena_uses::moving::move_over;
use triple_arena_uses::snapshots::{keep, keep_and_come_back};

// A table of three values.
fn table(rt: &impl Abort, alloc: Global) -> Values {
    let mut table = Arena::on_heap(alloc);
    for value in 1..=3 {
        table.insert(value).expect(rt, "memory");
    }
    table
}

#[test]
fn a_table_is_taken_over_without_room(rt: HostRuntime) {
    let mut from = table(&rt, rt.alloc());
    let mut to: Values = Arena::on_heap(rt.alloc());
    let moved = move_over(&mut from, &mut to, PtrGen::two());
    moved.expect(&rt, "memory");
    is([from.len(), to.len()], [0, 3]).expect(&rt, "entries of both");
}

#[test]
fn a_table_is_kept_without_room(rt: HostRuntime) {
    let mut table = table(&rt, rt.alloc());
    let mut first: Values = Arena::on_heap(rt.alloc());
    keep(&table, &mut first).expect(&rt, "memory");
    let mut second: Values = Arena::on_heap(rt.alloc());
    keep_and_come_back(&mut table, &mut second).expect(&rt, "memory");
    is([first.len(), second.len()], [3, 3]).expect(&rt, "entries that were kept");
}
