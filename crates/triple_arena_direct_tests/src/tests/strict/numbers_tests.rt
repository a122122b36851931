//! Calls of a strict arena that an `Arena` has too, each once, and those that end many entries at once.

use crate::tests::strict::numbers::Numbers;
use crate::tests::tables::Answer::{
    Asked, Done, Drained, Given, Is, NoPlace, NotTwo, Nothing, Pointers, Refused, Written,
};
use crate::tests::tables::Call::{
    AddOne, Drain, Ends, Exchange, ExchangeInx, GenerationAt, GetInx, Insert, InsertReserved,
    InsertWithin, LetEntryGo, RemoveInx, Retain, Slots, Text, Tidy, WriteIndex, WriteInx,
};
use crate::tests::tables::{Row, follow};
use std::alloc::Global;
use std::process::Abort;
use triple_arena_base::GetDisjointMutError::IndexOutOfBounds;
use triple_arena_direct::StrictError::{Exhausted, InvalidPtr};

// Makes the calls of a table on a new strict arena.
fn follow_anew(rt: &impl Abort, alloc: Global, rows: &[Row<'_>]) {
    let mut numbers = Numbers::new(alloc);
    follow(alloc, &mut numbers, rows).expect(rt, "the answers");
}

// Three numbers, by a place made beforehand, an entry and a place that is there.
const ENTRIES: &[Row<'_>] = &[
    (InsertWithin(1), NoPlace),
    (InsertReserved(1), NoPlace),
    (LetEntryGo((1, 2)), Given((1, 2))),
    (InsertReserved(10), Given((1, 2))),
    (Insert(20), Done),
    (InsertWithin(30), Done),
    (Text("{B[1](2): 10, B[2](2): 20, B[3](2): 30}"), Written),
];

#[test]
fn a_strict_arena_has_entries(rt: HostRuntime) {
    follow_anew(&rt, rt.alloc(), ENTRIES);
}

// Numbers, found and written by index and by two.
const BY_INDEX: &[Row<'_>] = &[
    (Insert(10), Done),
    (Insert(20), Done),
    (Insert(30), Done),
    (GetInx(2), Is(20)),
    (GetInx(4), Nothing),
    (GenerationAt(2), Is(2)),
    (WriteInx(2, 21), Done),
    (WriteInx(4, 41), Nothing),
    (WriteIndex((3, 2), 31), Done),
    (AddOne, Done),
    (Ends, Pointers((1, 2), (3, 2))),
    (Exchange((1, 2), (2, 2)), Done),
    (ExchangeInx(2, 3), Done),
    (ExchangeInx(2, 4), NotTwo(IndexOutOfBounds)),
    (Text("{B[1](2): 22, B[2](2): 32, B[3](2): 11}"), Written),
];

#[test]
fn a_strict_arena_is_written_by_index_and_by_two(rt: HostRuntime) {
    follow_anew(&rt, rt.alloc(), BY_INDEX);
}

// A raise of the counter by a removal, and one by a drain.
const REMOVED: &[Row<'_>] = &[(Insert(1), Done), (RemoveInx(1), Is(1))];

const DRAINED: &[Row<'_>] = &[(Insert(10), Done), (Drain, Drained(1, Some(10), 0))];

// Makes the calls of a table, each of which raises the counter once, on a new strict arena, up to the counter's
// end, and then those of another one.
fn follow_to_the_end(rt: &impl Abort, alloc: Global, rows: &[Row<'_>], then: &[Row<'_>]) {
    let mut numbers = Numbers::new(alloc);
    for _ in 2..255 {
        follow(alloc, &mut numbers, rows).expect(rt, "the answers before the end");
    }
    follow(alloc, &mut numbers, then).expect(rt, "the answers");
}

const REMOVED_AT_THE_END: &[Row<'_>] = &[
    (RemoveInx(1), Refused(InvalidPtr)),
    (Insert(1), Done),
    (RemoveInx(1), Refused(Exhausted)),
];

#[test]
fn a_strict_arena_removes_by_index(rt: HostRuntime) {
    follow_to_the_end(&rt, rt.alloc(), REMOVED, REMOVED_AT_THE_END);
}

const TIDIED: &[Row<'_>] = &[
    (Insert(1), Done),
    (Insert(2), Done),
    (Insert(3), Done),
    (Insert(4), Done),
    (Insert(5), Done),
    (RemoveInx(1), Is(1)),
    (RemoveInx(2), Is(2)),
    (RemoveInx(4), Is(4)),
    (RemoveInx(5), Is(5)),
    (Slots, Is(4)),
    (Tidy, Done),
    (Slots, Is(3)),
    (Insert(6), Done),
    (GetInx(1), Is(6)),
];

#[test]
fn a_strict_arena_tidies_its_free_list(rt: HostRuntime) {
    follow_anew(&rt, rt.alloc(), TIDIED);
}

const DRAINS: &[Row<'_>] = &[
    (Insert(10), Done),
    (Insert(20), Done),
    (Insert(30), Done),
    (Drain, Drained(3, Some(10), 2)),
    (Text("{}"), Written),
    (Insert(40), Done),
    (Text("{B[1](3): 40}"), Written),
    (Drain, Drained(1, Some(40), 0)),
    (Drain, Drained(0, None, 0)),
];

#[test]
fn a_strict_drain_counts_what_is_left(rt: HostRuntime) {
    follow_anew(&rt, rt.alloc(), DRAINS);
}

const RETAINED: &[Row<'_>] = &[
    (Insert(10), Done),
    (Insert(20), Done),
    (Insert(30), Done),
    (Retain(20), Asked(3)),
    (Text("{B[2](2): 20, B[3](2): 30}"), Written),
    (Retain(20), Asked(2)),
    (Insert(40), Done),
    (Text("{B[1](3): 40, B[2](2): 20, B[3](2): 30}"), Written),
];

#[test]
fn a_strict_arena_retains_entries(rt: HostRuntime) {
    follow_anew(&rt, rt.alloc(), RETAINED);
}

// Nothing is drained, and no closure is asked.
const KEPT_AT_THE_END: &[Row<'_>] = &[
    (Drain, Drained(0, None, 0)),
    (Insert(20), Done),
    (Drain, Refused(Exhausted)),
    (Retain(20), Refused(Exhausted)),
    (Text("{B[1](ff): 20}"), Written),
];

#[test]
fn a_strict_arena_at_its_end_keeps_entries(rt: HostRuntime) {
    follow_to_the_end(&rt, rt.alloc(), DRAINED, KEPT_AT_THE_END);
}
