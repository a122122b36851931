//! Strict arenas at the end of their counter, and before it: compaction, room, walks and what they become.

use crate::tests::strict::nodes::Nodes;
use crate::tests::tables::Answer::{Done, Given, Is, Met, Node, Refused, Written};
use crate::tests::tables::Call::{
    Capacity, Clear, Compress, CompressRecast, CompressWith, Generation, Get, Index, Insert,
    InsertHalves, InsertLinked, InsertReallocating, InsertWithin, Invalidate, Len, RaiseTo,
    Reallocate, Remove, Text, TextInside, TryInsert, Walk,
};
use crate::tests::tables::{Row, follow};
use std::alloc::Global;
use std::process::Abort;
use triple_arena_direct::StrictError::{Exhausted, InvalidPtr};
use triple_arena_test_kit::is;

// Makes the calls of a table on a new strict arena.
fn follow_anew(rt: &impl Abort, alloc: Global, rows: &[Row<'_>]) {
    let mut nodes = Nodes::new(rt, alloc, 0);
    follow(alloc, &mut nodes, rows).expect(rt, "the answers");
}

const ENDS_NOTHING: &[Row<'_>] = &[
    (RaiseTo(255), Done),
    (Insert(1), Given((1, 255))),
    (Remove((1, 255)), Refused(Exhausted)),
    (Invalidate((1, 255)), Refused(Exhausted)),
    (Clear, Refused(Exhausted)),
    (Compress, Refused(Exhausted)),
    (CompressWith, Refused(Exhausted)),
    (CompressRecast("Err(Exhausted)"), Written),
    (Get((1, 255)), Node(1, None)),
    (Remove((1, 2)), Refused(InvalidPtr)),
    (InsertLinked(2, (1, 255)), Given((2, 255))),
    (InsertWithin(3), Given((3, 255))),
    (
        Text("{B[1](ff): (1, None), B[2](ff): (2, Some(B[1](ff))), B[3](ff): (3, None)}"),
        Written,
    ),
];

#[test]
fn nothing_ends_at_the_end_of_the_counter(rt: HostRuntime) {
    follow_anew(&rt, rt.alloc(), ENDS_NOTHING);
}

const WITHOUT_ENTRIES: &[Row<'_>] = &[
    (RaiseTo(255), Done),
    (Clear, Done),
    (Compress, Done),
    (CompressWith, Done),
    (CompressRecast("Ok({})"), Written),
    (Generation, Is(255)),
];

#[test]
fn without_entries_nothing_is_refused(rt: HostRuntime) {
    follow_anew(&rt, rt.alloc(), WITHOUT_ENTRIES);
}

// A node with a link to none.
const DANGLES_AT_THE_END: &[Row<'_>] = &[
    (RaiseTo(255), Done),
    (InsertLinked(1, (9, 9)), Given((1, 255))),
    (CompressRecast("Err(Exhausted)"), Written),
    (Generation, Is(255)),
];

const DANGLES_BEFORE_THE_END: &[Row<'_>] = &[
    (RaiseTo(254), Done),
    (InsertLinked(1, (9, 9)), Given((1, 254))),
    (CompressRecast("Err(Compact(Unresolved(B[9](9))))"), Written),
    (Generation, Is(254)),
];

#[test]
fn the_counter_comes_before_a_dangling_link(rt: HostRuntime) {
    follow_anew(&rt, rt.alloc(), DANGLES_AT_THE_END);
    follow_anew(&rt, rt.alloc(), DANGLES_BEFORE_THE_END);
}

const RENEWED: &[Row<'_>] = &[
    (
        Text("{B[1](2): (1, None), B[2](2): (2, Some(B[1](2))), B[3](2): (3, None)}"),
        Written,
    ),
    (Remove((3, 2)), Node(3, None)),
    (Generation, Is(3)),
];

// The nodes of `ENDS_NOTHING` under new pointers, of which one can end again.
#[test]
fn a_strict_arena_is_renewed_at_the_end_of_the_counter(rt: HostRuntime) {
    let text = "Ok({B[1](ff): B[1](2), B[2](ff): B[2](2), B[3](ff): B[3](2)})";
    let mut nodes = Nodes::new(&rt, rt.alloc(), 0);
    follow(rt.alloc(), &mut nodes, ENDS_NOTHING).expect(&rt, "the answers");
    let mut renewed = nodes.renewed(&rt, rt.alloc(), text);
    follow(rt.alloc(), &mut renewed, RENEWED).expect(&rt, "the answers then");
}

#[test]
fn a_dangling_link_refuses_a_renewal(rt: HostRuntime) {
    let dangling = [(InsertLinked(1, (9, 9)), Given((1, 2)))];
    let mut nodes = Nodes::new(&rt, rt.alloc(), 0);
    follow(rt.alloc(), &mut nodes, &dangling).expect(&rt, "the answer");
    let mut nodes = nodes.renewed(&rt, rt.alloc(), "Err(Unresolved(B[9](9)))");
    let unchanged = [(Text("{B[1](2): (1, Some(B[9](9)))}"), Written)];
    follow(rt.alloc(), &mut nodes, &unchanged).expect(&rt, "the arena");
}

const LAST_RAISE: &[Row<'_>] = &[
    (RaiseTo(253), Done),
    (Insert(5), Given((1, 253))),
    (Invalidate((1, 253)), Given((1, 254))),
    (Compress, Done),
    (Text("{B[1](ff): (5, None)}"), Written),
    (Compress, Refused(Exhausted)),
];

#[test]
fn the_last_raise_is_done(rt: HostRuntime) {
    follow_anew(&rt, rt.alloc(), LAST_RAISE);
}

const LINKED: &[Row<'_>] = &[
    (Insert(1), Given((1, 2))),
    (Insert(2), Given((2, 2))),
    (InsertLinked(3, (2, 2)), Given((3, 2))),
    (Remove((1, 2)), Node(1, None)),
    (
        CompressRecast("Ok({B[2](2): B[1](4), B[3](2): B[2](4)})"),
        Written,
    ),
    (
        TextInside("{B[1](4): (2, None), B[2](4): (3, Some(B[1](4)))}"),
        Written,
    ),
];

#[test]
fn links_follow_a_compaction(rt: HostRuntime) {
    follow_anew(&rt, rt.alloc(), LINKED);
}

// In an arena of two places.
const ROOM: &[Row<'_>] = &[
    (Capacity, Is(2)),
    (InsertReallocating(1), Given((1, 2))),
    (InsertReallocating(2), Given((2, 2))),
    (InsertReallocating(3), Given((3, 2))),
    (Capacity, Is(4)),
    (Reallocate(0), Done),
    (Capacity, Is(3)),
    (TryInsert(4), Given((4, 2))),
    (Get((4, 2)), Node(4, None)),
];

#[test]
fn room_is_as_that_of_an_arena(rt: HostRuntime) {
    let mut nodes = Nodes::new(&rt, rt.alloc(), 2);
    follow(rt.alloc(), &mut nodes, ROOM).expect(&rt, "the answers");
}

const THOUSANDS: &[Row<'_>] = &[
    (InsertHalves(50_000), Done),
    (Len, Is(100_000)),
    (Capacity, Is(131_072)),
];

#[test]
fn thousands_of_entries_in_a_strict_arena(rt: HostRuntime) {
    follow_anew(&rt, rt.alloc(), THOUSANDS);
}

const WALKED: &[Row<'_>] = &[
    (Insert(10), Given((1, 2))),
    (Insert(20), Given((2, 2))),
    (Walk, Met(30, 30, 2)),
    (Index((2, 2)), Node(20, None)),
];

#[test]
fn walks_meet_all_entries_and_the_values_leave(rt: HostRuntime) {
    let mut nodes = Nodes::new(&rt, rt.alloc(), 0);
    follow(rt.alloc(), &mut nodes, WALKED).expect(&rt, "the answers");
    is(nodes.sum(), 30).expect(&rt, "the sum of the numbers");
}
