//! Worked examples of each call, of chains and of sets of keys.

use crate::tests::chains::Answer::{Done, Entries, Four, Is, NoValue, Refused, Value};
use crate::tests::chains::Call::{
    Advance, All, Backwards, Clear, Compress, Contains, CutAfter, CutBefore, InsertAfter,
    InsertBefore, InsertNew, IsEmpty, Join, Onwards, PushBack, Reallocate, Remove, RemoveChain,
    Rest, Walk, Write,
};
use crate::tests::chains::{Answer, Row, Wrong};
use crate::tests::sets::{Answer as Told, Call};
use crate::tests::{chains, sets};
use std::alloc::Global;
use std::process::Abort;
use triple_arena_chain::ChainError::{NoEntry, NoRoom, Taken};
use triple_arena_surject::SurjectError::{NoEntry as NoSuchKey, NoRoom as NoRoomForKeys};

// The entry of each value in a chain from 1 to 4, and one that isn't there.
const ONE: usize = 2;

const TWO: usize = 0;

const THREE: usize = 3;

const FOUR: usize = 1;

const NONE: usize = 9;

const ONE_TO_FOUR: &[Row] = &[
    (InsertNew(2), Done, 1),
    (InsertAfter(TWO, 4), Done, 2),
    (InsertBefore(TWO, 1), Done, 3),
    (InsertBefore(FOUR, 3), Done, 4),
];

// Makes the calls of a table behind those.
fn follow(rt: &impl Abort, alloc: Global, rows: &[Row]) -> Result<(), Wrong> {
    let mut all = Vec::new(alloc);
    for row in ONE_TO_FOUR {
        all.push(*row).expect(rt, "memory");
    }
    for row in rows {
        all.push(*row).expect(rt, "memory");
    }
    chains::follow(rt, alloc, all.as_slice())
}

const READ_BACKWARDS: &[Row] = &[
    (Backwards(FOUR), Four([4, 3, 2, 1]), 4),
    (Remove(TWO), Answer::Taken(2, 4), 3),
    (Backwards(FOUR), Four([4, 3, 1, 0]), 3),
];

#[test]
fn a_chain_read_backwards(rt: HostRuntime) {
    follow(&rt, rt.alloc(), READ_BACKWARDS).expect(&rt, "its answers");
}

const REMOVED_AND_WRITTEN: &[Row] = &[
    (Onwards(ONE), Four([1, 2, 3, 4]), 4),
    (Remove(TWO), Answer::Taken(2, 4), 3),
    (Onwards(ONE), Four([1, 3, 4, 0]), 3),
    (Write(THREE, 7), Is(true), 3),
    (Onwards(ONE), Four([1, 7, 4, 0]), 3),
];

#[test]
fn values_are_removed_and_written(rt: HostRuntime) {
    follow(&rt, rt.alloc(), REMOVED_AND_WRITTEN).expect(&rt, "their answers");
}

const CUT_AND_JOINED: &[Row] = &[
    (CutAfter(TWO), Done, 4),
    (Onwards(ONE), Four([1, 2, 0, 0]), 4),
    (Join(FOUR, ONE), Done, 4),
    (Onwards(THREE), Four([3, 4, 1, 2]), 4),
    (CutBefore(FOUR), Done, 4),
    (Onwards(THREE), Four([3, 0, 0, 0]), 4),
];

#[test]
fn chains_are_cut_and_joined(rt: HostRuntime) {
    follow(&rt, rt.alloc(), CUT_AND_JOINED).expect(&rt, "their answers");
}

const PUSHED_BACK: &[Row] = &[
    (PushBack(FOUR, 5), Done, 5),
    (PushBack(TWO, 5), Refused(Taken), 5),
    (Onwards(TWO), Four([2, 3, 4, 5]), 5),
];

#[test]
fn a_value_is_pushed_back_at_the_end_alone(rt: HostRuntime) {
    follow(&rt, rt.alloc(), PUSHED_BACK).expect(&rt, "its answers");
}

const COMPRESSED: &[Row] = &[
    (Remove(TWO), Answer::Taken(2, 4), 3),
    (Join(FOUR, ONE), Done, 3),
    (Compress, Done, 3),
    (Onwards(THREE), Four([3, 4, 1, 3]), 3),
];

#[test]
fn a_ring_is_compressed(rt: HostRuntime) {
    follow(&rt, rt.alloc(), COMPRESSED).expect(&rt, "its answers");
}

// Over an arena that has room for two, and never more.
const FILLED: &[Row] = &[
    (IsEmpty, Is(true), 0),
    (InsertNew(1), Done, 1),
    (PushBack(0, 2), Done, 2),
    (All, Entries(2), 2),
    (InsertNew(3), Refused(NoRoom), 2),
    (Reallocate(3), Refused(NoRoom), 2),
    (Reallocate(2), Entries(2), 2),
    (Clear, Done, 0),
    (Onwards(0), Four([0, 0, 0, 0]), 0),
    (InsertNew(4), Done, 1),
    (All, Entries(1), 1),
];

#[test]
fn chains_fill_an_arena_that_has_no_more_room(rt: HostRuntime) {
    chains::follow_within(&rt, rt.alloc(), 2, FILLED).expect(&rt, "their answers");
}

// Beside a chain of 5 alone.
const WALKED_AND_REMOVED: &[Row] = &[
    (InsertNew(5), Done, 5),
    (Join(FOUR, ONE), Done, 5),
    (Walk(THREE), Done, 5),
    (Advance, Value(3), 5),
    (Advance, Value(4), 5),
    (Advance, Value(1), 5),
    (Advance, Value(2), 5),
    (Advance, NoValue, 5),
    (Advance, NoValue, 5),
    (RemoveChain(THREE), Entries(4), 1),
    (Contains(THREE), Is(false), 1),
];

#[test]
fn a_ring_is_walked_and_removed(rt: HostRuntime) {
    follow(&rt, rt.alloc(), WALKED_AND_REMOVED).expect(&rt, "its answers");
}

const RESTS: &[Row] = &[
    (Rest(THREE), Entries(2), 4),
    (Join(FOUR, ONE), Done, 4),
    (Rest(THREE), Entries(4), 4),
    (Rest(NONE), Entries(0), 4),
];

#[test]
fn the_rest_of_a_chain_a_ring_and_nothing(rt: HostRuntime) {
    follow(&rt, rt.alloc(), RESTS).expect(&rt, "their answers");
}

const REFUSED: &[Row] = &[
    (InsertBefore(NONE, 5), Refused(NoEntry), 4),
    (InsertAfter(NONE, 5), Refused(NoEntry), 4),
    (PushBack(NONE, 5), Refused(NoEntry), 4),
    (Write(NONE, 5), Is(false), 4),
    (Remove(NONE), Refused(NoEntry), 4),
    (RemoveChain(NONE), Refused(NoEntry), 4),
    (CutBefore(NONE), Refused(NoEntry), 4),
    (CutAfter(NONE), Refused(NoEntry), 4),
    (Join(FOUR, NONE), Refused(NoEntry), 4),
    (Join(NONE, ONE), Refused(NoEntry), 4),
    (Join(THREE, ONE), Refused(Taken), 4),
    (Join(FOUR, TWO), Refused(Taken), 4),
    (Onwards(ONE), Four([1, 2, 3, 4]), 4),
    (Backwards(FOUR), Four([4, 3, 2, 1]), 4),
];

#[test]
fn calls_that_are_refused_change_nothing(rt: HostRuntime) {
    follow(&rt, rt.alloc(), REFUSED).expect(&rt, "their answers");
}

// Three pins on one net and one on another are wired, renamed and taken off.
const WIRED: &[sets::Row] = &[
    (Call::Insert(1, 10), Told::Done, 1, 1),
    (Call::InsertKey(0, 2), Told::Done, 2, 1),
    (Call::Insert(3, 30), Told::Done, 3, 2),
    (Call::ReplaceVal(1, 20), Told::Val(10), 3, 2),
    (Call::Wire(2, 0), Told::Is(true), 3, 1),
    (Call::Wire(2, 1), Told::Is(false), 3, 1),
    (Call::Net(2, 0), Told::OnNet(Some(20), Some(3), true), 3, 1),
    (Call::Write(2, 40), Told::Is(true), 3, 1),
    (Call::Net(0, 2), Told::OnNet(Some(40), Some(3), true), 3, 1),
    (Call::KeySet(1), Told::Keys(3), 3, 1),
    (Call::SetPtrs(1), Told::Keys(3), 3, 1),
    (Call::SetPtrs(9), Told::Keys(0), 3, 1),
    (Call::IsEmpty, Told::Is(false), 3, 1),
    (Call::RemoveKey(0), Told::Gone(1, None), 2, 1),
    (Call::Contains(0), Told::Is(false), 2, 1),
    (Call::Contains(1), Told::Is(true), 2, 1),
    (Call::Compress, Told::Done, 2, 1),
    (Call::GetKey(2), Told::Key(Some(3)), 2, 1),
    (Call::Remove(2), Told::Val(40), 0, 0),
    (Call::Insert(4, 50), Told::Done, 1, 1),
    (Call::Clear, Told::Done, 0, 0),
    (Call::IsEmpty, Told::Is(true), 0, 0),
];

#[test]
fn each_call_of_sets(rt: HostRuntime) {
    sets::follow(&rt, rt.alloc(), WIRED).expect(&rt, "their answers");
    sets::follow_with_room(&rt, rt.alloc(), 3, 2, WIRED).expect(&rt, "their answers");
}

// The arena of keys has two places, which is its limit, and that of values grows: the second key has a place, and the
// third none.
const TWO_PLACES: &[sets::Row] = &[
    (Call::IsEmpty, Told::Is(true), 0, 0),
    (Call::Insert(1, 10), Told::Done, 1, 1),
    (Call::Insert(2, 20), Told::Done, 2, 2),
    (Call::Insert(3, 30), Told::Refused(NoRoomForKeys), 2, 2),
    (Call::InsertKey(0, 3), Told::Refused(NoRoomForKeys), 2, 2),
    (Call::InsertKey(9, 3), Told::Refused(NoSuchKey), 2, 2),
    (Call::RemoveKey(0), Told::Gone(1, Some(10)), 1, 1),
    (Call::InsertKey(1, 3), Told::Done, 2, 1),
    (Call::Net(2, 1), Told::OnNet(Some(20), Some(2), true), 2, 1),
];

#[test]
fn an_arena_of_sets_that_has_a_place_need_not_grow(rt: HostRuntime) {
    sets::follow_in_two_places(&rt, rt.alloc(), TWO_PLACES).expect(&rt, "their answers");
}
