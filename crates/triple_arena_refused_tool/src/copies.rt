//! Clones, whose values ask for memory too, and transfers.

use crate::calls::{Call, Tried, make_each};
use crate::copying::{Copied, Copying, Goal, Refusal};
use crate::direct::Direct;
use crate::on_heap::OnHeap;
use crate::state::{State, no_entries};
use crate::value::plain;
use std::alloc::Global;
use triple_arena_refused_kit::{End, Report, Wrong, holds};

// An arena with room for four: four entries, of which all but the second are removed, which makes the counter 5.
fn target(alloc: Global) -> Result<OnHeap, Wrong> {
    let calls = [
        Call::Insert(plain(1)),
        Call::Insert(plain(2)),
        Call::Insert(plain(3)),
        Call::Insert(plain(4)),
        Call::Remove(3),
        Call::Remove(1),
        Call::Remove(4),
    ];
    let mut arena = OnHeap::with_room(alloc, 4)?;
    make_each(alloc, &mut arena, &calls)?;
    Ok(arena)
}

// A direct arena of this room, after these calls.
fn direct(alloc: Global, room: usize, calls: &[Call]) -> Result<Direct, Wrong> {
    let mut arena = Direct::with_room(alloc, room)?;
    make_each(alloc, &mut arena, calls)?;
    Ok(arena)
}

// One with room for four: two entries with a gap between them, and a free slot at the end.
fn direct_target(alloc: Global) -> Result<Direct, Wrong> {
    let calls = [
        Call::Place(1, 1, plain(1)),
        Call::Place(3, 9, plain(3)),
        Call::Place(4, 7, plain(4)),
        Call::Remove(4),
    ];
    direct(alloc, 4, &calls)
}

// Inserts the numbers up to five.
fn insert_five(alloc: Global, arena: &mut OnHeap) -> Result<(), Wrong> {
    let calls = [
        Call::Insert(plain(1)),
        Call::Insert(plain(2)),
        Call::Insert(plain(3)),
        Call::Insert(plain(4)),
        Call::Insert(plain(5)),
    ];
    make_each(alloc, arena, &calls)
}

// Five numbers, and no more room.
fn numbers(alloc: Global) -> Result<OnHeap, Wrong> {
    let mut arena = OnHeap::with_room(alloc, 5)?;
    insert_five(alloc, &mut arena)?;
    Ok(arena)
}

// Five entries, of which the second and the fourth are removed, which makes the counter 4.
fn source(alloc: Global) -> Result<OnHeap, Wrong> {
    let mut source = numbers(alloc)?;
    make_each(alloc, &mut source, &[Call::Remove(2), Call::Remove(4)])?;
    Ok(source)
}

fn direct_source(alloc: Global) -> Result<Direct, Wrong> {
    let calls = [
        Call::Place(5, 2, plain(5)),
        Call::Place(1, 9, plain(1)),
        Call::Place(3, 1, plain(3)),
    ];
    direct(alloc, 5, &calls)
}

// What stands where so many entries of the source were cloned, in an arena that had this state.
fn cloned(before: &State, count: usize) -> State {
    let mut entries = no_entries();
    for at in 0..3 {
        if at < count {
            entries[2 * at] = Some((2, 2 * at as u64 + 1));
        }
    }
    let state = State {
        len: count,
        capacity: 5,
        counter: before.counter.and(Some(4)),
        entries,
        ..*before
    };
    state.tidied()
}

// The values that are cloned, in their order.
const VALUES: [&str; 3] = ["the first value", "the second value", "the third value"];

// How a refused clone ended that left this: without room all is as it was, but for the order of the
// free list; where a value was refused, just the clones before it stand. None where something else stands.
fn end_at(refusal: Refusal, before: &State, seen: &State) -> Option<End> {
    match (refusal, VALUES.get(seen.len)) {
        (Refusal::Room, _) if *seen == before.refused() => Some(End::Refused),
        (Refusal::Value, Some(value)) if *seen == cloned(before, seen.len) => {
            Some(End::PartRefused(*value))
        }
        _ => None,
    }
}

// How it ended, where it did, and this holds.
fn ended(end: Option<End>, it: bool) -> Result<End, Wrong> {
    match end {
        Some(end) if it => Ok(end),
        _ => Err(Wrong::State(3)),
    }
}

// How often a closure was called by a clone that ended so, of which so many values stand: up to its first refusal.
fn calls_up_to(copying: Copying, end: Option<End>, count: usize) -> usize {
    match copying {
        Copying::ByClosure if end != Some(End::Refused) => count.saturating_add(1),
        _ => 0,
    }
}

// What a clone tells of which all three values stand.
fn all_cloned(copying: Copying) -> Copied {
    match copying {
        Copying::ByClosure => (None, 3),
        _ => (None, 0),
    }
}

// A clone into an arena, and once more where it is refused.
fn clones_into<A: Tried + Goal>(
    target: &mut A,
    source: &mut OnHeap,
    copying: Copying,
) -> Result<End, Wrong> {
    let (before, of_source) = (target.seen(), source.seen());
    let mut copied = target.take(source, copying);
    let (mut end, mut is_called) = (Some(End::Ample), true);
    if let (Some(refusal), calls) = copied {
        let seen = target.seen();
        end = end_at(refusal, &before, &seen);
        is_called = calls == calls_up_to(copying, end, seen.len);
        copied = target.take(source, copying);
    }
    let is_cloned = target.seen() == cloned(&before, 3) && source.seen() == of_source;
    ended(end, is_cloned && is_called && copied == all_cloned(copying))
}

// How a clone ended that was refused, and that leaves nothing.
fn end_of(refusal: Refusal) -> Option<End> {
    match refusal {
        Refusal::Room => Some(End::Refused),
        Refusal::Value => Some(End::PartRefused("a value")),
        Refusal::Limit => None,
    }
}

// A clone, and once more where it is refused. It is as its original, which stays as it was, but
// that the free list is tidied.
fn clones<A: Tried + Goal>(alloc: Global, source: &A) -> Result<End, Wrong> {
    let before = source.seen();
    let mut told = source.state_of_clone(alloc);
    let mut end = Some(End::Ample);
    if let Err(refusal) = told {
        end = end_of(refusal);
        told = source.state_of_clone(alloc);
    }
    let is_cloned = told == Ok(before.refused()) && source.seen() == before;
    ended(end, is_cloned)
}

// What stands where five entries went over, from index 1 on, under generation 2.
fn gone_over(before: &State) -> State {
    let mut entries = no_entries();
    for at in 0..5 {
        entries[at] = Some((2, at as u64 + 1));
    }
    let state = State {
        len: 5,
        capacity: 5,
        slots: 5,
        counter: before.counter.and(Some(2)),
        entries,
        ..*before
    };
    state.tidied()
}

// Five entries go over to an arena with room for four, and once more where that is refused. Then there is room for five more,
// which takes no memory.
fn goes_over<A: Tried + Goal>(
    alloc: Global,
    target: &mut A,
    source: &mut OnHeap,
) -> Result<End, Wrong> {
    let (before, of_source) = (target.seen(), source.seen());
    let mut told = target.take(source, Copying::Transferred);
    let (mut end, mut is_left) = (End::Ample, true);
    if told == (Some(Refusal::Room), 0) {
        is_left = source.seen() == of_source && target.seen() == before.refused();
        told = target.take(source, Copying::Transferred);
        end = End::Refused;
    }
    let is_gone = source.seen().len == 0 && target.seen() == gone_over(&before);
    holds(is_left && is_gone && told == (None, 0), Wrong::State(3))?;
    insert_five(alloc, source)?;
    let told = target.take(source, Copying::Transferred);
    holds(told == (None, 0) && source.seen().len == 0, Wrong::State(4))?;
    Ok(end)
}

fn transfer(alloc: Global) -> Result<End, Wrong> {
    let mut source = numbers(alloc)?;
    goes_over(alloc, &mut target(alloc)?, &mut source)
}

fn direct_transfer(alloc: Global) -> Result<End, Wrong> {
    let mut source = numbers(alloc)?;
    goes_over(alloc, &mut direct_target(alloc)?, &mut source)
}

fn clone_into(alloc: Global, source: &mut OnHeap, copying: Copying) -> Result<End, Wrong> {
    clones_into(&mut target(alloc)?, source, copying)
}

fn clone_directly(alloc: Global, source: &mut OnHeap, copying: Copying) -> Result<End, Wrong> {
    clones_into(&mut direct_target(alloc)?, source, copying)
}

fn direct_clone(alloc: Global) -> Result<End, Wrong> {
    clones(alloc, &direct_source(alloc)?)
}

// Each clone of an arena into another.
const CLONES: &[(&str, Copying)] = &[
    ("clone_from", Copying::Cloned),
    ("clone_from_with", Copying::ByClosure),
];

// Each clone of an arena.
fn each_clone_of(alloc: Global, source: &mut OnHeap, report: &mut Report) {
    report.note("clone", "an arena", clones(alloc, source));
    for (name, copying) in CLONES {
        report.note(*name, "an arena", clone_into(alloc, source, *copying));
        report.note(
            *name,
            "a direct arena",
            clone_directly(alloc, source, *copying),
        );
    }
}

pub fn try_each(alloc: Global, report: &mut Report) {
    match source(alloc) {
        Ok(mut source) => each_clone_of(alloc, &mut source, report),
        Err(wrong) => report.note("made", "an arena", Err(wrong)),
    }
    report.note("clone", "a direct arena", direct_clone(alloc));
    let call = "transfer_reallocating";
    report.note(call, "an arena", transfer(alloc));
    report.note(call, "a direct arena", direct_transfer(alloc));
}
