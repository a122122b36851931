//! Arenas, direct arenas and strict arenas: how they are made, insertions and reallocations.

use crate::calls::{Call, Tried, make_each};
use crate::direct::Direct;
use crate::limited::{LIMIT, Limited};
use crate::on_heap::OnHeap;
use crate::state::{State, no_entries};
use crate::strict::Strict;
use crate::told::{NO_MEMORY, Told};
use crate::value::{Row, plain};
use std::alloc::Global;
use triple_arena_refused_kit::{End, FreeList, Report, SLOTS, Wrong, free_indexes, holds};

// The name of a call, and the call.
type Named = (&'static str, Call);

// What is inserted into a full arena.
const NINE: Row = Row {
    number: 9,
    link: None,
    net: None,
};

// Insertions that ask for memory, of an arena.
const INSERTIONS: &[Named] = &[
    ("insert", Call::Insert(NINE)),
    ("insert_reallocating", Call::InsertReallocating(NINE)),
    ("entry_insert", Call::EntryInsert(NINE)),
    (
        "entry_insert_reallocating",
        Call::EntryInsertReallocating(NINE),
    ),
];

// So of a strict one, without those by entries.
const STRICT_INSERTIONS: &[Named] = &[
    ("insert", Call::Insert(NINE)),
    ("insert_reallocating", Call::InsertReallocating(NINE)),
];

// Makes a call, and once more where memory is refused, which leaves `left`.
fn call_twice<A: Tried>(
    alloc: Global,
    arena: &mut A,
    call: Call,
    left: &State,
    expected: Told,
) -> Result<End, Wrong> {
    let told = arena.answer(alloc, call);
    if told != NO_MEMORY {
        holds(told == expected, Wrong::Answer(0))?;
        return Ok(End::Ample);
    }
    let is_left = arena.seen() == *left;
    let is_told = arena.answer(alloc, call) == expected;
    holds(is_left && is_told, Wrong::State(0))?;
    Ok(End::Refused)
}

// The same insertion, of another row.
fn with_row(call: Call, row: Row) -> Call {
    match call {
        Call::InsertReallocating(_) => Call::InsertReallocating(row),
        Call::EntryInsert(_) => Call::EntryInsert(row),
        Call::EntryInsertReallocating(_) => Call::EntryInsertReallocating(row),
        _ => Call::Insert(row),
    }
}

// Whether entries have their indexes as numbers up to this length, once they are inserted by such a call, for which there
// is room.
fn fill_to<A: Tried>(alloc: Global, arena: &mut A, call: Call, len: usize) -> bool {
    let mut is_done = true;
    for index in arena.seen().len.saturating_add(1)..=len {
        let told = arena.answer(alloc, with_row(call, plain(index as u64)));
        is_done &= told == Told::At(index, 2);
    }
    is_done
}

// What stands where a full arena has one entry more, of 9, and doubled its room.
fn grown(full: State) -> State {
    let mut entries = full.entries;
    if full.slots < SLOTS {
        entries[full.slots] = Some((2, 9));
    }
    State {
        len: full.len.saturating_add(1),
        capacity: full.capacity.saturating_mul(2),
        slots: full.slots.saturating_add(1),
        entries,
        ..full
    }
}

// Fills an arena under this limit by insertions that take no memory, and then makes one more, which doubles the room.
fn grows<A: Tried>(
    alloc: Global,
    arena: &mut A,
    call: Call,
    limit: Option<usize>,
) -> Result<End, Wrong> {
    let capacity = arena.seen().capacity;
    let is_filled = fill_to(alloc, arena, call, capacity);
    let full = arena.seen();
    let is_full = full.len == full.capacity && full.limit == limit;
    let index = full.len.saturating_add(1);
    let end = call_twice(alloc, arena, call, &full, Told::At(index, 2))?;
    let is_grown = arena.seen() == grown(full);
    holds(is_filled && is_full && is_grown, Wrong::State(index))?;
    Ok(end)
}

// Each insertion into an arena with room for four, under this limit.
fn each_growth<A: Tried>(
    alloc: Global,
    arena: &mut A,
    limit: Option<usize>,
    calls: &[Named],
    kind: &'static str,
    report: &mut Report,
) {
    for (name, call) in calls {
        report.note(*name, kind, grows(alloc, arena, *call, limit));
    }
}

// So into one of each kind, where it could be made. What is generic can't drop it.
fn grow(alloc: Global, report: &mut Report) {
    let kind = "an arena";
    match OnHeap::with_room(alloc, 4) {
        Ok(mut arena) => each_growth(alloc, &mut arena, None, INSERTIONS, kind, report),
        Err(wrong) => report.note("made", kind, Err(wrong)),
    }
}

fn grow_limited(alloc: Global, report: &mut Report) {
    let (kind, limit) = ("an arena under a limit", Some(LIMIT));
    match Limited::with_room(alloc, 4) {
        Ok(mut arena) => each_growth(alloc, &mut arena, limit, INSERTIONS, kind, report),
        Err(wrong) => report.note("made", kind, Err(wrong)),
    }
}

fn grow_strict(alloc: Global, report: &mut Report) {
    let kind = "a strict arena";
    match Strict::with_room(alloc, 4) {
        Ok(mut arena) => each_growth(alloc, &mut arena, None, STRICT_INSERTIONS, kind, report),
        Err(wrong) => report.note("made", kind, Err(wrong)),
    }
}

// What stands in four slots of which the second and the fourth have entries, of these generations, and of their
// indexes as numbers.
fn two_left(first: u64, second: u64, limit: Option<usize>, counter: Option<u64>) -> State {
    let mut entries = no_entries();
    entries[1] = Some((first, 2));
    entries[3] = Some((second, 4));
    State {
        len: 2,
        capacity: 4,
        limit,
        counter,
        slots: 4,
        entries,
        free: FreeList::Missing,
    }
}

// A reallocation to more of an arena with room for eight, and then one to less, which is never refused: where the
// allocator refuses to take some back, it is kept. After the first so many slots stand, and after the second `left`.
fn goes_up_and_down<A: Tried>(
    alloc: Global,
    arena: &mut A,
    slots: usize,
    left: &State,
) -> Result<End, Wrong> {
    let refused = arena.seen().refused();
    let end = call_twice(alloc, arena, Call::Reallocate(13), &refused, Told::Done)?;
    let up = State {
        capacity: 13,
        slots,
        ..*left
    };
    let is_up = arena.seen() == up;
    let is_told = arena.answer(alloc, Call::Reallocate(0)) == Told::Done;
    holds(is_up && is_told && arena.seen() == *left, Wrong::State(1))?;
    Ok(end)
}

// Removals of five of seven entries.
const FIVE_REMOVALS: &[Call] = &[
    Call::Remove(1),
    Call::Remove(3),
    Call::Remove(7),
    Call::Remove(6),
    Call::Remove(5),
];

// Reallocations of an arena of seven places, of which five were freed, so that its free list is tidied.
fn reallocates<A: Tried>(alloc: Global, arena: &mut A, limit: Option<usize>) -> Result<End, Wrong> {
    let is_filled = fill_to(alloc, arena, Call::Insert(NINE), 7);
    make_each(alloc, arena, FIVE_REMOVALS)?;
    let left = State {
        free: free_indexes(&[1, 3]),
        ..two_left(2, 2, limit, Some(7))
    };
    let end = goes_up_and_down(alloc, arena, 4, &left)?;
    let told = arena.answer(alloc, Call::Insert(plain(8)));
    holds(is_filled && told == Told::At(1, 7), Wrong::Answer(2))?;
    Ok(end)
}

// Of five entries the first and then the third are removed, and a reallocation is refused: the capacity is
// still 8, and the free list is tidied, so that the next insertion takes the first index. All else is as it was.
fn worked<A: Tried>(alloc: Global, arena: &mut A) -> Result<End, Wrong> {
    let is_filled = fill_to(alloc, arena, Call::Insert(NINE), 5);
    make_each(alloc, arena, &[Call::Remove(1), Call::Remove(3)])?;
    let before = arena.seen();
    let told = arena.answer(alloc, Call::Reallocate(100));
    let left = arena.seen();
    let (capacity, end) = match told {
        NO_MEMORY => (8, End::Refused),
        _ => (100, End::Ample),
    };
    let expected = State {
        capacity,
        free: free_indexes(&[1, 3]),
        ..before
    };
    let is_left = before.free == free_indexes(&[3, 1]) && left == expected;
    let inserts = arena.answer(alloc, Call::Insert(plain(6))) == Told::At(1, 4);
    let is_done = arena.answer(alloc, Call::Reallocate(100)) == Told::Done;
    let then = arena.seen();
    holds(is_filled && is_left && inserts && is_done, Wrong::State(1))?;
    holds(then.len == 4 && then.capacity == 100, Wrong::State(2))?;
    Ok(end)
}

fn reallocates_on_heap(alloc: Global) -> Result<End, Wrong> {
    reallocates(alloc, &mut OnHeap::with_room(alloc, 8)?, None)
}

fn reallocates_limited(alloc: Global) -> Result<End, Wrong> {
    reallocates(alloc, &mut Limited::with_room(alloc, 8)?, Some(LIMIT))
}

fn reallocates_strict(alloc: Global) -> Result<End, Wrong> {
    reallocates(alloc, &mut Strict::with_room(alloc, 8)?, None)
}

fn worked_on_heap(alloc: Global) -> Result<End, Wrong> {
    worked(alloc, &mut OnHeap::with_room(alloc, 8)?)
}

// Entries at 2 and 4, and free slots at the end.
fn reallocates_direct(alloc: Global) -> Result<End, Wrong> {
    let calls = [
        Call::Place(7, 9, plain(7)),
        Call::Place(2, 1, plain(2)),
        Call::Place(4, 5, plain(4)),
        Call::Remove(7),
    ];
    let mut arena = Direct::with_room(alloc, 8)?;
    make_each(alloc, &mut arena, &calls)?;
    goes_up_and_down(alloc, &mut arena, 7, &two_left(1, 5, None, None))
}

pub fn try_each(alloc: Global, report: &mut Report) {
    grow(alloc, report);
    grow_limited(alloc, report);
    grow_strict(alloc, report);
    let call = "reallocate_min_capacity";
    report.note(call, "an arena", reallocates_on_heap(alloc));
    report.note(call, "an arena of five", worked_on_heap(alloc));
    report.note(call, "an arena under a limit", reallocates_limited(alloc));
    report.note(call, "a strict arena", reallocates_strict(alloc));
    report.note(call, "a direct arena", reallocates_direct(alloc));
}
