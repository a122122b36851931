//! Stacks: how they are made, pushes, entries and reallocations.

use std::alloc::Global;
use triple_arena_base::{MaxCapacityReductionError, ReallocationError};
use triple_arena_refused_kit::{End, Report, Wrong, holds};
use triple_arena_stack::{
    HeapStack, LimitedStack, NonZeroInxGenericStack, NonZeroInxGenericStackPushEntryTrait,
    NonZeroInxStack, SetMaxCapacity,
};

/// A call of a full stack, which asks for memory.
#[derive(Clone, Copy)]
enum Call {
    Push,
    PushReallocating,
    EntryPush,
    EntryPushReallocating,
    ReallocateUp,
    ReallocateDown,
}

const CALLS: &[(&str, Call)] = &[
    ("push", Call::Push),
    ("push_reallocating", Call::PushReallocating),
    ("entry_push", Call::EntryPush),
    ("entry_push_reallocating", Call::EntryPushReallocating),
    ("reallocate_min_capacity", Call::ReallocateUp),
    ("reallocate_min_capacity(0)", Call::ReallocateDown),
];

// Pushes by an entry.
fn push_by<'a, E: NonZeroInxGenericStackPushEntryTrait<'a, u64> + Drop>(entry: E, item: u64) {
    if entry.has_place() {
        entry.push(item);
    }
}

// What refuses a call, if something does.
fn refusal_of<K: NonZeroInxGenericStack<u64>>(
    stack: &mut NonZeroInxStack<u64, K>,
    call: Call,
) -> Option<ReallocationError> {
    let item = (stack.len() as u64).wrapping_add(1);
    match call {
        Call::Push => stack.push(item).err(),
        Call::PushReallocating => stack.push_reallocating(item).err(),
        Call::EntryPush => match stack.entry_push() {
            Ok(entry) => {
                push_by(entry, item);
                None
            }
            Err(refused) => Some(refused),
        },
        Call::EntryPushReallocating => match stack.entry_push_reallocating() {
            Ok(entry) => {
                push_by(entry, item);
                None
            }
            Err(refused) => Some(refused),
        },
        Call::ReallocateUp => stack.reallocate_min_capacity(100).err(),
        Call::ReallocateDown => stack.reallocate_min_capacity(0).err(),
    }
}

// Length, capacity and limit of a stack, and whether each item is the number of its index.
type Seen = (usize, usize, Option<usize>, bool);

fn seen<K: NonZeroInxGenericStack<u64>>(stack: &NonZeroInxStack<u64, K>) -> Seen {
    let (mut number, mut is_in_order) = (0u64, true);
    for item in stack.as_slice() {
        number = number.wrapping_add(1);
        is_in_order &= *item == number;
    }
    (
        stack.len(),
        stack.capacity(),
        stack.max_capacity(),
        is_in_order,
    )
}

// Fills a stack up to its capacity by pushes of this kind, or within the capacity, which take no memory; each item is the
// number of its index.
fn fill<K: NonZeroInxGenericStack<u64>>(stack: &mut NonZeroInxStack<u64, K>, call: Call) {
    for at in stack.len()..stack.capacity() {
        if matches!(call, Call::ReallocateUp) {
            let _pushed = stack.push_within_capacity((at as u64).wrapping_add(1));
        } else {
            let _pushed = refusal_of(stack, call);
        }
    }
}

// What stands after a call of a stack of so many items and so much room. Reallocations leave the items.
fn expected(call: Call, len: usize, room: usize, limit: Option<usize>) -> Seen {
    let (items, places) = match call {
        Call::ReallocateUp => (len, 100),
        Call::ReallocateDown => (len, len),
        _ => (len.saturating_add(1), room.saturating_mul(2)),
    };
    (items, places, limit, true)
}

// Fills a stack, and makes the call, and once more where memory is refused, which leaves it as it
// was.
fn call_twice<K: NonZeroInxGenericStack<u64>>(
    stack: &mut NonZeroInxStack<u64, K>,
    call: Call,
    limit: Option<usize>,
) -> Result<End, Wrong> {
    if !matches!(call, Call::ReallocateDown) {
        fill(stack, call);
    }
    let before = seen(stack);
    let mut refusal = refusal_of(stack, call);
    let (mut end, mut is_left) = (End::Ample, true);
    if refusal == Some(ReallocationError::AllocError) {
        is_left = seen(stack) == before;
        refusal = refusal_of(stack, call);
        end = End::Refused;
    }
    let stands = seen(stack) == expected(call, before.0, before.1, limit);
    holds(is_left && stands && refusal.is_none(), Wrong::State(1))?;
    Ok(end)
}

// Each call of a stack that was made with room for four.
fn each<K: NonZeroInxGenericStack<u64> + Drop>(
    made: Result<NonZeroInxStack<u64, K>, Wrong>,
    limit: Option<usize>,
    kind: &'static str,
    report: &mut Report,
) {
    match made {
        Ok(mut stack) => {
            for (name, call) in CALLS {
                report.note(*name, kind, call_twice(&mut stack, *call, limit));
            }
        }
        Err(wrong) => report.note("made", kind, Err(wrong)),
    }
}

fn heap(alloc: Global) -> Result<NonZeroInxStack<u64, HeapStack<u64>>, Wrong> {
    Ok(NonZeroInxStack::with_min_capacity(alloc, 4)?)
}

fn limited(alloc: Global) -> Result<NonZeroInxStack<u64, LimitedStack<u64>>, Wrong> {
    let mut stack = NonZeroInxStack::with_min_capacity(alloc, 4)?;
    let _is_above: Result<(), MaxCapacityReductionError> = stack.set_max_capacity(200);
    Ok(stack)
}

pub fn try_each(alloc: Global, report: &mut Report) {
    each(heap(alloc), None, "a stack", report);
    each(limited(alloc), Some(200), "a stack under a limit", report);
}
