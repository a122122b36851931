//! Tables of calls of chains, each with its answer. Calls are made over any arena, a few in each function: one function that
//! makes them all takes many times their seconds.

use crate::tests::pointers::Pointers;
use crate::tests::values::{Live, Value, new_value, no_values};
use std::alloc::Global;
use std::process::Abort;
use triple_arena_chain::prelude::{Advancer, ArenaInsertTrait, ArenaTrait, CompactArenaTrait};
use triple_arena_chain::{
    Arena, ArenaSlot, ChainAdvancer, ChainError, Chains, DirectArena, InvalidationOption, Link,
    NonZeroInxBoxedSlice, P0, Place,
};

/// A call of chains. An entry has a number: that which is inserted first 0, the next 1, and so on.
#[derive(Clone, Copy)]
pub enum Call {
    InsertNew(u64),
    InsertBefore(usize, u64),
    InsertAfter(usize, u64),
    PushBack(usize, u64),
    /// `get_mut`, by which another value is written over that of an entry.
    Write(usize, u64),
    Remove(usize),
    RemoveChain(usize),
    Clear,
    CutBefore(usize),
    CutAfter(usize),
    Join(usize, usize),
    Compress,
    Contains(usize),
    /// `get` and `after`, from an entry on.
    Onwards(usize),
    /// `get` and `before`, from an entry back.
    Backwards(usize),
    Rest(usize),
    /// `iter`, of which it is asked how many entries are left.
    All,
    IsEmpty,
    /// `reallocate_min_capacity`, and then how many entries fit.
    Reallocate(usize),
    /// `walk`, which begins at an entry; the one before it is given up.
    Walk(usize),
    /// A step of that walk.
    Advance,
}

/// What a call answers.
#[derive(Clone, Copy, Debug, PartialEq)]
pub enum Answer {
    Done,
    Is(bool),
    /// So many entries.
    Entries(usize),
    Value(u64),
    NoValue,
    /// The first four values, with 0 for each that is missing.
    Four([u64; 4]),
    /// The value that comes back, and how many there are before it is dropped.
    Taken(u64, usize),
    /// It is done, and the counter wrapped.
    Wrapped,
    Refused(ChainError),
}

/// A call, what it answers, and how many entries there are after it, and as many values.
pub type Row = (Call, Answer, usize);

/// What a table tells wrong of chains.
#[derive(Debug, Drop)]
pub enum Wrong {
    /// The call of this row, from 1, answers so, or there are so many entries, or so many values after it.
    Row(usize, Option<Answer>, usize, usize),
    /// So many values are left where the chains are dropped.
    Left(usize),
}

/// Makes the calls of a table on new chains, with room for a good many.
pub fn follow(rt: &impl Abort, alloc: Global, rows: &[Row]) -> Result<(), Wrong> {
    follow_within(rt, alloc, 40_000, rows)
}

// An arena that has this room, and never more.
type Fixed = Arena<P0, Link<P0, Value>, NonZeroInxBoxedSlice<ArenaSlot<P0, Link<P0, Value>>>>;

/// Makes the calls of a table on chains over an arena that has room for so many, once chains with an arena of
/// their own had as much.
pub fn follow_within(
    rt: &impl Abort,
    alloc: Global,
    room: usize,
    rows: &[Row],
) -> Result<(), Wrong> {
    let live = no_values(rt, alloc);
    let own: Chains<P0, Value, Fixed> = Chains::with_min_capacity(alloc, room).expect(rt, "memory");
    let arena: Fixed = Arena::with_min_capacity(alloc, own.capacity()).expect(rt, "memory");
    let Ok(mut chains) = Chains::over(arena) else {
        return Err(Wrong::Left(live.get()));
    };
    follow_on(rt, alloc, &mut chains, &live, rows)?;
    drop(chains);
    match live.get() {
        0 => Ok(()),
        left => Err(Wrong::Left(left)),
    }
}

// Makes them on these chains.
fn follow_on<A: CompactArenaTrait<P0, Link<P0, Value>> + ArenaInsertTrait<P0, Link<P0, Value>>>(
    rt: &impl Abort,
    alloc: Global,
    chains: &mut Chains<P0, Value, A>,
    live: &Live,
    rows: &[Row],
) -> Result<(), Wrong> {
    let mut entries = Pointers::new(alloc);
    let mut walk = chains.walk(entries.at(0));
    let mut number: usize = 0;
    for (call, wanted, len) in rows {
        number = number.wrapping_add(1);
        let told = inserting(rt, chains, &mut entries, live, *call)
            .or(ending(alloc, chains, &mut entries, live, *call))
            .or(linking(chains, &entries, live, *call))
            .or(reading(rt, alloc, chains, &entries, *call))
            .or(showing(chains, *call))
            .or(walking(chains, &mut walk, &entries, *call));
        if told != Some(*wanted) || chains.len() != *len || live.get() != *len {
            return Err(Wrong::Row(number, told, chains.len(), live.get()));
        }
    }
    Ok(())
}

// The answer of a call that inserts.
fn inserting<A: CompactArenaTrait<P0, Link<P0, Value>> + ArenaInsertTrait<P0, Link<P0, Value>>>(
    rt: &impl Abort,
    chains: &mut Chains<P0, Value, A>,
    entries: &mut Pointers,
    live: &Live,
    call: Call,
) -> Option<Answer> {
    let told = match call {
        Call::InsertNew(value) => chains.insert_new(new_value(live, value)),
        Call::InsertBefore(at, value) => {
            chains.insert(Place::Before(entries.at(at)), new_value(live, value))
        }
        Call::InsertAfter(at, value) => {
            chains.insert(Place::After(entries.at(at)), new_value(live, value))
        }
        Call::PushBack(at, value) => chains.push_back(entries.at(at), new_value(live, value)),
        _ => return None,
    };
    Some(inserted(rt, entries, told))
}

// The answer of a call that ends entries or pointers.
fn ending<A: CompactArenaTrait<P0, Link<P0, Value>> + ArenaInsertTrait<P0, Link<P0, Value>>>(
    alloc: Global,
    chains: &mut Chains<P0, Value, A>,
    entries: &mut Pointers,
    live: &Live,
    call: Call,
) -> Option<Answer> {
    match call {
        Call::Remove(at) => Some(taken(chains.remove(entries.at(at)), live.get())),
        Call::RemoveChain(at) => Some(counted(chains.remove_chain(entries.at(at)))),
        Call::Clear => Some(match chains.clear() {
            InvalidationOption::Success(()) => Answer::Done,
            InvalidationOption::GenerationOverflow(()) => Answer::Wrapped,
        }),
        Call::Compress => Some(renamed(entries, chains.compress(alloc))),
        _ => None,
    }
}

// The answer of a call that writes a value or links.
fn linking<A: CompactArenaTrait<P0, Link<P0, Value>> + ArenaInsertTrait<P0, Link<P0, Value>>>(
    chains: &mut Chains<P0, Value, A>,
    entries: &Pointers,
    live: &Live,
    call: Call,
) -> Option<Answer> {
    match call {
        Call::Write(at, value) => Some(Answer::Is(match chains.get_mut(entries.at(at)) {
            Some(held) => {
                write(held, new_value(live, value));
                true
            }
            None => false,
        })),
        Call::CutBefore(at) => Some(done(chains.cut_before(entries.at(at)))),
        Call::CutAfter(at) => Some(done(chains.cut_after(entries.at(at)))),
        Call::Join(last, first) => Some(done(chains.join(entries.at(last), entries.at(first)))),
        _ => None,
    }
}

// The answer of a call that reads.
fn reading<A: CompactArenaTrait<P0, Link<P0, Value>> + ArenaInsertTrait<P0, Link<P0, Value>>>(
    rt: &impl Abort,
    alloc: Global,
    chains: &Chains<P0, Value, A>,
    entries: &Pointers,
    call: Call,
) -> Option<Answer> {
    match call {
        Call::Contains(at) => Some(Answer::Is(chains.contains(entries.at(at)))),
        Call::Onwards(at) => {
            let mut four = [0; 4];
            let mut next = Some(entries.at(at));
            for value in four.iter_mut() {
                if let Some(p) = next {
                    *value = number_of(chains.get(p)).unwrap_or(0);
                    next = chains.after(p);
                }
            }
            Some(Answer::Four(four))
        }
        Call::Backwards(at) => {
            let mut four = [0; 4];
            let mut next = Some(entries.at(at));
            for value in four.iter_mut() {
                if let Some(p) = next {
                    *value = number_of(chains.get(p)).unwrap_or(0);
                    next = chains.before(p);
                }
            }
            Some(Answer::Four(four))
        }
        Call::Rest(at) => {
            let rest = chains.rest(entries.at(at), alloc).expect(rt, "memory");
            Some(Answer::Entries(rest.len()))
        }
        _ => None,
    }
}

// The answer of a call on all chains.
fn showing<A: CompactArenaTrait<P0, Link<P0, Value>> + ArenaInsertTrait<P0, Link<P0, Value>>>(
    chains: &mut Chains<P0, Value, A>,
    call: Call,
) -> Option<Answer> {
    match call {
        Call::All => Some(Answer::Entries(chains.iter().len())),
        Call::IsEmpty => Some(Answer::Is(chains.is_empty())),
        Call::Reallocate(least) => Some(match chains.reallocate_min_capacity(least) {
            Ok(()) => Answer::Entries(chains.capacity()),
            Err(refusal) => Answer::Refused(refusal),
        }),
        _ => None,
    }
}

// The answer of a call that walks.
fn walking<A: CompactArenaTrait<P0, Link<P0, Value>> + ArenaInsertTrait<P0, Link<P0, Value>>>(
    chains: &Chains<P0, Value, A>,
    walk: &mut ChainAdvancer<P0>,
    entries: &Pointers,
    call: Call,
) -> Option<Answer> {
    match call {
        Call::Walk(at) => {
            *walk = chains.walk(entries.at(at));
            Some(Answer::Done)
        }
        Call::Advance => match walk.advance(chains) {
            Some(p) => Some(met(chains.get(p))),
            None => Some(Answer::NoValue),
        },
        _ => None,
    }
}

fn inserted(rt: &impl Abort, entries: &mut Pointers, told: Result<P0, ChainError>) -> Answer {
    match told {
        Ok(p) => {
            entries.push(rt, p);
            Answer::Done
        }
        Err(refusal) => Answer::Refused(refusal),
    }
}

fn write(held: &mut Value, value: Value) {
    *held = value;
}

fn taken(told: Result<InvalidationOption<Value>, ChainError>, live: usize) -> Answer {
    match told {
        Ok(InvalidationOption::Success(value)) => Answer::Taken(value.number, live),
        Ok(InvalidationOption::GenerationOverflow(_value)) => Answer::Wrapped,
        Err(refusal) => Answer::Refused(refusal),
    }
}

fn counted(told: Result<InvalidationOption<usize>, ChainError>) -> Answer {
    match told {
        Ok(InvalidationOption::Success(count)) => Answer::Entries(count),
        Ok(InvalidationOption::GenerationOverflow(_count)) => Answer::Wrapped,
        Err(refusal) => Answer::Refused(refusal),
    }
}

fn done(told: Result<(), ChainError>) -> Answer {
    match told {
        Ok(()) => Answer::Done,
        Err(refusal) => Answer::Refused(refusal),
    }
}

fn renamed(
    entries: &mut Pointers,
    told: Result<InvalidationOption<DirectArena<P0, P0>>, ChainError>,
) -> Answer {
    match told {
        Ok(InvalidationOption::Success(map)) => {
            entries.rename(&map);
            Answer::Done
        }
        Ok(InvalidationOption::GenerationOverflow(_map)) => Answer::Wrapped,
        Err(refusal) => Answer::Refused(refusal),
    }
}

fn number_of(value: Option<&Value>) -> Option<u64> {
    match value {
        Some(value) => Some(value.number),
        None => None,
    }
}

fn met(value: Option<&Value>) -> Answer {
    match value {
        Some(value) => Answer::Value(value.number),
        None => Answer::NoValue,
    }
}
