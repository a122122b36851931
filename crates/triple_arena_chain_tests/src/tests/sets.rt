//! Tables of calls of sets of keys, each with its answer. As of chains, calls are made over any arenas, a few in each function.

use crate::tests::pointers::Pointers;
use std::alloc::Global;
use std::process::Abort;
use triple_arena::{
    Arena, ArenaInsertTrait, ArenaSlot, ArenaTrait, CompactArenaTrait, NonZeroInxArray,
};
use triple_arena_base::InvalidationOption;
use triple_arena_chain::Link;
use triple_arena_chain_uses::nets::{name_net, wire};
use triple_arena_ptr::P0;
use triple_arena_surject::{DirectArena, Member, Shared, SurjectArena, SurjectError};

/// A call of sets of keys. A key has a number: that which is inserted first 0, the next 1, and so on.
#[derive(Clone, Copy)]
pub enum Call {
    /// `insert` of a key and the value of its set.
    Insert(u64, u64),
    /// `insert_key` into the set of a key.
    InsertKey(usize, u64),
    Union(usize, usize),
    /// `wire` of the users.
    Wire(usize, usize),
    /// `name_net` of the users.
    NameNet(usize, u64),
    /// `get_val_mut`, by which another value is written over that of a key's set.
    Write(usize, u64),
    ReplaceVal(usize, u64),
    RemoveKey(usize),
    Remove(usize),
    Clear,
    Compress,
    Contains(usize),
    GetKey(usize),
    /// `get_val` and `len_key_set` of a key, and whether another is in its set.
    Net(usize, usize),
    KeySet(usize),
    /// `set_ptrs`, by which the keys of a set are walked and counted.
    SetPtrs(usize),
    IsEmpty,
}

/// What a call answers.
#[derive(Clone, Copy, Debug, PartialEq)]
pub enum Answer {
    Done,
    Is(bool),
    Key(Option<u64>),
    /// So many keys.
    Keys(usize),
    Val(u64),
    /// The value of the set that is no more, if there were two.
    United(Option<u64>),
    /// The key that goes, and the value of its set, if it was the last.
    Gone(u64, Option<u64>),
    /// The value of a set, how many keys it has, and whether another key is in it.
    OnNet(Option<u64>, Option<usize>, bool),
    /// It is done, and the counter wrapped.
    Wrapped,
    Refused(SurjectError),
}

/// A call, what it answers, and how many keys and how many sets there are after it.
pub type Row = (Call, Answer, usize, usize);

/// The call of a row, from 1, answers so, or there are so many keys, or so many sets after it.
#[derive(Debug, Drop)]
pub struct Wrong {
    row: usize,
    told: Option<Answer>,
    keys: usize,
    sets: usize,
}

// What an arena of keys holds.
type Key = Link<P0, Member<P0, u64>>;

/// Makes the calls of a table on new sets.
pub fn follow(rt: &impl Abort, alloc: Global, rows: &[Row]) -> Result<(), Wrong> {
    let mut sets: SurjectArena<P0, u64, u64> = SurjectArena::new(alloc);
    follow_on(rt, alloc, &mut sets, rows)
}

/// Makes them on sets over two arenas: the keys have two places, and the values as many as are asked for.
pub fn follow_in_two_places(rt: &impl Abort, alloc: Global, rows: &[Row]) -> Result<(), Wrong> {
    let keys: Arena<P0, Key, NonZeroInxArray<ArenaSlot<P0, Key>, 2>> = Arena::new(alloc);
    let values: Arena<P0, Shared<u64>> = Arena::new(alloc);
    match SurjectArena::over(keys, values) {
        Ok(mut sets) => follow_on(rt, alloc, &mut sets, rows),
        Err((_keys, _values)) => follow(rt, alloc, &[(Call::IsEmpty, Answer::Done, 0, 0)]),
    }
}

/// Makes them on sets with room for so many keys, and so many values.
pub fn follow_with_room(
    rt: &impl Abort,
    alloc: Global,
    keys: usize,
    values: usize,
    rows: &[Row],
) -> Result<(), Wrong> {
    let mut sets: SurjectArena<P0, u64, u64> = SurjectArena::with_min_capacity(
        alloc, keys, values,
    ).expect(rt, "memory");
    follow_on(rt, alloc, &mut sets, rows)
}

// Makes them on these sets.
fn follow_on<
    A: CompactArenaTrait<P0, Link<P0, Member<P0, u64>>>
        + ArenaInsertTrait<P0, Link<P0, Member<P0, u64>>>,
    B: ArenaInsertTrait<P0, Shared<u64>>,
>(
    rt: &impl Abort,
    alloc: Global,
    sets: &mut SurjectArena<P0, u64, u64, A, B>,
    rows: &[Row],
) -> Result<(), Wrong> {
    let mut keys = Pointers::new(alloc);
    let mut row: usize = 0;
    for (call, wanted, len_keys, len_vals) in rows {
        row = row.wrapping_add(1);
        let told = inserting(rt, sets, &mut keys, *call)
            .or(joining(sets, &keys, *call))
            .or(writing(sets, &keys, *call))
            .or(ending(alloc, sets, &mut keys, *call))
            .or(reading(rt, alloc, sets, &keys, *call));
        if told != Some(*wanted) || sets.len_keys() != *len_keys || sets.len_vals() != *len_vals {
            return Err(Wrong {
                row,
                told,
                keys: sets.len_keys(),
                sets: sets.len_vals(),
            });
        }
    }
    Ok(())
}

// The answer of a call that inserts.
fn inserting<
    A: CompactArenaTrait<P0, Link<P0, Member<P0, u64>>>
        + ArenaInsertTrait<P0, Link<P0, Member<P0, u64>>>,
    B: ArenaInsertTrait<P0, Shared<u64>>,
>(
    rt: &impl Abort,
    sets: &mut SurjectArena<P0, u64, u64, A, B>,
    keys: &mut Pointers,
    call: Call,
) -> Option<Answer> {
    let told = match call {
        Call::Insert(key, value) => sets.insert(key, value),
        Call::InsertKey(at, key) => sets.insert_key(keys.at(at), key),
        _ => return None,
    };
    Some(inserted(rt, keys, told))
}

// The answer of a call that makes one set of two.
fn joining<
    A: CompactArenaTrait<P0, Link<P0, Member<P0, u64>>>
        + ArenaInsertTrait<P0, Link<P0, Member<P0, u64>>>,
    B: ArenaInsertTrait<P0, Shared<u64>>,
>(sets: &mut SurjectArena<P0, u64, u64, A, B>, keys: &Pointers, call: Call) -> Option<Answer> {
    match call {
        Call::Union(first, second) => Some(united(sets.union(keys.at(first), keys.at(second)))),
        Call::Wire(first, second) => Some(wired(wire(sets, keys.at(first), keys.at(second)))),
        _ => None,
    }
}

// The answer of a call that writes a value.
fn writing<
    A: CompactArenaTrait<P0, Link<P0, Member<P0, u64>>>
        + ArenaInsertTrait<P0, Link<P0, Member<P0, u64>>>,
    B: ArenaInsertTrait<P0, Shared<u64>>,
>(sets: &mut SurjectArena<P0, u64, u64, A, B>, keys: &Pointers, call: Call) -> Option<Answer> {
    match call {
        Call::NameNet(at, name) => Some(Answer::Is(name_net(sets, keys.at(at), name))),
        Call::Write(at, value) => Some(Answer::Is(match sets.get_val_mut(keys.at(at)) {
            Some(held) => {
                *held = value;
                true
            }
            None => false,
        })),
        Call::ReplaceVal(at, value) => Some(replaced(sets.replace_val(keys.at(at), value))),
        _ => None,
    }
}

// The answer of a call that ends keys or pointers.
fn ending<
    A: CompactArenaTrait<P0, Link<P0, Member<P0, u64>>>
        + ArenaInsertTrait<P0, Link<P0, Member<P0, u64>>>,
    B: ArenaInsertTrait<P0, Shared<u64>>,
>(
    alloc: Global,
    sets: &mut SurjectArena<P0, u64, u64, A, B>,
    keys: &mut Pointers,
    call: Call,
) -> Option<Answer> {
    match call {
        Call::RemoveKey(at) => Some(gone(sets.remove_key(keys.at(at)))),
        Call::Remove(at) => Some(removed(sets.remove(keys.at(at)))),
        Call::Clear => Some(cleared(sets.clear())),
        Call::Compress => Some(renamed(keys, sets.compress(alloc))),
        _ => None,
    }
}

// The answer of a call that reads.
fn reading<
    A: CompactArenaTrait<P0, Link<P0, Member<P0, u64>>>
        + ArenaInsertTrait<P0, Link<P0, Member<P0, u64>>>,
    B: ArenaInsertTrait<P0, Shared<u64>>,
>(
    rt: &impl Abort,
    alloc: Global,
    sets: &SurjectArena<P0, u64, u64, A, B>,
    keys: &Pointers,
    call: Call,
) -> Option<Answer> {
    match call {
        Call::Contains(at) => Some(Answer::Is(sets.contains(keys.at(at)))),
        Call::GetKey(at) => Some(Answer::Key(sets.get_key(keys.at(at)).copied())),
        Call::Net(at, other) => {
            let (p, q) = (keys.at(at), keys.at(other));
            let value = sets.get_val(p).copied();
            Some(Answer::OnNet(value, sets.len_key_set(p), sets.in_same_set(p, q)))
        }
        Call::KeySet(at) => {
            let all = sets.key_set(keys.at(at), alloc).expect(rt, "memory");
            Some(Answer::Keys(all.len()))
        }
        Call::SetPtrs(at) => Some(Answer::Keys(sets.set_ptrs(keys.at(at)).count())),
        Call::IsEmpty => Some(Answer::Is(sets.is_empty())),
        _ => None,
    }
}

fn inserted(rt: &impl Abort, keys: &mut Pointers, told: Result<P0, SurjectError>) -> Answer {
    match told {
        Ok(p) => {
            keys.push(rt, p);
            Answer::Done
        }
        Err(refusal) => Answer::Refused(refusal),
    }
}

fn united(told: Result<Option<u64>, SurjectError>) -> Answer {
    match told {
        Ok(value) => Answer::United(value),
        Err(refusal) => Answer::Refused(refusal),
    }
}

fn wired(told: Result<bool, SurjectError>) -> Answer {
    match told {
        Ok(were_two) => Answer::Is(were_two),
        Err(refusal) => Answer::Refused(refusal),
    }
}

fn replaced(told: Result<u64, SurjectError>) -> Answer {
    match told {
        Ok(value) => Answer::Val(value),
        Err(refusal) => Answer::Refused(refusal),
    }
}

fn gone(told: Result<InvalidationOption<(u64, Option<u64>)>, SurjectError>) -> Answer {
    match told {
        Ok(InvalidationOption::Success((key, value))) => Answer::Gone(key, value),
        Ok(InvalidationOption::GenerationOverflow(_key)) => Answer::Wrapped,
        Err(refusal) => Answer::Refused(refusal),
    }
}

fn removed(told: Result<InvalidationOption<u64>, SurjectError>) -> Answer {
    match told {
        Ok(InvalidationOption::Success(value)) => Answer::Val(value),
        Ok(InvalidationOption::GenerationOverflow(_value)) => Answer::Wrapped,
        Err(refusal) => Answer::Refused(refusal),
    }
}

fn cleared(told: InvalidationOption<()>) -> Answer {
    match told {
        InvalidationOption::Success(()) => Answer::Done,
        InvalidationOption::GenerationOverflow(()) => Answer::Wrapped,
    }
}

fn renamed(
    keys: &mut Pointers,
    told: Result<InvalidationOption<DirectArena<P0, P0>>, SurjectError>,
) -> Answer {
    match told {
        Ok(InvalidationOption::Success(map)) => {
            keys.rename(&map);
            Answer::Done
        }
        Ok(InvalidationOption::GenerationOverflow(_map)) => Answer::Wrapped,
        Err(refusal) => Answer::Refused(refusal),
    }
}
