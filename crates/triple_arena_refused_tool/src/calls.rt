//! Calls that change an arena of any kind, as values.

use crate::state::State;
use crate::told::Told;
use crate::value::Row;
use std::alloc::Global;
use triple_arena_refused_kit::{Wrong, holds};

/// A call.
#[derive(Clone, Copy)]
pub enum Call {
    Insert(Row),
    InsertReallocating(Row),
    EntryInsert(Row),
    EntryInsertReallocating(Row),
    /// Into a direct arena, under these numbers of an index and a generation.
    Place(usize, u64, Row),
    /// Of the entry at this index.
    Remove(usize),
    Reallocate(usize),
}

/// An arena that calls are tried on. It has no clauses, and each that meets it has no type parameters, so that what is
/// generic over it is quick to prove.
pub trait Tried {
    /// All of it; of more than `SLOTS` slots, the first.
    fn seen(&self) -> State;

    /// What a call tells: `Otherwise` where the arena has no such call.
    fn answer(&mut self, alloc: Global, call: Call) -> Told;
}

// Whether a call has done what it is for.
fn is_done(told: Told) -> bool {
    match told {
        Told::Done | Told::At(_, _) => true,
        _ => false,
    }
}

/// Makes these calls, which have room.
pub fn make_each<A: Tried>(alloc: Global, arena: &mut A, calls: &[Call]) -> Result<(), Wrong> {
    let mut are_done = true;
    for call in calls {
        are_done &= is_done(arena.answer(alloc, *call));
    }
    holds(are_done, Wrong::Answer(0))
}
