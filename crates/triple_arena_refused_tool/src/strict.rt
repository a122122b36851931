//! Strict arenas on the heap.

use crate::calls::{Call, Tried};
use crate::compacting::{Compacted, Compaction};
use crate::on_heap::seen_on_heap;
use crate::state::State;
use crate::told::{Told, told_compaction, told_done, told_inserted};
use crate::value::Value;
use std::alloc::Global;
use triple_arena_base::ReallocationError;
use triple_arena_direct::{StrictArena, StrictCompactError, renew};
use triple_arena_ptr::P0;
use triple_arena_refused_kit::Wrong;
use triple_arena_test_kit::inx;

/// A strict arena.
#[derive(Drop)]
pub struct Strict {
    arena: StrictArena<P0, Value>,
}

impl Strict {
    /// A new one with this room.
    pub fn with_room(alloc: Global, room: usize) -> Result<Strict, Wrong> {
        let arena = StrictArena::with_min_capacity(alloc, room)?;
        Ok(Strict { arena })
    }

    /// The arena that stands after a renewal, and what it tells.
    pub fn renewed(self, alloc: Global) -> (Strict, Told) {
        let Strict { arena } = self;
        match renew(arena, alloc) {
            Ok((arena, _map)) => (Strict { arena }, Told::Done),
            Err((arena, refusal)) => (Strict { arena }, told_compaction(refusal)),
        }
    }
}

/// No entry call is tried on it.
impl Tried for Strict {
    fn seen(&self) -> State {
        seen_on_heap(self.arena.arena())
    }

    fn answer(&mut self, alloc: Global, call: Call) -> Told {
        answer_strictly(&mut self.arena, alloc, call)
    }
}

// The calls of a strict arena of any values, which meets no trait of arenas. They have no clauses here.
trait StrictCalls<T> {
    fn put(&mut self, value: T) -> Result<P0, ReallocationError>;

    fn put_reallocating(&mut self, value: T) -> Result<P0, ReallocationError>;

    // Whether a value is taken out.
    fn takes(&mut self, index: usize) -> bool;

    fn reallocate(&mut self, asked: usize) -> Result<(), ReallocationError>;
}

impl<T: Drop> StrictCalls<T> for StrictArena<P0, T> {
    fn put(&mut self, value: T) -> Result<P0, ReallocationError> {
        self.insert(value)
    }

    fn put_reallocating(&mut self, value: T) -> Result<P0, ReallocationError> {
        self.insert_reallocating(value)
    }

    fn takes(&mut self, index: usize) -> bool {
        self.remove_inx(inx(index)).is_ok()
    }

    fn reallocate(&mut self, asked: usize) -> Result<(), ReallocationError> {
        self.reallocate_min_capacity(asked)
    }
}

// What a call tells of a strict arena, of which no entry call is tried here.
fn answer_strictly<A: StrictCalls<Value>>(arena: &mut A, alloc: Global, call: Call) -> Told {
    match call {
        Call::Insert(row) => told_inserted(arena.put(row.value(alloc))),
        Call::InsertReallocating(row) => told_inserted(arena.put_reallocating(row.value(alloc))),
        Call::Remove(index) if arena.takes(index) => Told::Done,
        Call::Reallocate(asked) => told_done(arena.reallocate(asked)),
        _ => Told::Otherwise,
    }
}

/// It has no map without a renaming.
impl Compacted for Strict {
    fn compact(&mut self, alloc: Global, compaction: Compaction, holder: &mut Option<P0>) -> Told {
        match compaction {
            Compaction::Mapped => Told::Otherwise,
            Compaction::Renamed => told_strictly(self.arena.compress_recast(alloc)),
            Compaction::Beside => told_strictly(self.arena.compress_recast_with(holder, alloc)),
        }
    }
}

// What a compaction tells.
fn told_strictly<T: Drop>(done: Result<T, StrictCompactError<P0>>) -> Told {
    match done {
        Ok(_map) => Told::Done,
        Err(StrictCompactError::Exhausted) => Told::Otherwise,
        Err(StrictCompactError::Compact(refusal)) => told_compaction(refusal),
    }
}
