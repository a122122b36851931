//! Arenas under a limit.

use crate::calls::{Call, Tried};
use crate::over_stack::{all_of, answer_of};
use crate::state::State;
use crate::told::Told;
use crate::value::Value;
use std::alloc::Global;
use triple_arena::{Arena, ArenaSlot, ArenaTrait};
use triple_arena_ptr::P0;
use triple_arena_refused_kit::Wrong;
use triple_arena_stack::NonZeroInxLimitedVec;

/// The limit.
pub const LIMIT: usize = 200;

/// An arena under it.
#[derive(Drop)]
pub struct Limited {
    arena: Arena<P0, Value, NonZeroInxLimitedVec<ArenaSlot<P0, Value>>>,
}

impl Limited {
    /// A new one with this room.
    pub fn with_room(alloc: Global, room: usize) -> Result<Limited, Wrong> {
        let mut arena = Arena::with_min_capacity(alloc, room)?;
        match arena.set_max_capacity(LIMIT) {
            Ok(()) => Ok(Limited { arena }),
            Err(_refused) => Err(Wrong::Answer(0)),
        }
    }
}

impl Tried for Limited {
    fn seen(&self) -> State {
        all_of(&self.arena)
    }

    fn answer(&mut self, alloc: Global, call: Call) -> Told {
        answer_of(&mut self.arena, alloc, call)
    }
}
