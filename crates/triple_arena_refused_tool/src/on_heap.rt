//! Arenas on the heap.

use crate::calls::{Call, Tried};
use crate::compacting::{Compacted, Compaction, compact_arena};
use crate::copying::{Copied, Copying, Goal, Refusal, copy, refusal_of};
use crate::over_stack::{all_of, answer_of};
use crate::state::State;
use crate::told::Told;
use crate::value::Value;
use std::alloc::Global;
use triple_arena::{Arena, ArenaTrait};
use triple_arena_ptr::{P0, Ptr};
use triple_arena_refused_kit::Wrong;
use triple_arena_test_kit::Numbered;

/// An arena of any values with this room.
pub fn with_room<P: Ptr, T>(alloc: Global, room: usize) -> Result<Arena<P, T>, Wrong> {
    Ok(Arena::with_min_capacity(alloc, room)?)
}

/// All of an arena.
pub fn seen_on_heap<P: Ptr>(arena: &Arena<P, Value>) -> State
where
    P::Gen: Numbered,
{
    all_of(arena)
}

/// An arena.
#[derive(Drop)]
pub struct OnHeap {
    pub arena: Arena<P0, Value>,
}

impl OnHeap {
    /// A new one with this room.
    pub fn with_room(alloc: Global, room: usize) -> Result<OnHeap, Wrong> {
        let arena = with_room(alloc, room)?;
        Ok(OnHeap { arena })
    }
}

impl Tried for OnHeap {
    fn seen(&self) -> State {
        seen_on_heap(&self.arena)
    }

    fn answer(&mut self, alloc: Global, call: Call) -> Told {
        answer_of(&mut self.arena, alloc, call)
    }
}

impl Compacted for OnHeap {
    fn compact(&mut self, alloc: Global, compaction: Compaction, holder: &mut Option<P0>) -> Told {
        compact_arena(&mut self.arena, alloc, compaction, holder)
    }
}

impl Goal for OnHeap {
    fn take(&mut self, source: &mut OnHeap, copying: Copying) -> Copied {
        copy(&mut self.arena, &mut source.arena, copying)
    }

    fn state_of_clone(&self, alloc: Global) -> Result<State, Refusal> {
        match self.arena.clone(alloc) {
            Ok(copy) => Ok(seen_on_heap(&copy)),
            Err(refused) => Err(refusal_of(refused)),
        }
    }
}
