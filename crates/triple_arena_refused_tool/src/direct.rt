//! Direct arenas on the heap.

use crate::calls::{Call, Tried};
use crate::compacting::{Compacted, Compaction, compact_any};
use crate::copying::{Copied, Copying, Goal, Refusal, copy_directly, refusal_of};
use crate::on_heap::OnHeap;
use crate::state::{Entries, State, no_entries};
use crate::told::{Told, told_done, told_taken};
use crate::value::Value;
use std::alloc::Global;
use triple_arena::{ArenaCloneFromWith, ArenaDirectInsertTrait, ArenaTrait};
use triple_arena_direct::{DirectArena, DirectSlot};
use triple_arena_ptr::P0;
use triple_arena_refused_kit::{FreeList, SLOTS, Wrong};
use triple_arena_stack::NonZeroInxGenericStack;
use triple_arena_test_kit::{Numbered, inx, pointer};

/// A direct arena.
#[derive(Drop)]
pub struct Direct {
    arena: DirectArena<P0, Value>,
}

impl Direct {
    /// A new one with this room.
    pub fn with_room(alloc: Global, room: usize) -> Result<Direct, Wrong> {
        let arena = DirectArena::with_min_capacity(alloc, room)?;
        Ok(Direct { arena })
    }
}

/// It inserts under given pointers alone.
impl Tried for Direct {
    fn seen(&self) -> State {
        all_of(&self.arena)
    }

    fn answer(&mut self, alloc: Global, call: Call) -> Told {
        answer_directly(&mut self.arena, alloc, call)
    }
}

impl Compacted for Direct {
    fn compact(&mut self, alloc: Global, compaction: Compaction, holder: &mut Option<P0>) -> Told {
        compact_any(&mut self.arena, alloc, compaction, holder)
    }
}

impl Goal for Direct {
    fn take(&mut self, source: &mut OnHeap, copying: Copying) -> Copied {
        copy_directly(&mut self.arena, &mut source.arena, copying)
    }

    fn state_of_clone(&self, alloc: Global) -> Result<State, Refusal> {
        match self.arena.clone(alloc) {
            Ok(copy) => Ok(all_of(&copy)),
            Err(refused) => Err(refusal_of(refused)),
        }
    }
}

// The numbers of the generation and of the value of the entry in a slot, if there is one.
fn entry_in(slot: Option<&DirectSlot<P0, Value>>) -> Option<(u64, u64)> {
    match slot {
        Some(DirectSlot::Allocated(generation, value)) => {
            Some((generation.told_number(), value.shown()))
        }
        _ => None,
    }
}

// The entries of these slots.
fn entries_in(slots: &[DirectSlot<P0, Value>]) -> Entries {
    let mut entries = no_entries();
    for at in 0..SLOTS {
        entries[at] = entry_in(slots.get(at));
    }
    entries
}

// All of a direct arena.
fn all_of(arena: &DirectArena<P0, Value>) -> State {
    let slots = arena.backing().as_slice();
    State {
        len: arena.len(),
        capacity: arena.capacity(),
        limit: arena.max_capacity(),
        counter: None,
        slots: slots.len(),
        entries: entries_in(slots),
        free: FreeList::Missing,
    }
}

// What a call tells of an arena into which values are put under given pointers.
fn answer_directly<A: ArenaDirectInsertTrait<P0, Value>>(
    arena: &mut A,
    alloc: Global,
    call: Call,
) -> Told {
    match call {
        Call::Place(index, generation, row) => {
            place(arena, pointer(index, generation), row.value(alloc))
        }
        Call::Remove(index) => told_taken(arena.remove_inx(inx(index))),
        Call::Reallocate(asked) => told_done(arena.reallocate_min_capacity(asked)),
        _ => Told::Otherwise,
    }
}

// Inserts a value under this pointer, where there is a place.
fn place<A: ArenaDirectInsertTrait<P0, Value>>(arena: &mut A, p: P0, value: Value) -> Told {
    let has_place = arena.can_direct_insert(p);
    if has_place {
        arena.direct_insert_reserved(p, value);
        Told::Done
    } else {
        Told::Otherwise
    }
}
