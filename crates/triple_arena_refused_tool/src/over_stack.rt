//! Arenas over any stack.

use crate::calls::Call;
use crate::state::{Entries, State, no_entries};
use crate::told::{Told, told_done, told_inserted, told_taken};
use crate::value::Value;
use std::alloc::Global;
use triple_arena::{Arena, ArenaInsertEntryTrait, ArenaInsertTrait, ArenaSlot, ArenaTrait};
use triple_arena_base::ReallocationError;
use triple_arena_ptr::Ptr;
use triple_arena_refused_kit::{SLOTS, free_of};
use triple_arena_stack::NonZeroInxGenericStack;
use triple_arena_test_kit::{Numbered, inx};

// The numbers of the generation and of the value of the entry in a slot, if there is one.
fn entry_in<P: Ptr>(slot: Option<&ArenaSlot<P, Value>>) -> Option<(u64, u64)>
where
    P::Gen: Numbered,
{
    match slot {
        Some(ArenaSlot::Allocated(generation, value)) => {
            Some((generation.told_number(), value.shown()))
        }
        _ => None,
    }
}

// The entries of these slots.
fn entries_in<P: Ptr>(slots: &[ArenaSlot<P, Value>]) -> Entries
where
    P::Gen: Numbered,
{
    let mut entries = no_entries();
    for at in 0..SLOTS {
        entries[at] = entry_in(slots.get(at));
    }
    entries
}

/// All of an arena.
pub fn all_of<P: Ptr, S: NonZeroInxGenericStack<ArenaSlot<P, Value>>>(
    arena: &Arena<P, Value, S>,
) -> State
where
    P::Gen: Numbered,
{
    let slots = arena.backing().as_slice();
    State {
        len: arena.len(),
        capacity: arena.capacity(),
        limit: arena.max_capacity(),
        counter: Some(arena.generation().told_number()),
        slots: slots.len(),
        entries: entries_in(slots),
        free: free_of(arena),
    }
}

// An insertion by an entry.
fn enter<P: Ptr, S: NonZeroInxGenericStack<ArenaSlot<P, Value>>>(
    arena: &mut Arena<P, Value, S>,
    value: Value,
) -> Result<P, ReallocationError> {
    let entry = arena.entry_insert()?;
    let p = entry.ptr();
    entry.insert(value);
    Ok(p)
}

// So by one that asks for all room anew.
fn enter_reallocating<P: Ptr, S: NonZeroInxGenericStack<ArenaSlot<P, Value>>>(
    arena: &mut Arena<P, Value, S>,
    value: Value,
) -> Result<P, ReallocationError> {
    let entry = arena.entry_insert_reallocating()?;
    let p = entry.ptr();
    entry.insert(value);
    Ok(p)
}

/// What a call tells of an arena.
pub fn answer_of<P: Ptr, S: NonZeroInxGenericStack<ArenaSlot<P, Value>>>(
    arena: &mut Arena<P, Value, S>,
    alloc: Global,
    call: Call,
) -> Told
where
    P::Gen: Numbered,
{
    match call {
        Call::Insert(row) => told_inserted(arena.insert(row.value(alloc))),
        Call::InsertReallocating(row) => {
            told_inserted(arena.insert_reallocating(row.value(alloc)))
        }
        Call::EntryInsert(row) => told_inserted(enter(arena, row.value(alloc))),
        Call::EntryInsertReallocating(row) => {
            told_inserted(enter_reallocating(arena, row.value(alloc)))
        }
        Call::Place(_, _, _) => Told::Otherwise,
        Call::Remove(index) => told_taken(arena.remove_inx(inx(index))),
        Call::Reallocate(asked) => told_done(arena.reallocate_min_capacity(asked)),
    }
}
