//! The calls of an `Arena`.

use crate::calls::{
    Answer, Numbered, Stop, Value, change, exchange, generation, given, insert, read, shown, walk,
};
use crate::entries::{
    insert_by_entry, insert_by_entry_reallocating, insert_by_entry_within_capacity,
};
use crate::state::{free_indexes, state};
use std::alloc::Global;
use triple_arena::{Arena, ArenaSlot};
use triple_arena_ptr::Ptr;
use triple_arena_stack::NonZeroInxGenericStack;

/// A call of an `Arena` over any stack.
///
/// Each group of calls is asked whether the call is one of its own: to none of its own, or to one whose words are wrong,
/// it answers `Malformed`, and has changed nothing.
pub fn call_arena<P: Ptr, S: NonZeroInxGenericStack<ArenaSlot<P, Value>>>(
    alloc: Global,
    arena: &mut Arena<P, Value, S>,
    call: &[&str],
) -> Answer
where
    P::Gen: Numbered,
{
    match *call {
        ["show"] => shown(alloc, arena),
        ["state"] => state(alloc, arena),
        ["slots"] => shown(alloc, &arena.backing().as_slice().len()),
        ["free"] => shown(alloc, &free_indexes(alloc, arena)?),
        ["freelist_root"] => shown(alloc, &arena.freelist_root()),
        ["canonicalize_freelist"] => shown(alloc, &arena.canonicalize_freelist()),
        ["remove_free_end_slots"] => shown(alloc, &arena.remove_free_end_slots()),
        ["generation"] => shown(alloc, &arena.generation()),
        ["set_generation", g] => shown(alloc, &arena.set_generation(generation(g)?)),
        ["inc_generation"] => shown(alloc, &arena.inc_generation()),
        ["entry_insert", ref new @ ..] => shown(alloc, &insert_by_entry(arena, given(new)?)),
        ["entry_insert_reallocating", ref new @ ..] => {
            shown(alloc, &insert_by_entry_reallocating(arena, given(new)?))
        }
        ["entry_insert_within_capacity", ref new @ ..] => {
            shown(alloc, &insert_by_entry_within_capacity(arena, given(new)?))
        }
        _ => call_in_groups(alloc, arena, call),
    }
}

fn call_in_groups<P: Ptr, S: NonZeroInxGenericStack<ArenaSlot<P, Value>>>(
    alloc: Global,
    arena: &mut Arena<P, Value, S>,
    call: &[&str],
) -> Answer
where
    P::Gen: Numbered,
{
    match insert(alloc, arena, call) {
        Err(Stop::Malformed) => {}
        answered => return answered,
    }
    match read(alloc, arena, call) {
        Err(Stop::Malformed) => {}
        answered => return answered,
    }
    match change(alloc, arena, call) {
        Err(Stop::Malformed) => {}
        answered => return answered,
    }
    match exchange(alloc, arena, call) {
        Err(Stop::Malformed) => {}
        answered => return answered,
    }
    walk(alloc, arena, call)
}
