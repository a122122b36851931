//! Calls that insert a value.

use crate::calls::answer::{Answer, shown};
use crate::calls::stop::Stop;
use crate::calls::words::{Value, value};
use std::alloc::Global;
use triple_arena::{Arena, ArenaInsertTrait, ArenaSlot, ArenaTrait};
use triple_arena_ptr::Ptr;
use triple_arena_stack::NonZeroInxGenericStack;

/// A call that inserts a value, or tells the pointer that an insertion gives.
pub fn insert<P: Ptr, S: NonZeroInxGenericStack<ArenaSlot<P, Value>>>(
    alloc: Global,
    arena: &mut Arena<P, Value, S>,
    call: &[&str],
) -> Answer {
    match *call {
        ["insert", v] => shown(alloc, &arena.insert(value(v)?)),
        ["insert_reallocating", v] => shown(alloc, &arena.insert_reallocating(value(v)?)),
        ["insert_within_capacity", v] => shown(alloc, &arena.insert_within_capacity(value(v)?)),
        ["insert_reserved", v] => shown(alloc, &inserted_in_place(arena, value(v)?)),
        ["next_ptr"] => shown(alloc, &next_ptr(arena)),
        _ => Err(Stop::Malformed),
    }
}

// The pointer of the value, where there is a place for it.
fn inserted_in_place<P: Ptr, S: NonZeroInxGenericStack<ArenaSlot<P, Value>>>(
    arena: &mut Arena<P, Value, S>,
    value: Value,
) -> Option<P> {
    if arena.len() < arena.capacity() {
        Some(arena.insert_reserved(value))
    } else {
        None
    }
}

// The pointer that the next insertion gives, where there is a place.
fn next_ptr<P: Ptr, S: NonZeroInxGenericStack<ArenaSlot<P, Value>>>(
    arena: &Arena<P, Value, S>,
) -> Option<P> {
    if arena.len() < arena.capacity() {
        Some(arena.next_ptr())
    } else {
        None
    }
}
