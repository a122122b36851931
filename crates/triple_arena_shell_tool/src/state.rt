//! What an `Arena` is made of.

use crate::calls::{Answer, Stop, Value};
use std::alloc::Global;
use std::num::NonZeroUsize;
use triple_arena::{Arena, ArenaSlot, ArenaTrait};
use triple_arena_ptr::{Ptr, PtrInx};
use triple_arena_stack::NonZeroInxGenericStack;

/// Its whole state: length, capacity and limit, counter, slots, free indexes and entries.
pub fn state<P: Ptr, S: NonZeroInxGenericStack<ArenaSlot<P, Value>>>(
    alloc: Global,
    arena: &Arena<P, Value, S>,
) -> Answer {
    let bounds = (arena.len(), arena.capacity(), arena.max_capacity());
    let generation = arena.generation();
    let slots = arena.backing().as_slice().len();
    let free = free_indexes(alloc, arena)?;
    Ok(format!(in alloc;
        "{bounds:?} generation {generation:?} slots {slots} free {free:?} {arena:?}"
    )?)
}

/// Its free indexes, in the order in which insertion takes them.
pub fn free_indexes<P: Ptr, S: NonZeroInxGenericStack<ArenaSlot<P, Value>>>(
    alloc: Global,
    arena: &Arena<P, Value, S>,
) -> Result<Vec<usize>, Stop> {
    free_from(
        alloc,
        arena.backing().as_slice(),
        first_free::<P>(arena.freelist_root()),
    )
}

fn first_free<P: Ptr>(root: Option<P::Inx>) -> Option<NonZeroUsize> {
    P::Inx::try_into_usize(root?)
}

// The free indexes from one on.
fn free_from<P: Ptr>(
    alloc: Global,
    slots: &[ArenaSlot<P, Value>],
    first: Option<NonZeroUsize>,
) -> Result<Vec<usize>, Stop> {
    let mut free = Vec::new(alloc);
    let mut next = first;
    for _ in 0..slots.len() {
        if let Some(inx) = next {
            free.push(inx.get())?;
            next = free_after(slots, inx);
        }
    }
    Ok(free)
}

fn free_after<P: Ptr>(slots: &[ArenaSlot<P, Value>], inx: NonZeroUsize) -> Option<NonZeroUsize> {
    match slots.get(inx.get() - 1) {
        Some(ArenaSlot::Free(link)) => link.after(inx),
        _ => None,
    }
}
