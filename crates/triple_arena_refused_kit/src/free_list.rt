//! The free list of an arena.

use std::num::NonZeroUsize;
use triple_arena::{Arena, ArenaSlot, FreeLink};
use triple_arena_ptr::{Ptr, PtrInx};
use triple_arena_stack::NonZeroInxGenericStack;

/// How many slots of an arena are shown: more than any has that a tool makes.
pub const SLOTS: usize = 64;

/// The free list of an arena.
#[derive(Clone, Copy, PartialEq)]
pub enum FreeList {
    /// A direct arena has none.
    Missing,
    /// The free indexes in the order in which insertion takes them, and then 0; of more than `SLOTS`,
    /// the first.
    Indexes([usize; SLOTS]),
    /// One of its slots has an entry, or does not lead back to the one before.
    Broken,
}

impl FreeList {
    /// Whether an index is on it.
    pub fn contains(&self, index: usize) -> bool {
        match self {
            FreeList::Indexes(free) => free.contains(&index),
            _ => false,
        }
    }
}

/// The free list of these indexes.
pub fn free_indexes(indexes: &[usize]) -> FreeList {
    let mut free = [0; SLOTS];
    let mut place = 0;
    for index in indexes {
        if place < SLOTS {
            free[place] = *index;
            place += 1;
        }
    }
    FreeList::Indexes(free)
}

/// The free list of `arena`.
pub fn free_of<P: Ptr, T, S: NonZeroInxGenericStack<ArenaSlot<P, T>>>(
    arena: &Arena<P, T, S>,
) -> FreeList {
    free_in(
        arena.backing().as_slice(),
        slot_index(arena.freelist_root()),
    )
}

// The number of an index, if there is one that a slot can have.
fn slot_index<I: PtrInx>(inx: Option<I>) -> Option<NonZeroUsize> {
    I::try_into_usize(inx?)
}

// The link of a free slot.
fn link_of<P: Ptr, T>(slots: &[ArenaSlot<P, T>], inx: NonZeroUsize) -> Option<&FreeLink<P::Inx>> {
    match slots.get(inx.get() - 1) {
        Some(ArenaSlot::Free(link)) => Some(link),
        _ => None,
    }
}

// The free list of these slots, which begins at this index.
fn free_in<P: Ptr, T>(slots: &[ArenaSlot<P, T>], first: Option<NonZeroUsize>) -> FreeList {
    let mut free = [0; SLOTS];
    let mut last = None;
    let mut next = first;
    for place in 0..SLOTS {
        let Some(inx) = next else {
            return FreeList::Indexes(free);
        };
        let Some(link) = link_of(slots, inx) else {
            return FreeList::Broken;
        };
        if link.before(inx) != last {
            return FreeList::Broken;
        }
        free[place] = inx.get();
        last = next;
        next = link.after(inx);
    }
    FreeList::Indexes(free)
}
