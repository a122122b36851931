//! Notes beside some entities, or beside all, which follow a compaction of these.

use std::alloc::Global;
use triple_arena_direct::prelude::*;
use triple_arena_direct::{DirectArena, P0, ReallocationError};

/// Puts a note beside an entity, and tells whether its index had none.
pub fn note(notes: &mut DirectArena<P0, u64>, p: P0, n: u64) -> Result<bool, ReallocationError> {
    if p.inx().get() > notes.capacity() {
        notes.reallocate_min_capacity(p.inx().get())?;
    }
    let is_free = notes.can_direct_insert(p);
    if is_free {
        notes.direct_insert_reserved(p, n);
    }
    Ok(is_free)
}

/// The notes of the entities that a compaction has moved, under their new pointers, by its map. Those of
/// entities that were gone are left out.
pub fn moved_notes(
    notes: &DirectArena<P0, u64>,
    renamed: &DirectArena<P0, P0>,
    alloc: Global,
) -> Result<DirectArena<P0, u64>, ReallocationError> {
    let mut moved: DirectArena<P0, u64> = DirectArena::new(alloc);
    moved.reallocate_min_capacity(renamed.len())?;
    for (p, n) in notes.iter() {
        if let Some(q) = renamed.get(p) {
            if moved.can_direct_insert(*q) {
                moved.direct_insert_reserved(*q, *n);
            }
        }
    }
    Ok(moved)
}
