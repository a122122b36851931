//! Compactions of arenas.

use crate::told::{Told, told_compaction, told_done};
use std::alloc::Global;
use triple_arena::{Arena, CompactArenaTrait};
use triple_arena_base::Recast;
use triple_arena_direct::{compress_recast, compress_recast_with, compress_recaster};
use triple_arena_ptr::P0;

/// A compaction without a reset.
#[derive(Clone, Copy)]
pub enum Compaction {
    /// By `compress_recaster`.
    Mapped,
    /// By `compress_recast`.
    Renamed,
    /// By `compress_recast_with`.
    Beside,
}

/// An arena that is compacted. It has no clauses, so that what is generic over it is quick to prove.
pub trait Compacted {
    /// What a compaction tells, beside a holder.
    fn compact(&mut self, alloc: Global, compaction: Compaction, holder: &mut Option<P0>) -> Told;
}

/// What one tells of any arena.
pub fn compact_any<T: Recast<P0>, A: CompactArenaTrait<P0, T>>(
    arena: &mut A,
    alloc: Global,
    compaction: Compaction,
    holder: &mut Option<P0>,
) -> Told {
    match compaction {
        Compaction::Mapped => told_done(compress_recaster(arena, alloc, false)),
        Compaction::Renamed => match compress_recast(arena, alloc, false) {
            Ok(_map) => Told::Done,
            Err(refusal) => told_compaction(refusal),
        },
        Compaction::Beside => match compress_recast_with(arena, holder, alloc, false) {
            Ok(_map) => Told::Done,
            Err(refusal) => told_compaction(refusal),
        },
    }
}

/// What one tells of an arena on the heap, of any values.
pub fn compact_arena<T: Recast<P0>>(
    arena: &mut Arena<P0, T>,
    alloc: Global,
    compaction: Compaction,
    holder: &mut Option<P0>,
) -> Told {
    compact_any(arena, alloc, compaction, holder)
}
