//! Strict arenas. It is a door, and hands on what is called over any arena (compaction with recasting, `retain`, `extend`),
//! direct arenas, pointer types that differ by a number, and what `triple_arena` has for callers.
#![tactic(auto)]

mod errors;
mod indexing;
mod lending_arena;
pub mod prelude;
mod strict_arena;
pub mod strict_laws;
mod text;

pub use errors::{StrictCompactBothError, StrictCompactError, StrictError};
pub use strict_arena::{
    Leaving, StrictArena, StrictDrain, StrictInsertEntry, into_arena, into_strict, renew,
};
pub use triple_arena::{
    Advancer, AllocError, Arena, ArenaCloneFromWith, ArenaDirectInsertEntryTrait,
    ArenaDirectInsertTrait, ArenaInsertEntry, ArenaInsertEntryTrait, ArenaInsertTrait, ArenaSlot,
    ArenaTrait, ArrayStack, CloneFromError, CompactArenaTrait, CompactError, DirectInsertionError,
    DisjointableArenaTrait, FixedStack, FreeLink, GetDisjointMutError, HeapStack, InsertFailed,
    InvalidationOption, InvalidationResult, LimitedStack, MaxCapacityReductionError, NamedPtr,
    NonZeroInxArray, NonZeroInxBoxedSlice, NonZeroInxGenericStack, NonZeroInxLimitedVec,
    NonZeroInxVec, NotWithinCapacityError, P0, P1, P2, P3, P4, P5, Ptr, PtrGen, PtrInx, PtrName,
    PtrNoGen, Q2, ReallocationError, Recast, Recaster, SetMaxCapacity, SmallPtr, arena_iterators,
    recast_both,
};
pub use triple_arena_direct_arena::{
    ArenaDirectInsertEntry, DirectArena, DirectSlot, direct_arena_iterators, laws,
};
pub use triple_arena_ptr::PtrKind;
pub use triple_arena_recasting::{
    CompactBothError, Reading, compress_recast, compress_recast_both, compress_recast_both_with,
    compress_recast_with, compress_recaster, extend, from_iter, recast_hash_values, recast_three,
    recast_values, renaming_laws, retain, unresolved,
};
