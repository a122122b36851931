//! Generational arenas: values in slots, each named by the pointer that its insertion gave. It is a door,
//! and hands on what an arena is, the types of pointers, and the errors and answers of its calls.
#![tactic(auto)]

pub mod arena_iterators;
mod base_arena;
mod indexing;
mod insert_entry;
mod lending_arena;
pub mod prelude;
mod recasting;
mod text;

pub use base_arena::Arena;
pub use insert_entry::{ArenaInsertEntry, ArenaInsertEntryTrait};
pub use triple_arena_base::{
    Advancer, AllocError, CloneFromError, CompactError, DirectInsertionError, GetDisjointMutError,
    InvalidationOption, InvalidationResult, MaxCapacityReductionError, NotWithinCapacityError,
    ReallocationError, Recast, Recaster, recast_both,
};
pub use triple_arena_ptr::{
    NamedPtr, P0, P1, P2, P3, P4, P5, Ptr, PtrGen, PtrInx, PtrName, PtrNoGen, Q2, SmallPtr,
};
pub use triple_arena_slots::{ArenaSlot, FreeLink};
pub use triple_arena_stack::{
    ArrayStack, FixedStack, HeapStack, LimitedStack, NonZeroInxArray, NonZeroInxBoxedSlice,
    NonZeroInxGenericStack, NonZeroInxLimitedVec, NonZeroInxVec, SetMaxCapacity,
};
pub use triple_arena_traits::{
    ArenaCloneFromWith, ArenaDirectInsertEntryTrait, ArenaDirectInsertTrait, ArenaInsertTrait,
    ArenaLaws, ArenaStates, ArenaTrait, CompactArenaTrait, DisjointableArenaTrait, InsertFailed,
    LendingArena, laws, recast_entries,
};
