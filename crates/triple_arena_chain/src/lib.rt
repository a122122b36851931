//! Chains: doubly linked lists in any compact arena. It is a door, apart since few who take arenas need it, and hands on
//! what `triple_arena` has for callers, and the direct arena that a compaction answers with.
#![tactic(auto)]

mod appending;
pub mod chains;
mod compaction;
mod ends;
pub mod iter;
pub mod laws;
mod lending;
pub mod link;
pub mod place;
pub mod prelude;
mod removal;
mod room;
mod steps;
pub mod walk;
mod writing;

pub use chains::Chains;
pub use iter::ChainsIter;
pub use link::Link;
pub use place::{ChainError, Place};
pub use triple_arena::{
    Advancer, AllocError, Arena, ArenaCloneFromWith, ArenaDirectInsertEntryTrait,
    ArenaDirectInsertTrait, ArenaInsertEntry, ArenaInsertEntryTrait, ArenaInsertTrait, ArenaSlot,
    ArenaTrait, ArrayStack, CloneFromError, CompactArenaTrait, CompactError, DirectInsertionError,
    DisjointableArenaTrait, FixedStack, FreeLink, GetDisjointMutError, HeapStack, InsertFailed,
    InvalidationOption, InvalidationResult, LendingArena, LimitedStack, MaxCapacityReductionError,
    NamedPtr, NonZeroInxArray, NonZeroInxBoxedSlice, NonZeroInxGenericStack, NonZeroInxLimitedVec,
    NonZeroInxVec, NotWithinCapacityError, P0, P1, P2, P3, P4, P5, Ptr, PtrGen, PtrInx, PtrName,
    PtrNoGen, Q2, ReallocationError, Recast, Recaster, SetMaxCapacity, SmallPtr, arena_iterators,
    recast_both,
};
pub use triple_arena_direct_arena::DirectArena;
pub use walk::ChainAdvancer;
