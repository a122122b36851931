//! The traits by which arenas and pointers are called: `use triple_arena_direct::prelude::*;`.

pub use triple_arena::prelude::{
    Advancer, ArenaCloneFromWith, ArenaDirectInsertEntryTrait, ArenaDirectInsertTrait,
    ArenaInsertEntryTrait, ArenaInsertTrait, ArenaTrait, CompactArenaTrait, DisjointableArenaTrait,
    Ptr, PtrGen, PtrInx, Recast, Recaster,
};
pub use triple_arena_recasting::Reading;
