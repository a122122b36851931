//! The traits by which arenas, pointers and advancers are called: `use triple_arena_chain::prelude::*;`.

pub use triple_arena::prelude::{
    Advancer, ArenaCloneFromWith, ArenaDirectInsertEntryTrait, ArenaDirectInsertTrait,
    ArenaInsertEntryTrait, ArenaInsertTrait, ArenaTrait, CompactArenaTrait, DisjointableArenaTrait,
    Ptr, PtrGen, PtrInx, Recast, Recaster,
};
