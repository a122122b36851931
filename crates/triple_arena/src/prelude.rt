//! The traits by which arenas and pointers are called: `use triple_arena::prelude::*;`.

pub use crate::insert_entry::ArenaInsertEntryTrait;
pub use triple_arena_base::{Advancer, Recast, Recaster};
pub use triple_arena_ptr::{Ptr, PtrGen, PtrInx};
pub use triple_arena_traits::{
    ArenaCloneFromWith, ArenaDirectInsertEntryTrait, ArenaDirectInsertTrait, ArenaInsertTrait,
    ArenaTrait, CompactArenaTrait, DisjointableArenaTrait,
};
