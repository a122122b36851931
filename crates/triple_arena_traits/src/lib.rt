//! What an arena is: the traits of arenas, and all that is written over them. It is an inner crate behind
//! `triple_arena`, apart so that both arenas stand on it and are proved side by side.
#![tactic(auto)]

pub mod answers;
mod arena_clone_trait;
mod arena_direct_insert_trait;
mod arena_insert_trait;
pub mod arena_iterators;
mod arena_states;
mod arena_trait;
mod closing_up;
mod compact_arena_trait;
pub mod copying;
mod disjointable_arena_trait;
mod entry_slot;
pub mod entry_slots;
mod insert_failed;
pub mod last_index;
pub mod laws;
mod lending_arena;
mod lent_slots;
pub mod pair_call;
mod recasting;
pub mod transferring;

pub use arena_clone_trait::ArenaCloneFromWith;
pub use arena_direct_insert_trait::{ArenaDirectInsertEntryTrait, ArenaDirectInsertTrait};
pub use arena_insert_trait::ArenaInsertTrait;
pub use arena_states::{ArenaLaws, ArenaStates};
pub use arena_trait::ArenaTrait;
pub use closing_up::close_up;
pub use compact_arena_trait::CompactArenaTrait;
pub use disjointable_arena_trait::DisjointableArenaTrait;
pub use entry_slot::EntrySlot;
pub use insert_failed::InsertFailed;
pub use lending_arena::LendingArena;
pub use lent_slots::LentSlots;
pub use recasting::recast_entries;
