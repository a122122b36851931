//! Arenas whose entries are put under pointers of the caller's choice. It is an inner crate behind
//! `triple_arena_direct`, apart so that it is proved beside the `Arena`.
#![tactic(auto)]

mod direct_arena;
pub mod direct_arena_iterators;
mod indexing;
mod insert_entry;
pub mod laws;
mod lending_arena;
mod recasting;
mod slot;
mod text;

pub use direct_arena::DirectArena;
pub use insert_entry::ArenaDirectInsertEntry;
pub use slot::DirectSlot;
