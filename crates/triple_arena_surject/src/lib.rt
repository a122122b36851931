//! Sets of keys, each key under a pointer of its own, and each set with one value: over chains, to copy from.
#![tactic(auto)]

mod compaction;
mod inserting;
mod joining;
pub mod laws;
mod lending;
pub mod member;
pub mod refusal;
mod removing;
mod steps;
pub mod surject;
mod valuing;
pub mod walking;

pub use member::{Member, Shared};
pub use refusal::SurjectError;
pub use surject::SurjectArena;
pub use triple_arena_direct_arena::DirectArena;
pub use walking::SetPtrs;
