//! The stack of slots that each arena has, and the free list that runs through those of an `Arena`. It is an
//! inner crate behind the arenas, apart for the memory that their proofs take together.
#![tactic(auto)]

mod entries;
mod free_list;
mod slot;
mod slot_stack;
mod slot_steps;
mod slots;
mod uncounted;

pub use slot::{ArenaSlot, FreeLink};
pub use slot_stack::SlotStack;
pub use slots::Slots;
