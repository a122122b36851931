//! Users of sessions, a file each, to copy from.
#![tactic(auto)]

use triple_arena::ArenaSlot;
use triple_arena_ptr::P0;
use triple_arena_session::Node;
use triple_arena_stack::NonZeroInxVec;

pub mod any_session;
pub mod at_any_time;
pub mod audit;
pub mod begun_sessions;
pub mod compactions;
pub mod first_session;
pub mod named_entries;
pub mod raises;
pub mod rows;
pub mod strict_audit;
pub mod whole_program;

/// The slots of a session of numbers over the heap, which laws of sessions are called at.
pub type HeapSlots = NonZeroInxVec<ArenaSlot<P0, Node<u64, P0>>>;
