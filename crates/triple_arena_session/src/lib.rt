//! Sessions: commands that speak of the entries of an arena by name, their text, and the run of a whole program. It is
//! a door, and hands on the commands, and what a session begins over: arenas, pointers and stacks.
#![tactic(auto)]

mod begins_over;
pub mod laws;
mod named_arena;
mod node;
mod program;
mod session;
mod session_arena;
mod session_body;
mod strict_session;
mod strict_text;
mod text;

pub use begins_over::BeginsOver;
pub use node::Node;
pub use program::{run_kind, run_program};
pub use session::Session;
pub use strict_session::StrictSession;
pub use strict_text::{run_text_strict, run_text_strict_and_flush};
pub use text::{run_text, run_text_and_flush};
pub use triple_arena_commands::{
    Command, Kind, Outcome, Reply, TextError, parse_args, parse_command, parse_mode, status,
    write_reply,
};
pub use triple_arena_direct::{
    AllocError, Arena, ArenaSlot, ArrayStack, FixedStack, HeapStack, LimitedStack, NonZeroInxArray,
    NonZeroInxBoxedSlice, NonZeroInxLimitedVec, NonZeroInxVec, P0, P1, P2, P3, Ptr, Q2, SmallPtr,
    StrictArena,
};
