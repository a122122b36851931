//! What the tools share that make calls where memory is refused: a request, which calls are asked for, what was
//! refused or is wrong, and the free list of an arena.
#![tactic(auto)]

mod asked;
mod free_list;
mod report;
mod wrong;

pub use asked::{Calls, ask, make_asked};
pub use free_list::{FreeList, SLOTS, free_indexes, free_of};
pub use report::{End, Report};
pub use wrong::{Wrong, holds};
