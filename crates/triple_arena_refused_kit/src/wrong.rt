//! What a tool found to be wrong.

use std::alloc;
use triple_arena_base::AllocError;

/// The first thing that a tool found to be wrong, and at which of its looks, or at which row of a table.
#[derive(Clone, Copy, Debug)]
pub enum Wrong {
    /// A call told another answer than was expected.
    Answer(usize),
    /// After a call another state stood than was expected.
    State(usize),
    /// A text was answered otherwise, or was another one than this.
    Text(&'static str),
    /// There was no memory for what calls are tried on.
    NoMemory,
}

impl From<AllocError> for Wrong {
    fn from(_refused: AllocError) -> Wrong {
        Wrong::NoMemory
    }
}

impl From<alloc::AllocError> for Wrong {
    fn from(_refused: alloc::AllocError) -> Wrong {
        Wrong::NoMemory
    }
}

/// That this holds; else what is wrong.
pub fn holds(it: bool, wrong: Wrong) -> Result<(), Wrong> {
    if it { Ok(()) } else { Err(wrong) }
}
