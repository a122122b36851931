//! Why a transcript ends before its last line.

use std::alloc::{AllocError, AllocFailed};
use thiserror::Error;

/// Why a transcript ends before its last line.
#[derive(Clone, Copy, Debug, Error)]
pub enum Stop {
    /// The line is no call that the shell knows, or names an arena that isn't there.
    #[error("malformed")]
    Malformed,
    /// Memory was refused to the shell itself, and not to an arena.
    #[error("no memory")]
    NoMemory,
    /// Input can't be read.
    #[error("read failed")]
    Read,
    /// Output can't be written.
    #[error("write failed")]
    Write,
}

impl Stop {
    /// The exit status of a program that ends so.
    pub fn status(self) -> u8 {
        match self {
            Stop::Malformed => 3,
            Stop::NoMemory | Stop::Read | Stop::Write => 1,
        }
    }
}

impl From<AllocError> for Stop {
    fn from(_refused: AllocError) -> Stop {
        Stop::NoMemory
    }
}

impl<T: Drop> From<AllocFailed<T>> for Stop {
    fn from(_refused: AllocFailed<T>) -> Stop {
        Stop::NoMemory
    }
}
