//! The refusals of compactions of two arenas.

use thiserror::Error;
use triple_arena_base::CompactError;

/// Neither of two arenas was compacted, and nothing changed.
#[derive(Clone, Copy, Debug, PartialEq, Eq, Error)]
pub enum CompactBothError<I, J> {
    /// Memory for the map of the first was refused, or a pointer to the first finds no entry.
    #[error("the compaction of the first arena was refused: {0}")]
    First(CompactError<I>),
    /// The first could be compacted; and so of the second.
    #[error("the compaction of the second arena was refused: {0}")]
    Second(CompactError<J>),
}
