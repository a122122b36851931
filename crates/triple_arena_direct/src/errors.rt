//! The refusals of strict arenas.

use thiserror::Error;
use triple_arena_base::CompactError;
use triple_arena_recasting::CompactBothError;

/// A call on a strict arena was refused, and nothing changed.
#[derive(Clone, Copy, Debug, PartialEq, Eq, Error)]
pub enum StrictError {
    /// The pointer has no entry.
    #[error("the pointer is invalid")]
    InvalidPtr,
    /// The counter would have to be raised past the greatest generation.
    #[error("the generation counter is at its greatest value")]
    Exhausted,
}

/// Nothing was compacted, and nothing changed.
#[derive(Clone, Copy, Debug, PartialEq, Eq, Error)]
pub enum StrictCompactError<I> {
    /// The counter would have to be raised past the greatest generation.
    #[error("the generation counter is at its greatest value")]
    Exhausted,
    /// It could be raised, and the compaction was refused.
    #[error("the compaction was refused")]
    Compact(CompactError<I>),
}

impl<I> From<CompactError<I>> for StrictCompactError<I> {
    ghost use Rattle.std.specs.Prelude.{◌≡◌};
    ghost use Rattle.triple_arena_direct.specs.declared.errors.StrictCompactError.TheVariants.{Compact};

    ghost from_gives = { λ refusal e. e ≡ Compact refusal };

    fn from(refusal: CompactError<I>) -> StrictCompactError<I> {
        StrictCompactError::Compact(refusal)
    }
}

/// Neither of two strict arenas was compacted, and nothing changed.
#[derive(Clone, Copy, Debug, PartialEq, Eq, Error)]
pub enum StrictCompactBothError<I, J> {
    /// The counter of one of them would have to be raised past the greatest generation.
    #[error("the generation counter of an arena is at its greatest value")]
    Exhausted,
    /// Both could be raised, and the compaction was refused.
    #[error("the compaction of two arenas was refused")]
    Compact(CompactBothError<I, J>),
}

impl<I, J> From<CompactBothError<I, J>> for StrictCompactBothError<I, J> {
    ghost use Rattle.std.specs.Prelude.{◌≡◌};
    ghost use Rattle.triple_arena_direct.specs.declared.errors.StrictCompactBothError.TheVariants.{Compact};

    ghost from_gives = { λ refusal e. e ≡ Compact refusal };

    fn from(refusal: CompactBothError<I, J>) -> StrictCompactBothError<I, J> {
        StrictCompactBothError::Compact(refusal)
    }
}
