//! Why a call was refused.

ghost use Rattle.std.specs.Prelude.{◌≡◌};
ghost use Rattle.triple_arena_surject.specs.Surject.{told_of_chains, told_of_growth};

use thiserror::Error;
use triple_arena_base::ReallocationError;
use triple_arena_chain::ChainError;

/// A call on sets of keys was refused, and each pointer finds what it found, with the same value.
#[derive(Clone, Copy, Debug, PartialEq, Eq, Error)]
pub enum SurjectError {
    /// The pointer finds nothing.
    #[error("there is no such key")]
    NoEntry,
    /// The limit of the arena of keys, or of that of values, is reached.
    #[error("there is no room")]
    NoRoom,
    /// Memory was refused, or there is no greater index.
    #[error("memory was refused")]
    NoMemory,
}

// What a refusal of chains is told as.
pub(crate) fn told_of_chains(refusal: ChainError) -> SurjectError
    ensures { result ≡ told_of_chains refusal }
{
    match refusal {
        ChainError::NoEntry => SurjectError::NoEntry,
        ChainError::Taken => SurjectError::NoEntry,
        ChainError::NoRoom => SurjectError::NoRoom,
        ChainError::NoMemory => SurjectError::NoMemory,
    }
}

// What a refusal of an arena is told as.
pub(crate) fn told_of_growth(refusal: ReallocationError) -> SurjectError
    ensures { result ≡ told_of_growth refusal }
{
    match refusal {
        ReallocationError::BeyondMaxCapacity => SurjectError::NoRoom,
        ReallocationError::AllocError => SurjectError::NoMemory,
    }
}
