//! The refusals of stacks, arenas and their insertions.

use std::alloc;
use thiserror::Error;

/// Memory was refused, or a constructor was asked for more than its type may ever hold.
#[derive(Clone, Copy, Debug, PartialEq, Eq, Error)]
#[error("memory allocation failed")]
pub struct AllocError;

impl From<alloc::AllocError> for AllocError {
    fn from(_refused: alloc::AllocError) -> AllocError {
        AllocError
    }
}

/// A limit was asked for that lies below the slots in use.
#[derive(Clone, Copy, Debug, PartialEq, Eq, Error)]
#[error("the max capacity limit could not be reduced, because the capacity would also need to be reduced to equal it, and the capacity could not be reduced in this case")]
pub struct MaxCapacityReductionError;

/// The length has reached the capacity.
#[derive(Clone, Copy, Debug, PartialEq, Eq, Error)]
#[error("an operation would not be within existing capacity")]
pub struct NotWithinCapacityError;

/// The capacity was not changed.
#[derive(Clone, Copy, Debug, PartialEq, Eq, Error)]
pub enum ReallocationError {
    /// The limit is reached, or is less than what was asked for.
    #[error("a max capacity limit prevents growing the capacity")]
    BeyondMaxCapacity,
    /// Memory was refused, or there is no greater number of slots.
    #[error("a memory reallocation failed")]
    AllocError,
}

impl From<alloc::AllocError> for ReallocationError {
    ghost use Rattle.std.specs.Prelude.{◌≡◌};
    ghost use Rattle.triple_arena_base.specs.declared.errors.ReallocationError.TheVariants.{AllocError};

    ghost from_gives = { λ _ e. e ≡ AllocError };

    fn from(_refused: alloc::AllocError) -> ReallocationError {
        ReallocationError::AllocError
    }
}

/// Nothing was inserted under the pointer asked for.
#[derive(Clone, Copy, Debug, PartialEq, Eq, Error)]
pub enum DirectInsertionError {
    /// The index is above the capacity.
    #[error("a direct insertion index points to an internal slot that does not fit within existing capacity")]
    NotWithinCapacity,
    /// An entry stands at the index.
    #[error("a direct insertion index points to an internal slot where there is already an existing element")]
    ExistingElementAtIndex,
}

/// Nothing was inserted into a chain. Carried for chained arenas; no call of this layer answers it.
#[derive(Clone, Copy, Debug, PartialEq, Eq, Error)]
pub enum ChainInsertionError {
    /// The link that was asked for cannot be made.
    #[error("a `LinkInsertKind` requirement was not met")]
    FailedLinkRequirement,
    /// The length has reached the capacity.
    #[error("an operation would not be within existing capacity")]
    NotWithinCapacity,
    /// The limit is reached.
    #[error("a max capacity limit prevents growing the capacity")]
    BeyondMaxCapacity,
    /// Memory was refused.
    #[error("a memory reallocation failed")]
    AllocError,
}

/// Nothing was inserted in order. Carried for ordered arenas; no call of this layer answers it.
#[derive(Clone, Copy, Debug, PartialEq, Eq, Error)]
pub enum OrdInsertionError {
    /// The place that was asked for is not in order.
    #[error("an `OrdInsertKind` requirement was not met")]
    FailedOrdRequirement,
    /// The length has reached the capacity.
    #[error("an operation would not be within existing capacity")]
    NotWithinCapacity,
    /// The limit is reached.
    #[error("a max capacity limit prevents growing the capacity")]
    BeyondMaxCapacity,
    /// Memory was refused.
    #[error("a memory reallocation failed")]
    AllocError,
}

/// Two places were not lent at once.
#[derive(Clone, Copy, Debug, PartialEq, Eq, Error)]
pub enum GetDisjointMutError {
    /// There is nothing at one of the two places.
    #[error("an index is out of bounds")]
    IndexOutOfBounds,
    /// Both places are the same one.
    #[error("the indices overlap")]
    OverlappingIndices,
}

/// A source was not cloned whole.
#[derive(Clone, Copy, Debug, PartialEq, Eq, Error)]
pub enum CloneFromError<E> {
    /// The target did not get room for the source, and no entry of it changed.
    #[error("the target could not hold the source")]
    Reallocation(ReallocationError),
    /// The map refused an entry, or its clone was refused; the entries before it stand.
    #[error("the map refused an entry")]
    Map(E),
}

impl<E> From<ReallocationError> for CloneFromError<E> {
    ghost use Rattle.std.specs.Prelude.{◌≡◌};
    ghost use Rattle.triple_arena_base.specs.declared.errors.CloneFromError.TheVariants.{Reallocation};

    ghost from_gives = { λ refusal e. e ≡ Reallocation refusal };

    fn from(refusal: ReallocationError) -> CloneFromError<E> {
        CloneFromError::Reallocation(refusal)
    }
}

/// Nothing was compacted, and nothing changed.
#[derive(Clone, Copy, Debug, PartialEq, Eq, Error)]
pub enum CompactError<I> {
    /// A stored item resolves to no entry; it is the first such one.
    #[error("a stored pointer does not resolve")]
    Unresolved(I),
    /// Memory for the recaster was refused.
    #[error("the recaster could not be made")]
    Reallocation(ReallocationError),
}

impl<I> From<ReallocationError> for CompactError<I> {
    ghost use Rattle.std.specs.Prelude.{◌≡◌};
    ghost use Rattle.triple_arena_base.specs.declared.errors.CompactError.TheVariants.{Reallocation};

    ghost from_gives = { λ refusal e. e ≡ Reallocation refusal };

    fn from(refusal: ReallocationError) -> CompactError<I> {
        CompactError::Reallocation(refusal)
    }
}
