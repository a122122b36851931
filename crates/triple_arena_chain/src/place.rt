//! Where a value is put into a chain, and why a call was refused.

use thiserror::Error;

/// A call on chains was refused, and what is read of them stays the same.
#[derive(Clone, Copy, Debug, PartialEq, Eq, Error)]
pub enum ChainError {
    /// The pointer finds nothing.
    #[error("there is no such entry")]
    NoEntry,
    /// The entry has a neighbour on that side.
    #[error("the place is taken")]
    Taken,
    /// The limit of the arena is reached.
    #[error("there is no room")]
    NoRoom,
    /// Memory was refused, or there is no greater index.
    #[error("memory was refused")]
    NoMemory,
}

/// Where a value is put into a chain.
#[derive(Clone, Copy, Debug, PartialEq, Eq)]
pub enum Place<P> {
    /// Right after the entry of this pointer.
    After(P),
    /// Right before it.
    Before(P),
}
