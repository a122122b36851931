//! What each table does, arena or not.

use std::alloc::Global;
use triple_arena_base::ReallocationError;

/// Numbers, each under the name that its insertion gave.
pub trait Table {
    type Name: Copy;

    fn put(&mut self, number: u64) -> Result<Self::Name, ReallocationError>;

    /// The number under `name`, or 0.
    fn read(&self, name: Self::Name) -> u64;

    /// The sum of all numbers, in the order in which they lie.
    fn sum_all(&self) -> u64;

    /// Takes out the number under `name`, or gives 0.
    fn take_out(&mut self, name: Self::Name) -> u64;

    fn take_out_all(&mut self);
}

/// A table that a generic function can own.
pub trait OwnTable: Table + Drop {
    /// A table without numbers, and without room.
    fn empty(alloc: Global) -> Self;
}
