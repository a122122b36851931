//! Stacks whose limit can be set.
ghost use Rattle.std.specs.Prelude.{◌≡◌, ◌≤◌, ◌↔◌, length, IsOk, OnOk, OnErr};

use crate::stack::NonZeroInxGenericStack;
use triple_arena_base::MaxCapacityReductionError;

/// A stack whose limit can be set.
pub trait SetMaxCapacity<T>: NonZeroInxGenericStack<T> {
    /// Sets the limit to `max_capacity`. Items and room stay. It takes no memory.
    ///
    /// Refused exactly where there are more items; then the stack is unchanged.
    fn set_max_capacity(&mut self, max_capacity: usize) -> Result<(), MaxCapacityReductionError>
        ensures variant { IsOk result ↔ (length (Self.items self.old) ≤ max_capacity) }
        ensures items { Self.items self.new ≡ Self.items self.old }
        ensures room { Self.room self.new ≡ Self.room self.old }
        ensures limit { OnOk result (Self.limit self.new ≡ Some max_capacity) }
        ensures refused { OnErr result (self.new ≡ self.old) };
}
