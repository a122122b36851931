//! What an insertion gives back where it is refused.

use triple_arena_base::ReallocationError;

/// Nothing was inserted: the value that was to be, and why. `?` makes its error of it, and drops the
/// value.
#[derive(Debug, Clone, Copy, PartialEq, Eq, Drop)]
pub struct InsertFailed<T> {
    /// What was not inserted.
    pub value: T,
    /// Why it was refused.
    pub error: ReallocationError,
}

impl<T: Drop> From<InsertFailed<T>> for ReallocationError {
    ghost use Rattle.std.specs.Prelude.{◌≡◌};

    ghost from_gives = { λ failed error. error ≡ failed.error };

    fn from(failed: InsertFailed<T>) -> ReallocationError {
        failed.error
    }
}
