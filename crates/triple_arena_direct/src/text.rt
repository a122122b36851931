//! The text of a strict arena.

use crate::strict_arena::StrictArena;
use std::fmt;
use triple_arena::ArenaSlot;
use triple_arena_ptr::Ptr;
use triple_arena_stack::NonZeroInxGenericStack;

impl<P: Ptr, T: fmt::Debug, S: NonZeroInxGenericStack<ArenaSlot<P, T>>> fmt::Debug
    for StrictArena<P, T, S> {
    /// Writes what the arena inside does, `{pointer: value, ..}` by index.
    fn fmt<W: fmt::Write>(&self, f: &mut fmt::Formatter<W>) -> fmt::Result {
        fmt::Debug::fmt(self.arena(), f)
    }
}
