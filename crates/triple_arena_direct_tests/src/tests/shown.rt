//! The texts of arenas over the heap. To show an arena that is named takes its caller some five seconds to prove, so each
//! kind of arena is shown here alone.

use std::alloc::Global;
use std::fmt::Debug;
use triple_arena::Arena;
use triple_arena_direct::{DirectArena, StrictArena};
use triple_arena_ptr::Ptr;
use triple_arena_test_kit::{Unlike, is_shown};

/// That Debug writes this text of an arena.
pub fn arena_is_shown<P: Ptr, T: Debug>(
    alloc: Global,
    arena: &Arena<P, T>,
    text: &str,
) -> Result<(), Unlike> {
    is_shown(alloc, arena, text)
}

/// So of a direct arena.
pub fn direct_is_shown<P: Ptr, T: Debug>(
    alloc: Global,
    arena: &DirectArena<P, T>,
    text: &str,
) -> Result<(), Unlike> {
    is_shown(alloc, arena, text)
}

/// So of a strict arena.
pub fn strict_is_shown<P: Ptr, T: Debug>(
    alloc: Global,
    arena: &StrictArena<P, T>,
    text: &str,
) -> Result<(), Unlike> {
    is_shown(alloc, arena, text)
}
