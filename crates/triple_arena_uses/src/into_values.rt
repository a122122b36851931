//! An arena that is taken apart.

ghost use Rattle.std.specs.Prelude.{◌≡◌, IfOk};
ghost use Rattle.triple_arena.specs.Walks.{values};

use std::alloc::{AllocError, Global};
use triple_arena::Arena;
use triple_arena_ptr::Ptr;

/// The values of an arena, in the order of their indexes.
///
/// Refused where memory is.
pub fn into_values<P: Ptr, T: Drop>(alloc: Global, arena: Arena<P, T>) -> Result<Vec<T>, AllocError>
    ensures { IfOk result (λ all. all.items ≡ values arena.slots) }
{
    let mut all = Vec::with_capacity(alloc, arena.len())?;
    'walk: for (_p, value) in arena {
        all.push(value)?;
    }
    Ok(all)
}
