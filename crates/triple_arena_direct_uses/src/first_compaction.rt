//! A first compaction.

use std::alloc::Global;
use triple_arena_direct::{Arena, CompactError, P0, compress_recast};

/// Of three values, the third holds the pointer of the second, and the first goes. A compaction moves the
/// other two, and renames that pointer with them: what the third leads to then is still the second.
pub fn first_compaction(alloc: Global) -> Result<Option<u64>, CompactError<P0>> {
    let mut arena: Arena<P0, (u64, Option<P0>)> = Arena::on_heap(alloc);
    let first = arena.insert((10, None))?;
    let second = arena.insert((20, None))?;
    let third = arena.insert((30, Some(second)))?;
    arena.remove(first).allow();
    let renamed = compress_recast(&mut arena, alloc, false)?.allow(); // each new pointer, under the old one
    let led_to = renamed.get(third).and_then(|p| arena.get(*p)?.1);
    Ok(led_to.and_then(|p| Some(arena.get(p)?.0)))
}
