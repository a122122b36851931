//! A list beside an arena, by the indexes of its pointers.

ghost use Rattle.std.specs.Prelude.{◌≡◌, ◌-◌, slice_get, option_copied};

use triple_arena_ptr::{Ptr, PtrInx};

/// What a list holds for a pointer of any type: its items go by index, from 1.
pub fn item_beside<P: Ptr, T>(items: &[T], p: P) -> Option<&T>
    ensures { option_copied result ≡ slice_get items.now ((P.numbers p).0 - 1) }
{
    let inx = P::Inx::try_into_usize(p.inx())?;
    items.get(inx.get() - 1)
}
