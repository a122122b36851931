//! Where the entries of an arena end.

ghost use Rattle.std.specs.Prelude.{◌≡◌, ◌≤◌};
ghost use Rattle.triple_arena_ptr.specs.Numbers.{greatest_index};
ghost use Rattle.triple_arena_traits.specs.FreeList.{last_index};

use crate::arena_trait::ArenaTrait;
use triple_arena_ptr::{Ptr, PtrInx};

/// The greatest index of an entry, or 0 where there is none.
pub fn last_index<P: Ptr, T, A: ArenaTrait<P, T>>(arena: &A) -> usize
    ensures value { result ≡ last_index (A.slots arena.now) }
    ensures indexed { result ≤ greatest_index P.Inx.greatest }
    ensures fits { result ≤ A.capacity arena.now }
{
    // No slot is past the capacity, nor past the greatest index.
    let _capacity = arena.capacity();
    match arena.find_last_inx_ptr() {
        Some(p) => P::Inx::try_into_usize(p.inx()).unwrap().get(),
        None => 0,
    }
}
