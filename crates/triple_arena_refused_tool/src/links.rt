//! Pointers by their numbers.

use triple_arena_ptr::Ptr;
use triple_arena_test_kit::{Numbered, numbers_of, pointer};

/// The numbers of the index and of the generation of a pointer, if there is one.
pub type Link = Option<(usize, u64)>;

/// The pointer of a link.
pub fn linked<P: Ptr>(link: Link) -> Option<P>
where
    P::Gen: Numbered,
{
    match link {
        Some((index, generation)) => Some(pointer(index, generation)),
        None => None,
    }
}

/// The numbers of a pointer, if there is one.
pub fn link_of<P: Ptr>(p: Option<P>) -> Link
where
    P::Gen: Numbered,
{
    match p {
        Some(p) => Some(numbers_of(p)),
        None => None,
    }
}

/// The number of which a link is shown: 100 times the index, and the generation; 0 where there is none.
pub fn shown_link(link: Link) -> u64 {
    match link {
        Some((index, generation)) => (index as u64).wrapping_mul(100).wrapping_add(generation),
        None => 0,
    }
}
