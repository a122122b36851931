//! Pointers by the numbers of their indexes.

use std::num::NonZeroUsize;
use triple_arena_ptr::{Ptr, PtrGen, PtrInx};

/// The pointer of an index number and the first generation of a counter.
pub fn at<P: Ptr>(number: usize) -> Option<P> {
    Some(P::_from_raw(
        P::Inx::try_from_usize(NonZeroUsize::new(number)?)?,
        P::Gen::two(),
    ))
}
