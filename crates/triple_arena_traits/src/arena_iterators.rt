//! Walks over arenas: advancers, iterators and drains.

mod drain;
mod iter;
mod ptr_advancer;

pub(crate) use drain::take_next;
pub use drain::{CapacityDrain, Drain};
pub use iter::{Iter, Ptrs, Vals};
pub use ptr_advancer::PtrAdvancer;
