//! Walks over direct arenas.

mod by_value;
mod iter;
mod iter_mut;

pub use iter_mut::{IterMut, ValsMut};
pub use triple_arena_traits::arena_iterators::{
    CapacityDrain, Drain, Iter, PtrAdvancer, Ptrs, Vals,
};
