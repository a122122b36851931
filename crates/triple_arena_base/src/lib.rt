//! Refusals, small answers and recasting: the ground that the arena crates share. It is a door.
#![tactic(auto)]

mod advancer;
mod errors;
mod invalidation;
mod nonzero_range;
mod recast;
mod recast_impls;

pub use advancer::Advancer;
pub use errors::{
    AllocError, ChainInsertionError, CloneFromError, CompactError, DirectInsertionError,
    GetDisjointMutError, MaxCapacityReductionError, NotWithinCapacityError, OrdInsertionError,
    ReallocationError,
};
pub use invalidation::{InvalidationOption, InvalidationResult};
pub use nonzero_range::{IntoNonZeroUsizeIterator, NonZeroUsizeIterator, nzusize_iter};
pub use recast::{Recast, Recaster, recast_both};
