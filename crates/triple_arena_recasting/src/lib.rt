//! What is called over any arena: compaction that renames held pointers, values that come from an iterator, and entries that
//! a closure keeps. It is an inner crate behind `triple_arena_direct`, apart so that it is proved beside `triple_arena`.
#![tactic(auto)]

mod errors;
mod extending;
mod map_values;
mod reading;
mod renaming;
mod renaming_both;
pub mod renaming_laws;
mod retaining;
mod three_parts;

pub use errors::CompactBothError;
pub use extending::{extend, from_iter};
pub use map_values::{recast_hash_values, recast_values};
pub use reading::Reading;
pub use renaming::{compress_recast, compress_recast_with, compress_recaster, unresolved};
pub use renaming_both::{compress_recast_both, compress_recast_both_with};
pub use retaining::retain;
pub use three_parts::recast_three;
