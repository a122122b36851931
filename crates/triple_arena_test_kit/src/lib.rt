//! What tests share, and in part the tools that refuse memory: assertions as calls, and pointers of each kind.
#![tactic(auto)]

mod assertions;
mod b;
mod numbered;
mod pointers;

pub use assertions::{Unequal, Unlike, are_written, is, is_shown};
pub use b::B;
pub use numbered::{Numbered, index_number, inx, named_index, numbers_of, pointer};
pub use pointers::{Narrow, PtrOf, Wide};
