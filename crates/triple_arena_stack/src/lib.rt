//! Stacks whose items are numbered from 1, under one contract. It is a door.
#![tactic(auto)]

mod array;
mod boxed_slice;
mod growth;
mod limited_vec;
mod non_zero_inx_stack;
mod pair;
mod push_entry;
mod set_max_capacity;
mod stack;
mod vec;

pub use array::{ArrayStack, NonZeroInxArray, NonZeroInxArrayPushEntry};
pub use boxed_slice::{FixedStack, NonZeroInxBoxedSlice, NonZeroInxBoxedSlicePushEntry};
pub use growth::grown_capacity;
pub use limited_vec::{LimitedStack, NonZeroInxLimitedVec, NonZeroInxLimitedVecPushEntry};
pub use non_zero_inx_stack::NonZeroInxStack;
pub use pair::{pair_if, pair_of};
pub use push_entry::{NonZeroInxGenericStackPushEntryTrait, PushEntry};
pub use set_max_capacity::SetMaxCapacity;
pub use stack::NonZeroInxGenericStack;
pub use vec::{HeapStack, NonZeroInxVec, NonZeroInxVecPushEntry};
