//! What no clause of the stacks says: that their calls succeed where memory is there, also at large
//! sizes, real refusals of memory, drops, worked examples, and callers that stand on the contract alone.

mod calls;
mod client;
mod drops;
mod entries;
mod items;
mod memory;
mod rows;
mod sizes;
mod tables;
