//! What no clause of these users says: that their calls succeed where memory is there, and worked examples.

mod beside;
mod counting_stack;
mod small_ptr;
mod undo;
pub mod values;
mod walks;
