//! What a call answers.

use crate::calls::stop::Stop;
use std::alloc::Global;
use std::fmt::Debug;

/// What a call answered, as text, or why the transcript ends.
pub type Answer = Result<String, Stop>;

/// An answer as `Debug` writes it.
pub fn shown<T: Debug>(alloc: Global, answer: &T) -> Answer {
    Ok(format!(in alloc; "{answer:?}")?)
}
