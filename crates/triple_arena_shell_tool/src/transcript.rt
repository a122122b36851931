//! Transcripts, from their first line to their last.

use crate::calls::Stop;
use crate::families::{Family, follow};
use std::alloc::Global;

/// Reads a transcript, and writes it with the answers of this run. The number is of the last line that was read, from 1.
pub fn run<R: Print + Input>(rt: &R, alloc: Global, number: &mut u64) -> Result<(), Stop> {
    let mut family = Family::P0;
    for _ in 0..u64::MAX {
        match follow(rt, alloc, number, family)? {
            Some(next) => family = next,
            None => return Ok(()),
        }
    }
    Ok(())
}
