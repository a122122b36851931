//! What the arenas and the vectors that are timed hold.

use std::alloc::Global;
use triple_arena::{Arena, CompactArenaTrait};
use triple_arena_ptr::{P0, Ptr};

/// A number, and the pointer of the node before it that stays.
pub type Node = (u64, Option<P0>);

/// An entry with a number.
pub trait Entry: Drop {
    /// Of this number, and with a link to the entry before it that stays, if it has links.
    fn of(number: u64, before: Option<P0>) -> Self;

    fn number(&self) -> u64;
}

impl Entry for u64 {
    fn of(number: u64, _before: Option<P0>) -> Self {
        number
    }

    fn number(&self) -> u64 {
        *self
    }
}

impl Entry for Node {
    fn of(number: u64, before: Option<P0>) -> Self {
        (number, before)
    }

    fn number(&self) -> u64 {
        self.0
    }
}

/// Inserts the numbers below `size`.
pub fn insert_each<P: Ptr>(
    alloc: Global,
    arena: &mut Arena<P, u64>,
    size: u32,
) -> anyhow::Result<Vec<P>> {
    let mut pointers = Vec::with_capacity(alloc, size as usize)?;
    for number in 0..size {
        pointers.push(arena.insert(number as u64)?)?;
    }
    Ok(pointers)
}

/// A vector of the numbers below `size`, each in its place.
pub fn places(alloc: Global, size: u32) -> anyhow::Result<Vec<Option<u64>>> {
    let mut numbers = Vec::with_capacity(alloc, size as usize)?;
    for number in 0..size {
        numbers.push(Some(number as u64))?;
    }
    Ok(numbers)
}

/// The sum of all numbers, modulo 2^64, in the order in which they lie. It is inlined where it is timed, as a walk is
/// in the code of a user.
#[inline(always)]
pub fn sum_of<P: Ptr, T: Entry>(arena: &Arena<P, T>) -> u64 {
    let mut sum = 0u64;
    let mut entries = arena.vals();
    'sum: while let Some(entry) = entries.next() {
        sum = sum.wrapping_add(entry.number());
    }
    sum
}

/// The sum of all numbers of a vector, modulo 2^64, in the order in which they lie.
pub fn sum_of_places(numbers: &[Option<u64>]) -> u64 {
    let mut sum = 0u64;
    for number in numbers.iter().flatten() {
        sum = sum.wrapping_add(*number);
    }
    sum
}
