//! A vector of numbers with a vector of free indexes.

use crate::arena::table::{OwnTable, Table};
use crate::entry::sum_of_places;
use std::alloc::Global;
use triple_arena_base::ReallocationError;

/// The floor of an arena: no generations, and no link in a slot.
#[derive(Drop)]
pub struct Plain {
    numbers: Vec<Option<u64>>,
    free: Vec<usize>,
}

impl Table for Plain {
    type Name = usize;

    #[inline(always)]
    fn put(&mut self, number: u64) -> Result<usize, ReallocationError> {
        let Some(inx) = self.free.pop() else {
            let end = self.numbers.len();
            return match self.numbers.push(Some(number)) {
                Ok(()) => Ok(end),
                Err(_) => Err(ReallocationError::AllocError),
            };
        };
        if let Some(place) = self.numbers.get_mut(inx) {
            *place = Some(number);
        }
        Ok(inx)
    }

    fn read(&self, inx: usize) -> u64 {
        self.numbers.get(inx).copied().flatten().unwrap_or(0)
    }

    fn sum_all(&self) -> u64 {
        sum_of_places(&self.numbers)
    }

    #[inline(always)]
    fn take_out(&mut self, inx: usize) -> u64 {
        let Some(number) = self.numbers.get_mut(inx).and_then(Option::take) else {
            return 0;
        };
        let _ = self.free.push(inx);
        number
    }

    fn take_out_all(&mut self) {
        self.numbers.clear();
        self.free.clear();
    }
}

impl OwnTable for Plain {
    fn empty(alloc: Global) -> Self {
        Plain {
            numbers: Vec::new(alloc),
            free: Vec::new(alloc),
        }
    }
}
