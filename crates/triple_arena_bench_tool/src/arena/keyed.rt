//! A slab of numbers, each under its key.

use crate::arena::table::{OwnTable, Table};
use slab::Slab;
use std::alloc::Global;
use triple_arena_base::ReallocationError;

impl Table for Slab<u64> {
    type Name = usize;

    #[inline(always)]
    fn put(&mut self, number: u64) -> Result<usize, ReallocationError> {
        match self.insert(number) {
            Ok(key) => Ok(key),
            Err(_) => Err(ReallocationError::AllocError),
        }
    }

    fn read(&self, key: usize) -> u64 {
        self.get(key).copied().unwrap_or(0)
    }

    fn sum_all(&self) -> u64 {
        let mut sum = 0u64;
        for (_key, number) in self.iter() {
            sum = sum.wrapping_add(*number);
        }
        sum
    }

    #[inline(always)]
    fn take_out(&mut self, key: usize) -> u64 {
        self.try_remove(key).unwrap_or(0)
    }

    fn take_out_all(&mut self) {
        self.clear();
    }
}

impl OwnTable for Slab<u64> {
    fn empty(alloc: Global) -> Self {
        Slab::new(alloc)
    }
}
