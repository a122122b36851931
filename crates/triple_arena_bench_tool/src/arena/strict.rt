//! A strict arena of numbers, each under its pointer.

use crate::arena::table::Table;
use crate::entry::sum_of;
use triple_arena_base::ReallocationError;
use triple_arena_direct::StrictArena;
use triple_arena_ptr::P0;

impl Table for StrictArena<P0, u64> {
    type Name = P0;

    #[inline(always)]
    fn put(&mut self, number: u64) -> Result<P0, ReallocationError> {
        self.insert(number)
    }

    fn read(&self, name: P0) -> u64 {
        self.get(name).copied().unwrap_or(0)
    }

    fn sum_all(&self) -> u64 {
        sum_of(self.arena())
    }

    #[inline(always)]
    fn take_out(&mut self, name: P0) -> u64 {
        self.remove(name).unwrap_or(0)
    }

    fn take_out_all(&mut self) {
        let _answer = self.clear();
    }
}
