//! An arena of numbers, each under its pointer.

use crate::arena::table::{OwnTable, Table};
use crate::entry::sum_of;
use std::alloc::Global;
use triple_arena::{Arena, ArenaInsertTrait};
use triple_arena_base::ReallocationError;
use triple_arena_ptr::Ptr;

impl<P: Ptr> Table for Arena<P, u64> {
    type Name = P;

    // The trait's call is the one that is always inlined.
    #[inline(always)]
    fn put(&mut self, number: u64) -> Result<P, ReallocationError> {
        ArenaInsertTrait::insert(self, number)
    }

    fn read(&self, name: P) -> u64 {
        self.get(name).copied().unwrap_or(0)
    }

    fn sum_all(&self) -> u64 {
        sum_of(self)
    }

    #[inline(always)]
    fn take_out(&mut self, name: P) -> u64 {
        self.remove(name).allow().unwrap_or(0)
    }

    fn take_out_all(&mut self) {
        self.clear().allow();
    }
}

impl<P: Ptr> OwnTable for Arena<P, u64> {
    fn empty(alloc: Global) -> Self {
        Arena::on_heap(alloc)
    }
}
