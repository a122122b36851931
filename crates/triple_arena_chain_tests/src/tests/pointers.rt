//! Pointers by numbers, of which the first that is given has 0, the next 1, and so on.

use std::alloc::Global;
use std::process::Abort;
use triple_arena_chain::DirectArena;
use triple_arena_ptr::{P0, Ptr};

/// Pointers in the order in which they were given.
#[derive(Drop)]
pub struct Pointers {
    all: Vec<P0>,
}

impl Pointers {
    pub fn new(alloc: Global) -> Pointers {
        Pointers {
            all: Vec::new(alloc),
        }
    }

    /// The pointer of a number, and where none has it, one that finds nothing.
    pub fn at(&self, number: usize) -> P0 {
        self.all.get(number).copied().unwrap_or(P0::invalid())
    }

    /// Gives a pointer the next number.
    pub fn push(&mut self, rt: &impl Abort, p: P0) {
        self.all.push(p).expect(rt, "memory");
    }

    /// Has each number name the new pointer of a compaction.
    pub fn rename(&mut self, map: &DirectArena<P0, P0>) {
        for p in self.all.iter_mut() {
            *p = map.get(*p).copied().unwrap_or(P0::invalid());
        }
    }
}
