//! Arenas under their names.

use crate::calls::{Answer, Stop, shown};
use crate::held::Held;
use std::alloc::Global;
use triple_arena_base::AllocError;

// An arena under a name.
#[derive(Drop)]
struct Named<H> {
    name: String,
    held: H,
}

/// Arenas of one family, under their names.
#[derive(Drop)]
pub struct Shelf<H> {
    arenas: Vec<Named<H>>,
}

impl<H: Held + Drop> Shelf<H> {
    /// No arena.
    pub fn new(alloc: Global) -> Shelf<H> {
        Shelf {
            arenas: Vec::new(alloc),
        }
    }

    /// Makes an arena of the kind that a word names, and puts it under a name, where it takes the place of another. Where
    /// memory is refused to it, that other one stays.
    pub fn make(&mut self, alloc: Global, name: &str, kind: &str, room: Option<usize>) -> Answer {
        match H::make(alloc, kind, room) {
            Ok(Some(held)) => {
                self.put(alloc, name, held)?;
                shown(alloc, &Ok::<(), AllocError>(()))
            }
            Ok(None) => Err(Stop::Malformed),
            Err(refused) => shown(alloc, &Err::<(), AllocError>(refused)),
        }
    }

    fn put(&mut self, alloc: Global, name: &str, held: H) -> Result<(), Stop> {
        self.take_away(name);
        let name = String::from_str(alloc, name)?;
        self.arenas.push(Named { name, held })?;
        Ok(())
    }

    // Lets the arena of a name go; whether there was one.
    fn take_away(&mut self, name: &str) -> bool {
        for at in 0..self.arenas.len() {
            if self.arenas[at].name.as_str() == name {
                drop(self.arenas.swap_remove(at));
                return true;
            }
        }
        false
    }

    /// Lets the arena of this name go.
    pub fn end(&mut self, alloc: Global, name: &str) -> Answer {
        if !self.take_away(name) {
            return Err(Stop::Malformed);
        }
        shown(alloc, &())
    }

    /// Makes a call of the arena of this name.
    pub fn call(&mut self, alloc: Global, name: &str, call: &[&str]) -> Answer {
        for named in self.arenas.iter_mut() {
            if named.name.as_str() == name {
                return named.held.call(alloc, call);
            }
        }
        Err(Stop::Malformed)
    }
}
