//! Numbers that are counted as long as they live.

use std::alloc::Global;
use std::cell::Cell;
use std::process::Abort;
use std::rc::Rc;

/// How many values there are.
pub type Live = Rc<Cell<usize>>;

/// A number that is counted.
pub struct Value {
    pub number: u64,
    live: Option<Live>,
}

impl Drop for Value {
    fn drop(self) {
        let Value { number: _, live } = self;
        if let Some(live) = live {
            live.set(live.get().wrapping_sub(1));
        }
    }
}

/// No value, which is counted.
pub fn no_values(rt: &impl Abort, alloc: Global) -> Live {
    Rc::new(alloc, Cell::new(0)).expect(rt, "memory")
}

/// A new value, which is counted.
pub fn new_value(live: &Live, number: u64) -> Value {
    live.set(live.get().wrapping_add(1));
    Value {
        number,
        live: live.clone().ok(),
    }
}
