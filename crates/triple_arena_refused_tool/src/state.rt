//! All that an arena shows of itself, to compare before and after a call.

use triple_arena_refused_kit::{FreeList, SLOTS};

/// By index from 1, the number of the generation of each entry, and that of which its value is shown.
pub type Entries = [Option<(u64, u64)>; SLOTS];

/// Those of an arena without entries.
pub fn no_entries() -> Entries {
    [None; SLOTS]
}

/// The whole state of an arena of no more than `SLOTS` slots.
#[derive(Clone, Copy, PartialEq)]
pub struct State {
    pub len: usize,
    pub capacity: usize,
    pub limit: Option<usize>,
    // a direct arena has none
    pub counter: Option<u64>,
    pub slots: usize,
    pub entries: Entries,
    pub free: FreeList,
}

// How many slots there are up to the last entry.
fn slots_up_to_last(entries: &Entries) -> usize {
    let mut slots = 0;
    for at in 0..SLOTS {
        if entries[at].is_some() {
            slots = at + 1;
        }
    }
    slots
}

// The indexes up to this one that have no entry, in rising order.
fn free_up_to(slots: usize, entries: &Entries) -> [usize; SLOTS] {
    let mut free = [0; SLOTS];
    let mut place = 0;
    for at in 0..SLOTS {
        if at < slots && entries[at].is_none() && place < SLOTS {
            free[place] = at + 1;
            place += 1;
        }
    }
    free
}

impl State {
    /// This state without free slots past the last entry, and with the other free indexes, where there is
    /// a free list, in rising order.
    pub fn tidied(self) -> Self {
        let slots = slots_up_to_last(&self.entries);
        let free = match self.free {
            FreeList::Missing => FreeList::Missing,
            _ => FreeList::Indexes(free_up_to(slots, &self.entries)),
        };
        State {
            slots,
            free,
            ..self
        }
    }

    /// What stands where more room was refused: the free list is tidied, if there is one.
    pub fn refused(self) -> Self {
        match self.free {
            FreeList::Missing => self,
            _ => self.tidied(),
        }
    }
}
