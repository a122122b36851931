//! Compactions that make a map: memory for it is asked for before any link is looked at.

use crate::calls::{Call, Tried, make_each};
use crate::compacting::{Compacted, Compaction};
use crate::direct::Direct;
use crate::links::{Link, link_of, linked};
use crate::on_heap::OnHeap;
use crate::state::State;
use crate::strict::Strict;
use crate::told::{NO_MEMORY, Told};
use crate::value::{plain, with_link};
use std::alloc::Global;
use triple_arena_ptr::P0;
use triple_arena_refused_kit::{End, Report, Wrong, holds};

/// The link of the last of three nodes to the first.
pub const LINKED: Link = Some((1, 2));

/// The numbers of the invalid pointer, which leads to no entry.
const INVALID: (usize, u64) = (usize::MAX, 1);

/// A link of that pointer.
pub const DANGLING: Link = Some(INVALID);

/// What refuses a compaction for that link.
pub const DANGLES: Told = Told::At(INVALID.0, INVALID.1);

/// A compaction, and where the third of three nodes leads, and a holder beside the arena.
#[derive(Clone, Copy)]
pub struct Case {
    pub compaction: Compaction,
    pub link: Link,
    pub holder: Link,
}

impl Case {
    // Whether one of both leads to no entry.
    fn dangles(&self) -> bool {
        self.link == DANGLING || self.holder == DANGLING
    }

    // Where the third node leads then, under this generation.
    fn link_then(&self, generation: u64) -> Link {
        match self.compaction {
            Compaction::Mapped => self.link,
            _ => Some((1, generation)),
        }
    }

    // Where the holder of the third node leads then.
    fn holder_then(&self, generation: u64) -> Link {
        match self.holder {
            Some(_third) => Some((2, generation)),
            None => None,
        }
    }
}

// Whether the third node has moved to index 2, with this generation and this link, of a state.
fn has_moved(state: &State, generation: u64, link: Link) -> bool {
    let moved = Some((generation, with_link(3, link).shown()));
    state.entries[1] == moved && state.entries[2].is_none()
}

// A compaction, and once more where memory is refused, which changes nothing. A dangling link
// refuses it too, and changes nothing; else the third node has moved to index 2, with this
// generation, and where links are renamed its own leads to the first, which has it too.
fn compacts<A: Tried + Compacted>(
    alloc: Global,
    arena: &mut A,
    case: &Case,
    generation: u64,
) -> Result<End, Wrong> {
    let mut holder: Option<P0> = linked(case.holder);
    let before = arena.seen();
    let mut told = arena.compact(alloc, case.compaction, &mut holder);
    let (mut end, mut is_left) = (End::Ample, true);
    if told == NO_MEMORY {
        is_left = arena.seen() == before && link_of(holder) == case.holder;
        told = arena.compact(alloc, case.compaction, &mut holder);
        end = End::Refused;
    }
    let (left, held) = (arena.seen(), link_of(holder));
    let (expected, stands) = if case.dangles() {
        (DANGLES, left == before && held == case.holder)
    } else {
        let has_moved = has_moved(&left, generation, case.link_then(generation));
        (
            Told::Done,
            has_moved && held == case.holder_then(generation),
        )
    };
    holds(is_left && told == expected, Wrong::Answer(1))?;
    holds(stands, Wrong::State(1))?;
    Ok(end)
}

// Three nodes, of which the second is removed: the third has this link.
fn nodes(link: Link) -> [Call; 4] {
    [
        Call::Insert(plain(1)),
        Call::Insert(with_link(2, LINKED)),
        Call::Insert(with_link(3, link)),
        Call::Remove(2),
    ]
}

// Makes these calls on an arena without entries, which is compacted first: that takes no memory.
fn begins<A: Tried + Compacted>(
    alloc: Global,
    arena: &mut A,
    compaction: Compaction,
    calls: &[Call],
) -> Result<(), Wrong> {
    let told = arena.compact(alloc, compaction, &mut None);
    holds(told == Told::Done, Wrong::Answer(0))?;
    make_each(alloc, arena, calls)
}

/// Compacts an arena.
pub fn on_heap(alloc: Global, case: &Case) -> Result<End, Wrong> {
    let mut arena = OnHeap::with_room(alloc, 3)?;
    begins(alloc, &mut arena, case.compaction, &nodes(case.link))?;
    compacts(alloc, &mut arena, case, 4)
}

// A strict arena of three nodes.
fn strict_nodes(alloc: Global, link: Link) -> Result<Strict, Wrong> {
    let mut arena = Strict::with_room(alloc, 3)?;
    begins(alloc, &mut arena, Compaction::Renamed, &nodes(link))?;
    Ok(arena)
}

/// Compacts a strict arena.
pub fn strictly(alloc: Global, case: &Case) -> Result<End, Wrong> {
    compacts(alloc, &mut strict_nodes(alloc, case.link)?, case, 4)
}

// Compacts a direct arena without the second node.
fn directly(alloc: Global, case: &Case) -> Result<End, Wrong> {
    let nodes = [
        Call::Place(1, 2, plain(1)),
        Call::Place(3, 2, with_link(3, case.link)),
    ];
    let mut arena = Direct::with_room(alloc, 3)?;
    begins(alloc, &mut arena, case.compaction, &nodes)?;
    compacts(alloc, &mut arena, case, 2)
}

// How a renewal ended: the third node has moved to index 2, under the first generation, as the first has.
fn renewed(arena: &Strict, told: Told, is_left: bool, end: End) -> Result<End, Wrong> {
    holds(told == Told::Done, Wrong::Answer(1))?;
    holds(
        is_left && has_moved(&arena.seen(), 2, LINKED),
        Wrong::State(1),
    )?;
    Ok(end)
}

// A renewal, and where memory is refused once more, of the arena that comes back as it was.
fn renews(alloc: Global) -> Result<End, Wrong> {
    let arena = strict_nodes(alloc, LINKED)?;
    let before = arena.seen();
    let (arena, told) = arena.renewed(alloc);
    if told != NO_MEMORY {
        return renewed(&arena, told, true, End::Ample);
    }
    let is_left = arena.seen() == before;
    let (arena, told) = arena.renewed(alloc);
    renewed(&arena, told, is_left, End::Refused)
}

// The names of compactions, and the compactions: without a holder.
const MAPPED: (&str, Case) = (
    "compress_recaster",
    Case {
        compaction: Compaction::Mapped,
        link: LINKED,
        holder: None,
    },
);

const RENAMED: (&str, Case) = (
    "compress_recast",
    Case {
        compaction: Compaction::Renamed,
        link: LINKED,
        holder: None,
    },
);

const DANGLING_RENAMED: (&str, Case) = (
    "compress_recast with a dangling link",
    Case {
        compaction: Compaction::Renamed,
        link: DANGLING,
        holder: None,
    },
);

pub fn try_each(alloc: Global, report: &mut Report) {
    for (name, case) in &[MAPPED, RENAMED, DANGLING_RENAMED] {
        report.note(*name, "an arena", on_heap(alloc, case));
        report.note(*name, "a direct arena", directly(alloc, case));
    }
    for (name, case) in &[RENAMED, DANGLING_RENAMED] {
        report.note(*name, "a strict arena", strictly(alloc, case));
    }
    report.note("renew", "a strict arena", renews(alloc));
}
