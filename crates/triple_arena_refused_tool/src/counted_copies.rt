//! Clones, transfers, compactions and pushes of values that are counted: as many are there as the arenas
//! and the stack hold, also where memory is refused.

ghost use Rattle.std.specs.Prelude.{◌≡◌};

use crate::compacting::{Compaction, compact_arena};
use crate::copying::{Copying, copy};
use crate::counted::Counted;
use crate::on_heap::with_room;
use crate::told::{NO_MEMORY, Told};
use std::alloc::Global;
use std::cell::Cell;
use triple_arena::Arena;
use triple_arena_ptr::{P0, Ptr};
use triple_arena_refused_kit::{End, Report, Wrong, holds};
use triple_arena_stack::{HeapStack, NonZeroInxGenericStack, NonZeroInxStack};

type Value<'a> = Counted<'a, P0>;

type Values<'a> = Arena<P0, Value<'a>>;

// A value without a link.
fn value(alloc: Global, live: &Cell<u64>) -> Value<'_> {
    Counted::new(7, None, alloc, live)
}

// Inserts a value, where there is a place.
fn put<T: Drop>(arena: &mut Arena<P0, T>, value: T) -> Result<(), Wrong> {
    holds(
        arena.insert_within_capacity(value).is_ok(),
        Wrong::Answer(0),
    )
}

// An arena of so many values, and no more room.
fn values(alloc: Global, count: usize, live: &Cell<u64>) -> Result<Values<'_>, Wrong> {
    let mut arena = with_room(alloc, count)?;
    for _ in 0..count {
        put(&mut arena, value(alloc, live))?;
    }
    Ok(arena)
}

// Whether there are so many values.
fn are_there(live: &Cell<u64>, count: usize) -> bool {
    live.get() == count as u64
}

// How it ended, where all of this holds.
fn ended(was_refused: bool, it: bool) -> Result<End, Wrong> {
    holds(it, Wrong::State(1))?;
    Ok(if was_refused {
        End::Refused
    } else {
        End::Ample
    })
}

// Whether a clone is made, of which there are three values more.
fn is_cloned<T: Clone + Drop>(alloc: Global, source: &Arena<P0, T>, live: &Cell<u64>) -> bool
    requires { (x y : T) → T.is_clone x y → y ≡ x }
{
    match source.clone(alloc) {
        Ok(_copy) => are_there(live, 6),
        Err(_refused) => false,
    }
}

// A clone that is refused lets go what was cloned before.
fn clone(alloc: Global) -> Result<End, Wrong> {
    let live = Cell::new(0);
    let source = values(alloc, 3, &live)?;
    let was_refused = !is_cloned(alloc, &source, &live);
    let are_left = are_there(&live, 3);
    let is_made = !was_refused || is_cloned(alloc, &source, &live);
    ended(was_refused, are_left && is_made && are_there(&live, 3))
}

// Whether a copy is made.
fn is_copied<'a>(target: &mut Values<'a>, source: &mut Values<'a>, copying: Copying) -> bool {
    copy(target, source, copying) == (None, 0)
}

// A clone into an arena of two lets those go, and keeps what was cloned.
fn clone_from(alloc: Global) -> Result<End, Wrong> {
    let live = Cell::new(0);
    let mut source = values(alloc, 3, &live)?;
    let mut target = values(alloc, 2, &live)?;
    let mut is_made = is_copied(&mut target, &mut source, Copying::Cloned);
    let count = source.len().saturating_add(target.len());
    let are_left = are_there(&live, count);
    let was_refused = !is_made;
    if was_refused {
        is_made = is_copied(&mut target, &mut source, Copying::Cloned);
    }
    ended(was_refused, are_left && is_made && are_there(&live, 6))
}

// Three values go over to an arena of two, which lets its own go, and none where that is refused.
fn transfer(alloc: Global) -> Result<End, Wrong> {
    let live = Cell::new(0);
    let mut source = values(alloc, 3, &live)?;
    let mut target = values(alloc, 2, &live)?;
    let was_refused = !is_copied(&mut target, &mut source, Copying::Transferred);
    let are_left = !was_refused || are_there(&live, 5);
    let is_made = !was_refused || is_copied(&mut target, &mut source, Copying::Transferred);
    ended(was_refused, are_left && is_made && are_there(&live, 3))
}

// What a compaction that renames links tells.
fn compact_once(arena: &mut Values<'_>, alloc: Global) -> Told {
    let mut holder = None;
    compact_arena(arena, alloc, Compaction::Renamed, &mut holder)
}

// A compaction lets no value go, where a link leads to no entry and where none is there.
fn compact(alloc: Global, link: Option<P0>) -> Result<End, Wrong> {
    let live = Cell::new(0);
    let mut arena = with_room(alloc, 1)?;
    put(&mut arena, Counted::new(7, link, alloc, &live))?;
    let mut told = compact_once(&mut arena, alloc);
    let are_left = are_there(&live, 1);
    let was_refused = told == NO_MEMORY;
    if was_refused {
        told = compact_once(&mut arena, alloc);
    }
    let is_told = (told == Told::Done) == link.is_none();
    ended(was_refused, are_left && is_told && are_there(&live, 1))
}

// Whether an item is pushed.
fn is_pushed<T: Drop, K: NonZeroInxGenericStack<T>>(
    stack: &mut NonZeroInxStack<T, K>,
    item: T,
) -> bool {
    stack.push(item).is_ok()
}

// An item that a full stack refuses for want of memory is let go.
fn push(alloc: Global) -> Result<End, Wrong> {
    let live = Cell::new(0);
    let mut stack: NonZeroInxStack<Value<'_>, HeapStack<Value<'_>>> =
        NonZeroInxStack::with_min_capacity(alloc, 1)?;
    let is_first = is_pushed(&mut stack, value(alloc, &live));
    let was_refused = !is_pushed(&mut stack, value(alloc, &live));
    let are_left = !was_refused || are_there(&live, 1);
    let is_made = !was_refused || is_pushed(&mut stack, value(alloc, &live));
    ended(
        was_refused,
        is_first && are_left && is_made && are_there(&live, 2),
    )
}

pub fn try_each(alloc: Global, report: &mut Report) {
    let (arena, stack) = ("an arena of counted values", "a stack of counted items");
    report.note("clone", arena, clone(alloc));
    report.note("clone_from", arena, clone_from(alloc));
    report.note("transfer_reallocating", arena, transfer(alloc));
    report.note("compress_recast", arena, compact(alloc, None));
    let dangling = compact(alloc, Some(P0::invalid()));
    report.note("compress_recast with a dangling link", arena, dangling);
    report.note("push", stack, push(alloc));
}
