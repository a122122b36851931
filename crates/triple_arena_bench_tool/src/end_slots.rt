//! Giving up free slots at the end of an arena, under a free list of so many others.

use crate::entry::{insert_each, sum_of};
use crate::timing::{RUNS, Timing, now, print, since};
use std::alloc::Global;
use std::io::Print;
use std::time::Clock;
use triple_arena::Arena;
use triple_arena_ptr::P0;

// How many free slots there are at the end.
const ENDS: u32 = 10;

type Numbers = Arena<P0, u64>;

/// Prints the least time of some removals of ten free slots at the end, where so many others are free,
/// in nanoseconds for each that goes, and the number of the entry that stays.
pub fn run(rt: &(impl Print + Clock), alloc: Global, size: u32) -> anyhow::Result<()> {
    let mut least = Timing::LONGEST;
    for _ in 0..RUNS {
        least = least.least(time_once(rt, alloc, size)?);
    }
    print(rt, "arena", size, &[("ends", ENDS, least)])
}

// Times the removal of the end slots of an arena. That of a small one is timed a moment before, so
// that neither the call nor the clock is waited for.
fn time_once(rt: &impl Clock, alloc: Global, size: u32) -> anyhow::Result<Timing> {
    let mut small = with_free_end(alloc, ENDS)?;
    let mut arena = with_free_end(alloc, size)?;
    let _small = time_removal(rt, &mut small);
    Ok(time_removal(rt, &mut arena))
}

fn time_removal(rt: &impl Clock, arena: &mut Numbers) -> Timing {
    let start = now(rt);
    arena.remove_free_end_slots();
    let time = since(rt, start);
    let sum = sum_of(&*arena);
    Timing { time, sum }
}

// So many free slots, one with an entry, and ten free slots, which the free list has one after another
// behind its first.
fn with_free_end(alloc: Global, size: u32) -> anyhow::Result<Numbers> {
    let mut arena = Arena::on_heap(alloc);
    let first = arena.insert(0)?;
    let others = insert_each(alloc, &mut arena, size.saturating_sub(1))?;
    arena.insert(size as u64)?;
    let ends = insert_each(alloc, &mut arena, ENDS)?;
    let last = arena.insert(0)?;
    remove_all(&mut arena, others);
    remove_all(&mut arena, ends);
    drop(arena.remove(first));
    drop(arena.remove(last));
    Ok(arena)
}

fn remove_all(arena: &mut Numbers, pointers: Vec<P0>) {
    for p in pointers {
        drop(arena.remove(p));
    }
}
