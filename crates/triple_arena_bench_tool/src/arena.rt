//! Insertion, reading, churn, a walk, clearing and removal: of an arena, with the pointer of general use and with the
//! small one, of a strict arena with the first, of a slab, and of a plain vector with free indexes. What is timed isn't
//! inlined, so that each table's loop is compiled alike.

mod general;
mod keyed;
mod plain;
mod strict;
mod table;

use crate::timing::{RUNS, Timing, now, print, since};
use plain::Plain;
use rand_core::Rng;
use rand_pcg::Pcg64Mcg;
use slab::Slab;
use std::alloc::Global;
use std::io::Print;
use std::time::Clock;
use table::{OwnTable, Table};
use triple_arena::Arena;
use triple_arena_direct::StrictArena;
use triple_arena_ptr::{P0, SmallPtr};

/// A source of random numbers, which are the same in each run.
pub fn new_random() -> Pcg64Mcg {
    Pcg64Mcg::new(0xcafe_f00d_d15e_a5e5)
}

/// A number below `bound`, or 0, from the upper bits of the next one.
pub fn below(random: &mut Pcg64Mcg, bound: u32) -> usize {
    let upper = random.next_u64() >> 32;
    (upper.wrapping_mul(bound as u64) >> 32) as usize
}

// The operations in the order in which they are timed.
#[derive(Clone, Copy)]
struct Timings {
    insert: Timing,
    get: Timing,
    churn: Timing,
    iterate: Timing,
    clear: Timing,
    remove: Timing,
}

impl Timings {
    const LONGEST: Timings = Timings {
        insert: Timing::LONGEST,
        get: Timing::LONGEST,
        churn: Timing::LONGEST,
        iterate: Timing::LONGEST,
        clear: Timing::LONGEST,
        remove: Timing::LONGEST,
    };

    fn least(self, later: Timings) -> Timings {
        Timings {
            insert: self.insert.least(later.insert),
            get: self.get.least(later.get),
            churn: self.churn.least(later.churn),
            iterate: self.iterate.least(later.iterate),
            clear: self.clear.least(later.clear),
            remove: self.remove.least(later.remove),
        }
    }
}

/// Prints the least times of some runs with so many numbers, in nanoseconds for each number; clearing
/// is one call, and its time is that of the call.
pub fn run(rt: &(impl Print + Clock), alloc: Global, size: u32) -> anyhow::Result<()> {
    time::<_, Arena<P0, u64>>(rt, alloc, "arena", size)?;
    time::<_, Arena<SmallPtr, u64>>(rt, alloc, "small", size)?;
    time_strict(rt, alloc, size)?;
    time::<_, Slab<u64>>(rt, alloc, "slab", size)?;
    time::<_, Plain>(rt, alloc, "vector", size)
}

fn time<R: Print + Clock, T: OwnTable>(
    rt: &R,
    alloc: Global,
    name: &str,
    size: u32,
) -> anyhow::Result<()> {
    let mut names = Vec::with_capacity(alloc, size as usize)?;
    let mut least = Timings::LONGEST;
    for _ in 0..RUNS {
        let mut table = T::empty(alloc);
        least = least.least(time_once::<R, T>(rt, size, &mut table, &mut names)?);
    }
    print_least(rt, name, size, least)
}

// A strict arena is owned here, by its name, since no generic function can own it.
fn time_strict(rt: &(impl Print + Clock), alloc: Global, size: u32) -> anyhow::Result<()> {
    let mut names = Vec::with_capacity(alloc, size as usize)?;
    let mut least = Timings::LONGEST;
    for _ in 0..RUNS {
        let mut arena: StrictArena<P0, u64> = StrictArena::new(alloc);
        least = least.least(time_once(rt, size, &mut arena, &mut names)?);
    }
    print_least(rt, "strict", size, least)
}

fn print_least(rt: &impl Print, name: &str, size: u32, least: Timings) -> anyhow::Result<()> {
    let operations = [
        ("insert", size, least.insert),
        ("get", size, least.get),
        ("churn", size, least.churn),
        ("iterate", size, least.iterate),
        ("clear", 1, least.clear),
        ("remove", size, least.remove),
    ];
    print(rt, name, size, &operations)
}

// The names are those of an earlier run, so that none of the later runs is the first to touch them.
fn time_once<C: Clock, T: Table>(
    rt: &C,
    size: u32,
    table: &mut T,
    names: &mut Vec<T::Name>,
) -> anyhow::Result<Timings> {
    names.clear();
    Ok(Timings {
        insert: time_insert(rt, size, table, names)?,
        get: time_get(rt, size, table, names),
        churn: time_churn(rt, size, table, names)?,
        iterate: time_iterate(rt, table),
        clear: time_clear(rt, table),
        remove: time_remove(rt, size, table, names)?,
    })
}

// Nothing is read while it is timed: the sum is of all numbers afterwards.
#[inline(never)]
fn time_insert<T: Table>(
    rt: &impl Clock,
    size: u32,
    table: &mut T,
    names: &mut Vec<T::Name>,
) -> anyhow::Result<Timing> {
    let mut random = new_random();
    let start = now(rt);
    for _ in 0..size {
        names.push(table.put(random.next_u64())?)?;
    }
    let time = since(rt, start);
    let sum = table.sum_all();
    Ok(Timing { time, sum })
}

#[inline(never)]
fn time_get<T: Table>(rt: &impl Clock, size: u32, table: &T, names: &[T::Name]) -> Timing {
    let mut random = new_random();
    let mut sum = 0u64;
    let start = now(rt);
    for _ in 0..size {
        if let Some(name) = names.get(below(&mut random, size)) {
            sum = sum.wrapping_add(table.read(*name));
        }
    }
    let time = since(rt, start);
    Timing { time, sum }
}

#[inline(never)]
fn time_churn<T: Table>(
    rt: &impl Clock,
    size: u32,
    table: &mut T,
    names: &mut [T::Name],
) -> anyhow::Result<Timing> {
    let mut random = new_random();
    let mut sum = 0u64;
    let start = now(rt);
    for _ in 0..size {
        if let Some(name) = names.get_mut(below(&mut random, size)) {
            sum = sum.wrapping_add(table.take_out(*name));
            *name = table.put(random.next_u64())?;
        }
    }
    let time = since(rt, start);
    Ok(Timing { time, sum })
}

// The numbers lie as the churn left them.
#[inline(never)]
fn time_iterate<T: Table>(rt: &impl Clock, table: &T) -> Timing {
    let start = now(rt);
    let sum = table.sum_all();
    let time = since(rt, start);
    Timing { time, sum }
}

// The sum is of what is still there afterwards.
#[inline(never)]
fn time_clear<T: Table>(rt: &impl Clock, table: &mut T) -> Timing {
    let start = now(rt);
    table.take_out_all();
    let time = since(rt, start);
    let sum = table.sum_all();
    Timing { time, sum }
}

// The table is filled anew before.
#[inline(never)]
fn time_remove<T: Table>(
    rt: &impl Clock,
    size: u32,
    table: &mut T,
    names: &mut Vec<T::Name>,
) -> anyhow::Result<Timing> {
    names.clear();
    time_insert(rt, size, table, names)?;
    let mut sum = 0u64;
    let start = now(rt);
    for name in names.iter() {
        sum = sum.wrapping_add(table.take_out(*name));
    }
    let time = since(rt, start);
    Ok(Timing { time, sum })
}
