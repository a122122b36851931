//! Walks that write each number, and drains: of an arena, with the pointer of general use and with the small one, and of
//! a plain vector. Of a strict arena and of a slab, drains alone.

use crate::entry::{insert_each, places, sum_of, sum_of_places};
use crate::timing::{RUNS, Timing, now, print, since};
use slab::Slab;
use std::alloc::Global;
use std::io::Print;
use std::time::{Clock, Duration};
use triple_arena::{Arena, CompactArenaTrait};
use triple_arena_direct::StrictArena;
use triple_arena_ptr::{P0, Ptr, SmallPtr};

/// Prints the least times of some walks that write so many numbers, and of some drains of as many, in
/// nanoseconds for each number.
pub fn run(rt: &(impl Print + Clock), alloc: Global, size: u32) -> anyhow::Result<()> {
    time::<_, P0>(rt, alloc, "arena", size)?;
    time::<_, SmallPtr>(rt, alloc, "small", size)?;
    time_strict(rt, alloc, size)?;
    time_slab(rt, alloc, size)?;
    time_vector(rt, alloc, size)
}

fn time<R: Print + Clock, P: Ptr>(
    rt: &R,
    alloc: Global,
    name: &str,
    size: u32,
) -> anyhow::Result<()> {
    let (mut write, mut drain) = (Timing::LONGEST, Timing::LONGEST);
    for _ in 0..RUNS {
        let mut arena: Arena<P, u64> = Arena::on_heap(alloc);
        let _pointers = insert_each(alloc, &mut arena, size)?;
        let time = time_write(rt, &mut arena);
        let sum = sum_of(&arena);
        write = write.least(Timing { time, sum });
        drain = drain.least(time_drain::<R, P, Arena<P, u64>>(rt, &mut arena));
    }
    let operations = [("write", size, write), ("drain", size, drain)];
    print(rt, name, size, &operations)
}

#[inline(never)]
fn time_write<C: Clock, P: Ptr>(rt: &C, arena: &mut Arena<P, u64>) -> Option<Duration> {
    let start = now(rt);
    let mut numbers = arena.vals_mut();
    'walk: while let Some(number) = numbers.next() {
        *number = number.wrapping_mul(3);
    }
    since(rt, start)
}

#[inline(never)]
fn time_drain<C: Clock, P: Ptr, A: CompactArenaTrait<P, u64>>(rt: &C, arena: &mut A) -> Timing {
    let mut sum = 0u64;
    let start = now(rt);
    'walk: for taken in arena.drain() {
        let (_p, number) = taken.allow();
        sum = sum.wrapping_add(number);
    }
    let time = since(rt, start);
    Timing { time, sum }
}

fn time_strict<R: Print + Clock>(rt: &R, alloc: Global, size: u32) -> anyhow::Result<()> {
    let mut arena: StrictArena<P0, u64> = StrictArena::new(alloc);
    let mut drain = Timing::LONGEST;
    for _ in 0..RUNS {
        for number in 0..size {
            arena.insert(number as u64)?;
        }
        drain = drain.least(time_strict_drain(rt, &mut arena)?);
    }
    print(rt, "strict", size, &[("drain", size, drain)])
}

#[inline(never)]
fn time_strict_drain<C: Clock>(rt: &C, arena: &mut StrictArena<P0, u64>) -> anyhow::Result<Timing> {
    let mut sum = 0u64;
    let start = now(rt);
    'walk: for (_p, number) in arena.drain()? {
        sum = sum.wrapping_add(number);
    }
    let time = since(rt, start);
    Ok(Timing { time, sum })
}

fn time_slab<R: Print + Clock>(rt: &R, alloc: Global, size: u32) -> anyhow::Result<()> {
    let mut slab = Slab::with_capacity(alloc, size as usize)?;
    let mut drain = Timing::LONGEST;
    for _ in 0..RUNS {
        for number in 0..size {
            let _key = slab.insert(number as u64);
        }
        drain = drain.least(time_slab_drain(rt, &mut slab));
    }
    print(rt, "slab", size, &[("drain", size, drain)])
}

#[inline(never)]
fn time_slab_drain(rt: &impl Clock, slab: &mut Slab<u64>) -> Timing {
    let mut sum = 0u64;
    let start = now(rt);
    for number in slab.drain() {
        sum = sum.wrapping_add(number);
    }
    let time = since(rt, start);
    Timing { time, sum }
}

fn time_vector<R: Print + Clock>(rt: &R, alloc: Global, size: u32) -> anyhow::Result<()> {
    let (mut write, mut drain) = (Timing::LONGEST, Timing::LONGEST);
    for _ in 0..RUNS {
        let mut numbers = places(alloc, size)?;
        write = write.least(time_vector_write(rt, &mut numbers));
        drain = drain.least(time_vector_drain(rt, &mut numbers));
    }
    let operations = [("write", size, write), ("drain", size, drain)];
    print(rt, "vector", size, &operations)
}

#[inline(never)]
fn time_vector_write(rt: &impl Clock, numbers: &mut Vec<Option<u64>>) -> Timing {
    let start = now(rt);
    for number in numbers.iter_mut().flatten() {
        *number = number.wrapping_mul(3);
    }
    let time = since(rt, start);
    let sum = sum_of_places(&*numbers);
    Timing { time, sum }
}

#[inline(never)]
fn time_vector_drain(rt: &impl Clock, numbers: &mut Vec<Option<u64>>) -> Timing {
    let mut sum = 0u64;
    let start = now(rt);
    for number in numbers.drain(..).flatten() {
        sum = sum.wrapping_add(number);
    }
    let time = since(rt, start);
    Timing { time, sum }
}
