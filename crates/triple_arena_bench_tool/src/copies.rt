//! A clone of numbers, and insertion under pointers that are given, with look-ups of these: of arenas, with the pointer
//! of general use and with the small one, and of a plain vector.

use crate::arena::{below, new_random};
use crate::entry::{insert_each, places, sum_of, sum_of_places};
use crate::timing::{RUNS, Timing, now, print, since};
use std::alloc::Global;
use std::io::Print;
use std::time::Clock;
use triple_arena::{Arena, ArenaDirectInsertTrait, ArenaTrait};
use triple_arena_direct::DirectArena;
use triple_arena_ptr::{P0, Ptr, SmallPtr};

/// Prints the least times of some clones of so many numbers, and of some insertions of as many under the
/// pointers that they have, in nanoseconds for each number.
pub fn run(rt: &(impl Print + Clock), alloc: Global, size: u32) -> anyhow::Result<()> {
    time::<_, P0>(rt, alloc, "arena", size)?;
    time::<_, SmallPtr>(rt, alloc, "small", size)?;
    time_vector(rt, alloc, size)
}

// An arena is cloned, and a direct arena takes the pointers of its entries.
fn time<R: Print + Clock, P: Ptr>(
    rt: &R,
    alloc: Global,
    name: &str,
    size: u32,
) -> anyhow::Result<()> {
    let mut arena: Arena<P, u64> = Arena::on_heap(alloc);
    let pointers = insert_each(alloc, &mut arena, size)?;
    let mut clone = Timing::LONGEST;
    let (mut direct, mut get) = (Timing::LONGEST, Timing::LONGEST);
    for _ in 0..RUNS {
        clone = clone.least(time_clone(rt, alloc, &arena)?);
        let mut filled: DirectArena<P, u64> = DirectArena::with_min_capacity(
            alloc,
            pointers.len(),
        )?;
        direct = direct.least(time_direct(rt, &mut filled, &pointers));
        get = get.least(time_direct_get(rt, size, &filled, &pointers));
    }
    let operations = [
        ("clone", size, clone),
        ("direct", size, direct),
        ("direct get", size, get),
    ];
    print(rt, name, size, &operations)
}

#[inline(never)]
fn time_clone<C: Clock, P: Ptr>(
    rt: &C,
    alloc: Global,
    arena: &Arena<P, u64>,
) -> anyhow::Result<Timing> {
    let start = now(rt);
    let clone = arena.clone(alloc)?;
    let time = since(rt, start);
    let sum = sum_of(&clone);
    Ok(Timing { time, sum })
}

// The arena was made with the room.
#[inline(never)]
fn time_direct<C: Clock, P: Ptr>(
    rt: &C,
    arena: &mut DirectArena<P, u64>,
    pointers: &[P],
) -> Timing {
    let start = now(rt);
    for (number, p) in pointers.iter().enumerate() {
        if arena.can_direct_insert(*p) {
            arena.direct_insert_reserved(*p, number as u64);
        }
    }
    let time = since(rt, start);
    let mut sum = 0u64;
    for p in pointers.iter() {
        sum = sum.wrapping_add(arena.get(*p).copied().unwrap_or(0));
    }
    Timing { time, sum }
}

#[inline(never)]
fn time_direct_get<C: Clock, P: Ptr>(
    rt: &C,
    size: u32,
    arena: &DirectArena<P, u64>,
    pointers: &[P],
) -> Timing {
    let mut random = new_random();
    let mut sum = 0u64;
    let start = now(rt);
    for _ in 0..size {
        if let Some(p) = pointers.get(below(&mut random, size)) {
            sum = sum.wrapping_add(arena.get(*p).copied().unwrap_or(0));
        }
    }
    let time = since(rt, start);
    Timing { time, sum }
}

// A vector of numbers is cloned, and as many numbers are pushed onto a new one.
fn time_vector<R: Print + Clock>(rt: &R, alloc: Global, size: u32) -> anyhow::Result<()> {
    let numbers = places(alloc, size)?;
    let (mut clone, mut direct) = (Timing::LONGEST, Timing::LONGEST);
    for _ in 0..RUNS {
        clone = clone.least(time_vector_clone(rt, alloc, &numbers)?);
        direct = direct.least(time_vector_writes(rt, alloc, numbers.len())?);
    }
    let operations = [("clone", size, clone), ("direct", size, direct)];
    print(rt, "vector", size, &operations)
}

#[inline(never)]
fn time_vector_clone<C: Clock>(
    rt: &C,
    alloc: Global,
    numbers: &[Option<u64>],
) -> anyhow::Result<Timing> {
    let start = now(rt);
    let mut clone = Vec::new(alloc);
    clone.extend_from_slice(numbers)?;
    let time = since(rt, start);
    let sum = sum_of_places(&clone);
    Ok(Timing { time, sum })
}

// Each place of a vector that has none is pushed with its number.
#[inline(never)]
fn time_vector_writes<C: Clock>(rt: &C, alloc: Global, size: usize) -> anyhow::Result<Timing> {
    let mut numbers = Vec::with_capacity(alloc, size)?;
    let start = now(rt);
    for number in 0..size {
        numbers.push(Some(number as u64))?;
    }
    let time = since(rt, start);
    let sum = sum_of_places(&numbers);
    Ok(Timing { time, sum })
}
