//! Compaction where every second entry was removed: of an arena of numbers, of one of nodes, each with a
//! link that is renamed, and of plain vectors of both.

use crate::entry::{Entry, Node, sum_of, sum_of_places};
use crate::timing::{RUNS, Timing, now, print, since};
use std::alloc::Global;
use std::io::Print;
use std::time::Clock;
use triple_arena::{Arena, CompactArenaTrait};
use triple_arena_direct::compress_recast;
use triple_arena_ptr::P0;

// What holds numbers with gaps, and closes them.
trait Gapped: Drop {
    // The even numbers below `size`; the odd ones between were removed.
    fn even_numbers(alloc: Global, size: u32) -> anyhow::Result<Self>;

    fn close_gaps(&mut self, alloc: Global) -> anyhow::Result<()>;

    // The sum of all numbers.
    fn sum(&self) -> u64;
}

impl Gapped for Arena<P0, u64> {
    fn even_numbers(alloc: Global, size: u32) -> anyhow::Result<Self> {
        every_second(alloc, size)
    }

    fn close_gaps(&mut self, _alloc: Global) -> anyhow::Result<()> {
        self.compress_with(false, |_old, number, _new| number)
            .allow();
        Ok(())
    }

    fn sum(&self) -> u64 {
        sum_of(self)
    }
}

// The links are renamed too.
impl Gapped for Arena<P0, Node> {
    fn even_numbers(alloc: Global, size: u32) -> anyhow::Result<Self> {
        every_second(alloc, size)
    }

    fn close_gaps(&mut self, alloc: Global) -> anyhow::Result<()> {
        let _new_pointers = compress_recast(self, alloc, false)?;
        Ok(())
    }

    fn sum(&self) -> u64 {
        sum_of(self)
    }
}

impl Gapped for Vec<Option<u64>> {
    fn even_numbers(alloc: Global, size: u32) -> anyhow::Result<Self> {
        let mut numbers = Vec::with_capacity(alloc, size as usize)?;
        for number in 0..size {
            let is_even = number % 2 == 0;
            numbers.push(is_even.then_some(number as u64))?;
        }
        Ok(numbers)
    }

    fn close_gaps(&mut self, _alloc: Global) -> anyhow::Result<()> {
        self.retain(|number| number.is_some());
        Ok(())
    }

    fn sum(&self) -> u64 {
        sum_of_places(self)
    }
}

// A number, and the place of the node before it that stays.
type PlainNode = (u64, Option<usize>);

// A link that leads to a gap becomes none.
impl Gapped for Vec<Option<PlainNode>> {
    fn even_numbers(alloc: Global, size: u32) -> anyhow::Result<Self> {
        let mut nodes = Vec::with_capacity(alloc, size as usize)?;
        for number in 0..size {
            let is_even = number % 2 == 0;
            let before = (number as usize).checked_sub(2);
            nodes.push(is_even.then_some((number as u64, before)))?;
        }
        Ok(nodes)
    }

    fn close_gaps(&mut self, alloc: Global) -> anyhow::Result<()> {
        let new_places = new_places(alloc, self)?;
        for (_number, link) in self.iter_mut().flatten() {
            *link = link.and_then(|place| new_places.get(place).copied().flatten());
        }
        self.retain(|node| node.is_some());
        Ok(())
    }

    fn sum(&self) -> u64 {
        let mut sum = 0u64;
        for (number, _link) in self.iter().flatten() {
            sum = sum.wrapping_add(*number);
        }
        sum
    }
}

// By place, where the node there goes as the gaps are closed, if there is one.
fn new_places(alloc: Global, nodes: &[Option<PlainNode>]) -> anyhow::Result<Vec<Option<usize>>> {
    let mut new_places = Vec::with_capacity(alloc, nodes.len())?;
    let mut stays = 0usize;
    for node in nodes.iter() {
        new_places.push(node.is_some().then_some(stays))?;
        stays = stays.wrapping_add(node.is_some() as usize);
    }
    Ok(new_places)
}

// Inserts an entry for each number below `size`, and removes those of the odd ones.
fn every_second<T: Entry>(alloc: Global, size: u32) -> anyhow::Result<Arena<P0, T>> {
    let mut arena = Arena::on_heap(alloc);
    let mut even: Vec<P0> = Vec::with_capacity(alloc, size as usize)?;
    let mut odd: Vec<P0> = Vec::with_capacity(alloc, size as usize)?;
    for number in 0..size {
        let p = arena.insert(T::of(number as u64, even.last().copied()))?;
        if number % 2 == 0 {
            even.push(p)?;
        } else {
            odd.push(p)?;
        }
    }
    for p in odd {
        drop(arena.remove(p));
    }
    Ok(arena)
}

/// Prints the least times of some compactions of so many places, in nanoseconds for each entry that
/// stays, and the sum of what stays.
pub fn run(rt: &(impl Print + Clock), alloc: Global, size: u32) -> anyhow::Result<()> {
    time::<_, Arena<P0, u64>>(rt, alloc, "arena", size)?;
    time::<_, Arena<P0, Node>>(rt, alloc, "nodes", size)?;
    time::<_, Vec<Option<u64>>>(rt, alloc, "vector", size)?;
    time::<_, Vec<Option<PlainNode>>>(rt, alloc, "vector_nodes", size)
}

fn time<R: Print + Clock, G: Gapped>(
    rt: &R,
    alloc: Global,
    name: &str,
    size: u32,
) -> anyhow::Result<()> {
    let mut least = Timing::LONGEST;
    for _ in 0..RUNS {
        least = least.least(time_once::<R, G>(rt, alloc, size)?);
    }
    print(rt, name, size, &[("compact", size.div_ceil(2), least)])
}

fn time_once<C: Clock, G: Gapped>(rt: &C, alloc: Global, size: u32) -> anyhow::Result<Timing> {
    let mut table = G::even_numbers(alloc, size)?;
    time_compaction(rt, alloc, &mut table)
}

// The sum is of what is there afterwards.
#[inline(never)]
fn time_compaction<C: Clock, G: Gapped>(
    rt: &C,
    alloc: Global,
    table: &mut G,
) -> anyhow::Result<Timing> {
    let start = now(rt);
    table.close_gaps(alloc)?;
    let time = since(rt, start);
    let sum = table.sum();
    Ok(Timing { time, sum })
}
