//! An arena saved and loaded, beside loops that write and read the same numbers and check nothing.

use crate::timing::{RUNS, Timing, now, print, since};
use std::alloc::Global;
use std::io::Print;
use std::time::Clock;
use triple_arena::{Arena, CompactArenaTrait, NonZeroInxGenericStack, NonZeroInxVec};
use triple_arena_ptr::{P0, Ptr};
use triple_arena_snapshot::{load_arena, save_arena};

type Entry = (u64, Option<P0>);

/// Prints the least times of some saves and loads of an arena of so many entries, each with a number
/// and the pointer of the one before it, in nanoseconds for each entry; and of the loops.
pub fn run(rt: &(impl Print + Clock), alloc: Global, size: u32) -> anyhow::Result<()> {
    let mut arena: Arena<P0, Entry> = Arena::on_heap(alloc);
    let mut last = P0::invalid();
    for number in 0..size {
        last = arena.insert((number as u64, Some(last)))?;
    }
    let (mut saved, mut loaded) = (Timing::LONGEST, Timing::LONGEST);
    let (mut written, mut read) = (Timing::LONGEST, Timing::LONGEST);
    for _ in 0..RUNS {
        let mut file = Vec::new(alloc);
        saved = saved.least(time_save(rt, alloc, &arena, &mut file)?);
        loaded = loaded.least(time_load(rt, alloc, &file)?);
        drop(file);
        let mut bytes = Vec::new(alloc);
        written = written.least(time_write(rt, &arena, &mut bytes)?);
        read = read.least(time_read(rt, alloc, &bytes)?);
    }
    let operations = [
        ("save", size, saved),
        ("load", size, loaded),
        ("write", size, written),
        ("read", size, read),
    ];
    print(rt, "snapshot", size, &operations)
}

#[inline(never)]
fn time_save(
    rt: &impl Clock,
    alloc: Global,
    arena: &Arena<P0, Entry>,
    file: &mut Vec<u8>,
) -> anyhow::Result<Timing> {
    let start = now(rt);
    save_arena(arena, alloc, file)?;
    let time = since(rt, start);
    Ok(Timing {
        time,
        sum: file.len() as u64,
    })
}

#[inline(never)]
fn time_load(rt: &impl Clock, alloc: Global, file: &[u8]) -> anyhow::Result<Timing> {
    let mut input = file;
    let start = now(rt);
    let arena: Arena<P0, Entry> = load_arena(NonZeroInxVec::new(alloc), alloc, &mut input)?;
    let time = since(rt, start);
    Ok(Timing {
        time,
        sum: arena.len() as u64,
    })
}

// Each number of an entry: its generation, whether there is an entry, its value, whether it has a
// pointer, and the numbers of that.
#[inline(never)]
fn time_write(
    rt: &impl Clock,
    arena: &Arena<P0, Entry>,
    bytes: &mut Vec<u8>,
) -> anyhow::Result<Timing> {
    let start = now(rt);
    for (p, (number, link)) in arena.iter() {
        bytes.extend_from_slice(&[1])?;
        bytes.extend_from_slice(&p.generation().get().to_le_bytes())?;
        bytes.extend_from_slice(&number.to_le_bytes())?;
        match link {
            None => bytes.extend_from_slice(&[0])?,
            Some(q) => {
                bytes.extend_from_slice(&[1])?;
                bytes.extend_from_slice(&q.inx().get().to_le_bytes())?;
                bytes.extend_from_slice(&q.generation().get().to_le_bytes())?;
            }
        }
    }
    let time = since(rt, start);
    Ok(Timing {
        time,
        sum: bytes.len() as u64,
    })
}

// The number in eight bytes from a place on, where there are so many.
#[inline(always)]
fn number_at(row: &[u8], at: usize) -> u64 {
    match row.get(at..) {
        Some([a, b, c, d, e, f, g, h, ..]) => {
            u64::from_le_bytes([*a, *b, *c, *d, *e, *f, *g, *h])
        }
        _ => 0,
    }
}

// The numbers of each entry into a plain vector.
#[inline(never)]
fn time_read(rt: &impl Clock, alloc: Global, bytes: &[u8]) -> anyhow::Result<Timing> {
    let start = now(rt);
    let mut rows: Vec<[u64; 4]> = Vec::new(alloc);
    for row in bytes.chunks_exact(34) {
        rows.push([
            number_at(row, 1),
            number_at(row, 9),
            number_at(row, 18),
            number_at(row, 26),
        ])?;
    }
    let time = since(rt, start);
    Ok(Timing {
        time,
        sum: rows.len() as u64,
    })
}
