//! Times the stacks and the arena against std's vector. It is a tool, and promises nothing.
#![tactic(auto)]

mod arena;
mod compaction;
mod copies;
mod end_slots;
mod entry;
mod snapshots;
mod stack;
mod timing;
mod walks;

use std::alloc::Global;
use std::env;
use std::io::Print;
use std::time::Clock;

const USAGE: &str =
    "usage: triple_arena_bench_tool stack | arena SIZES... | walk SIZES... | compact SIZES... | copy SIZES... | ends SIZES... | snapshot SIZES...";

// Times what a word names, at a size.
fn run(rt: &(impl Print + Clock), alloc: Global, what: &str, size: u32) -> anyhow::Result<()> {
    match what {
        "arena" => arena::run(rt, alloc, size),
        "walk" => walks::run(rt, alloc, size),
        "compact" => compaction::run(rt, alloc, size),
        "copy" => copies::run(rt, alloc, size),
        "ends" => end_slots::run(rt, alloc, size),
        "snapshot" => snapshots::run(rt, alloc, size),
        _ => Ok(println!(rt; "{USAGE}")?),
    }
}

fn main(rt: HostRuntime) -> anyhow::Result<()> {
    let mut args = env::args(&rt)?.skip(1);
    let Some(what) = args.next() else {
        return Ok(println!(rt; "{USAGE}")?);
    };
    if what.as_str() == "stack" {
        return stack::run(&rt, rt.alloc());
    }
    let mut has_sizes = false;
    for size in args {
        run(&rt, rt.alloc(), what.as_str(), size.as_str().parse()?)?;
        has_sizes = true;
    }
    if !has_sizes {
        println!(rt; "{USAGE}")?;
    }
    Ok(())
}
