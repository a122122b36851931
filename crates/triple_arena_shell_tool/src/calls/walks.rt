//! Calls that walk over an arena, or change all of its entries.

use crate::calls::answer::{Answer, shown};
use crate::calls::stop::Stop;
use crate::calls::words::{Value, inx, size, truth};
use std::alloc::Global;
use triple_arena::CompactArenaTrait;
use triple_arena_base::{Advancer, InvalidationOption};
use triple_arena_ptr::Ptr;

/// A call that meets entries in order, compresses an arena, or drains it.
///
/// What these calls stand on is proved of an `Arena` anew for each function that hands one on to them, so one does.
pub fn walk<P: Ptr, A: CompactArenaTrait<P, Value>>(
    alloc: Global,
    arena: &mut A,
    call: &[&str],
) -> Answer {
    match *call {
        ["ptrs"] => shown(alloc, &ptrs(alloc, arena)?),
        ["vals"] => shown(alloc, &vals(alloc, arena)?),
        ["iter"] => shown(alloc, &entries(alloc, arena)?),
        ["advancer"] => shown(alloc, &steps(alloc, arena, arena.advancer())?),
        ["advancer_inx", i, reverse] => {
            let advancer = arena.advancer_inx(inx(i)?, truth(reverse)?);
            shown(alloc, &steps(alloc, arena, advancer)?)
        }
        ["compress", reset] => shown(alloc, &arena.compress(truth(reset)?)),
        ["drain", n] => shown(alloc, &drained(alloc, arena, size(n)?)?),
        _ => Err(Stop::Malformed),
    }
}

// Steps of an iterator are called by name: handed on as an iterator, it is dearer to prove.
fn ptrs<P: Ptr, A: CompactArenaTrait<P, Value>>(alloc: Global, arena: &A) -> Result<Vec<P>, Stop> {
    let mut met = Vec::new(alloc);
    let mut ptrs = arena.ptrs();
    'walk: while let Some(p) = ptrs.next() {
        met.push(p)?;
    }
    Ok(met)
}

fn vals<P: Ptr, A: CompactArenaTrait<P, Value>>(
    alloc: Global,
    arena: &A,
) -> Result<Vec<Value>, Stop> {
    let mut met = Vec::new(alloc);
    let mut vals = arena.vals();
    'walk: while let Some(value) = vals.next() {
        met.push(*value)?;
    }
    Ok(met)
}

fn entries<P: Ptr, A: CompactArenaTrait<P, Value>>(
    alloc: Global,
    arena: &A,
) -> Result<Vec<(P, Value)>, Stop> {
    let mut met = Vec::new(alloc);
    let mut entries = arena.iter();
    'walk: while let Some((p, value)) = entries.next() {
        met.push((p, *value))?;
    }
    Ok(met)
}

// All pointers that an advancer gives: no more than there are entries.
fn steps<P: Ptr, A: CompactArenaTrait<P, Value>>(
    alloc: Global,
    arena: &A,
    mut advancer: A::PtrAdvancer,
) -> Result<Vec<P>, Stop> {
    let mut met = Vec::new(alloc);
    for _ in 0..arena.len() {
        if let Some(p) = advancer.advance(arena) {
            met.push(p)?;
        }
    }
    Ok(met)
}

// What so many steps of a drain take out, which is let go then: it has no more than there are entries.
fn drained<P: Ptr, A: CompactArenaTrait<P, Value>>(
    alloc: Global,
    arena: &mut A,
    steps: usize,
) -> Result<Vec<InvalidationOption<(P, Value)>>, Stop> {
    let mut taken = Vec::new(alloc);
    let most = steps.min(arena.len());
    let mut drain = arena.drain();
    for _ in 0..most {
        if let Some(entry) = drain.next() {
            taken.push(entry)?;
        }
    }
    Ok(taken)
}
