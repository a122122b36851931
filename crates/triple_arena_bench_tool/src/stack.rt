//! Pushes, gets and pops of numbers on `NonZeroInxVec` and on `Vec`.

use crate::timing::{Timing, now, since};
use std::alloc::Global;
use std::io::Print;
use std::num::NonZeroUsize;
use std::time::Clock;
use triple_arena_stack::{NonZeroInxGenericStack, NonZeroInxVec};

const ITEMS: usize = 10_000_000;

const ROUNDS: usize = 7;

// The least time that each kind of call took.
#[derive(Clone, Copy)]
struct Times {
    push: Timing,
    get: Timing,
    pop: Timing,
    again: Timing,
    grow: Timing,
}

impl Times {
    // No times that are taken are longer.
    const LONGEST: Times = Times {
        push: Timing::LONGEST,
        get: Timing::LONGEST,
        pop: Timing::LONGEST,
        again: Timing::LONGEST,
        grow: Timing::LONGEST,
    };

    fn least(self, later: Times) -> Times {
        Times {
            push: self.push.least(later.push),
            get: self.get.least(later.get),
            pop: self.pop.least(later.pop),
            again: self.again.least(later.again),
            grow: self.grow.least(later.grow),
        }
    }
}

/// Prints the least times of some rounds, and their ratios.
pub fn run(rt: &(impl Print + Clock), alloc: Global) -> anyhow::Result<()> {
    let mut vec = Times::LONGEST;
    let mut stack = Times::LONGEST;
    for _ in 0..ROUNDS {
        vec = vec.least(time_vec(rt, alloc)?);
        stack = stack.least(time_stack::<_, NonZeroInxVec<u64>>(rt, alloc)?);
    }
    let calls = [
        ("push", stack.push, vec.push),
        ("get", stack.get, vec.get),
        ("pop", stack.pop, vec.pop),
        ("push again", stack.again, vec.again),
        ("push with growth", stack.grow, vec.grow),
    ];
    for (call, ours, theirs) in calls {
        print(rt, call, ours, theirs)?;
    }
    Ok(())
}

// Uses the sums, so that no loop is left out.
fn print(rt: &impl Print, call: &str, ours: Timing, theirs: Timing) -> anyhow::Result<()> {
    if ours.sum == 1 || theirs.sum == 1 {
        anyhow::bail!("a sum of one");
    }
    let (Some(ours), Some(theirs)) = (ours.time, theirs.time) else {
        anyhow::bail!("the clock failed");
    };
    let ratio = ours.div_duration_f64(theirs);
    println!(rt; "{call}: stack {ours:?}, vector {theirs:?}, ratio {ratio:.2}")?;
    Ok(())
}

fn time_vec(rt: &impl Clock, alloc: Global) -> anyhow::Result<Times> {
    let mut vec = Vec::with_capacity(alloc, ITEMS)?;
    Ok(Times {
        push: time_vec_push(rt, &mut vec)?,
        get: time_vec_get(rt, &vec),
        pop: time_vec_pop(rt, &mut vec),
        again: time_vec_push(rt, &mut vec)?,
        grow: time_vec_push(rt, &mut Vec::new(alloc))?,
    })
}

fn time_vec_push(rt: &impl Clock, vec: &mut Vec<u64>) -> anyhow::Result<Timing> {
    let start = now(rt);
    for number in 0..ITEMS {
        vec.push(number as u64)?;
    }
    let time = since(rt, start);
    Ok(Timing { time, sum: 0 })
}

fn time_vec_get(rt: &impl Clock, vec: &Vec<u64>) -> Timing {
    let mut sum = 0u64;
    let start = now(rt);
    for place in 0..ITEMS {
        if let Some(number) = vec.get(place) {
            sum = sum.wrapping_mul(31).wrapping_add(*number);
        }
    }
    let time = since(rt, start);
    Timing { time, sum }
}

fn time_vec_pop(rt: &impl Clock, vec: &mut Vec<u64>) -> Timing {
    let mut sum = 0u64;
    let start = now(rt);
    for _ in 0..ITEMS {
        if let Some(number) = vec.pop() {
            sum = sum.wrapping_mul(31).wrapping_add(number);
        }
    }
    let time = since(rt, start);
    Timing { time, sum }
}

fn time_stack<C: Clock, S: NonZeroInxGenericStack<u64> + Drop>(
    rt: &C,
    alloc: Global,
) -> anyhow::Result<Times> {
    let mut stack = S::with_min_capacity(alloc, ITEMS)?;
    Ok(Times {
        push: time_push(rt, &mut stack)?,
        get: time_get(rt, &stack),
        pop: time_pop(rt, &mut stack),
        again: time_push(rt, &mut stack)?,
        grow: time_growth(rt, &mut S::new(alloc))?,
    })
}

fn time_push<S: NonZeroInxGenericStack<u64>>(
    rt: &impl Clock,
    stack: &mut S,
) -> anyhow::Result<Timing> {
    let start = now(rt);
    for number in 0..ITEMS {
        stack.push_within_capacity(number as u64)?;
    }
    let time = since(rt, start);
    Ok(Timing { time, sum: 0 })
}

fn time_get<S: NonZeroInxGenericStack<u64>>(rt: &impl Clock, stack: &S) -> Timing {
    let mut sum = 0u64;
    let start = now(rt);
    for place in 0..ITEMS {
        if let Some(number) = stack.get(NonZeroUsize::MIN.saturating_add(place)) {
            sum = sum.wrapping_mul(31).wrapping_add(*number);
        }
    }
    let time = since(rt, start);
    Timing { time, sum }
}

fn time_pop<S: NonZeroInxGenericStack<u64>>(rt: &impl Clock, stack: &mut S) -> Timing {
    let mut sum = 0u64;
    let start = now(rt);
    for _ in 0..ITEMS {
        if let Some(number) = stack.pop() {
            sum = sum.wrapping_mul(31).wrapping_add(number);
        }
    }
    let time = since(rt, start);
    Timing { time, sum }
}

fn time_growth<S: NonZeroInxGenericStack<u64>>(
    rt: &impl Clock,
    stack: &mut S,
) -> anyhow::Result<Timing> {
    let start = now(rt);
    for number in 0..ITEMS {
        stack.push(number as u64)?;
    }
    let time = since(rt, start);
    Ok(Timing { time, sum: 0 })
}
