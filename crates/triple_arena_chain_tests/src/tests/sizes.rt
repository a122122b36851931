//! Chains and sets of thousands.

use crate::tests::{chains, sets};
use std::alloc::Global;
use std::process::Abort;

// How many entries a large ring has, before one in three is taken out.
const COUNT: usize = 36_000;

// How many are left.
const LEFT: usize = 24_000;

// A chain of the numbers below that count, of which one in three is taken out; what is left becomes a ring, is
// compressed, and walked round.
fn ring_of_thousands(rt: &impl Abort, alloc: Global) -> Vec<chains::Row> {
    use crate::tests::chains::Answer::{Done, NoValue, Taken, Value};
    use crate::tests::chains::Call::{Advance, Compress, InsertNew, Join, PushBack, Remove, Walk};
    let mut rows = Vec::new(alloc);
    rows.push((InsertNew(0), Done, 1)).expect(rt, "memory");
    for number in 1..COUNT {
        let row = (PushBack(number - 1, number as u64), Done, number + 1);
        rows.push(row).expect(rt, "memory");
    }
    let mut len = COUNT;
    for number in 0..COUNT {
        if number % 3 == 1 {
            let row = (
                Remove(number),
                Taken(number as u64, len),
                len.saturating_sub(1),
            );
            rows.push(row).expect(rt, "memory");
            len = len.saturating_sub(1);
        }
    }
    rows.push((Join(COUNT - 1, 0), Done, LEFT))
        .expect(rt, "memory");
    rows.push((Compress, Done, LEFT)).expect(rt, "memory");
    rows.push((Walk(0), Done, LEFT)).expect(rt, "memory");
    for number in 0..COUNT {
        if number % 3 != 1 {
            rows.push((Advance, Value(number as u64), LEFT))
                .expect(rt, "memory");
        }
    }
    rows.push((Advance, NoValue, LEFT)).expect(rt, "memory");
    rows
}

#[test]
fn a_ring_of_thousands_is_compressed_and_walked(rt: HostRuntime) {
    let rows = ring_of_thousands(&rt, rt.alloc());
    chains::follow(&rt, rt.alloc(), rows.as_slice()).expect(&rt, "its answers");
}

const KEYS: usize = 30_000;

// All keys come to one set, pair by pair, then four by four and so on, and are listed and compressed.
fn one_set_of_thousands(rt: &impl Abort, alloc: Global) -> Vec<sets::Row> {
    use crate::tests::sets::Answer::{Done, Keys, OnNet, United};
    use crate::tests::sets::Call::{Compress, Insert, KeySet, Net, Union};
    let mut rows = Vec::new(alloc);
    for number in 0..KEYS {
        let row = (Insert(number as u64, 0), Done, number + 1, number + 1);
        rows.push(row).expect(rt, "memory");
    }
    let mut left = KEYS;
    for round in 0..15_u32 {
        let step = 1_usize << round;
        let mut at: usize = 0;
        for _turn in 0..KEYS {
            let other = at.saturating_add(step);
            if KEYS <= other {
                break;
            }
            left = left.saturating_sub(1);
            rows.push((Union(at, other), United(Some(0)), KEYS, left))
                .expect(rt, "memory");
            at = other.saturating_add(step);
        }
    }
    let one = OnNet(Some(0), Some(KEYS), true);
    rows.push((Net(0, KEYS - 1), one, KEYS, 1))
        .expect(rt, "memory");
    rows.push((KeySet(0), Keys(KEYS), KEYS, 1))
        .expect(rt, "memory");
    rows.push((Compress, Done, KEYS, 1)).expect(rt, "memory");
    rows.push((Net(0, KEYS - 1), one, KEYS, 1))
        .expect(rt, "memory");
    rows
}

#[test]
fn thirty_thousand_keys_come_to_one_set(rt: HostRuntime) {
    let rows = one_set_of_thousands(&rt, rt.alloc());
    sets::follow(&rt, rt.alloc(), rows.as_slice()).expect(&rt, "their answers");
}
