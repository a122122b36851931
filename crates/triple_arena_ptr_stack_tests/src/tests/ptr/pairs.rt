//! Pairs of a pointer and a lent value, held at a concrete pointer type.

ghost use Rattle.std.specs.Prelude.{◌≡◌, ℕ, ◌<◌, ◌↔◌, IsSome, IsOk, IfSome, length, map, true};
ghost use Rattle.std.specs.Iterator.{YieldsFirstBy, at_most};

use std::mem;
use triple_arena_ptr::{P0, P1, P2, P3, P4, P5, Ptr, Q2};
use triple_arena_test_kit::is;

// A pointer and the value at a place, in an `Option`.
fn found<P: Ptr>(items: &mut [u64], p: P, place: usize) -> Option<(P, &mut u64)>
    ensures found { IsSome result ↔ (place < length items.old) }
    ensures pointer { IfSome result (λ x. x.0 ≡ p) }
{
    match items.get_mut(place) {
        Some(value) => Some((p, value)),
        None => None,
    }
}

// A pointer and the value, in a `Result`.
fn allowed(value: &mut u64, p: P0, allowed: bool) -> Result<(P0, &mut u64), P0>
    ensures { IsOk result ↔ (allowed ≡ true) }
{
    if allowed { Ok((p, value)) } else { Err(p) }
}

// Each value of a slice with one pointer.
#[derive(Drop)]
struct Beside<'a, P> {
    p: P,
    values: &'a mut [u64],
}

impl<'a, P: Ptr + 'static> Iterator for Beside<'a, P> {
    type Item = (P, &'a mut u64);

    ghost next_gives = { YieldsFirstBy {B = P × ℕ} (λ item. (item.0, item.1.now))
        (λ s. map (λ v. (s.p, v)) s.values.now) };

    ghost remaining = { λ s. at_most (length s.values.now) };

    fn next(&mut self) -> Option<(P, &'a mut u64)> {
        match mem::take(&mut self.values).split_first_mut() {
            Some((value, rest)) => {
                self.values = rest;
                Some((self.p, value))
            }
            None => None,
        }
    }
}

// Whether a pointer of a type is held beside a lent value, through which another is written. It is
// a macro and no function with a parameter, since the caller is to be one at its very type.
macro_rules! is_held {
    ($pointer:ident) => {{
        let mut values = [1, 2];
        let held = match found(&mut values, $pointer::invalid(), 1) {
            Some((q, value)) => {
                *value = 7;
                q == $pointer::invalid()
            }
            None => false,
        };
        held && values == [1, 7]
    }};
}

#[test]
fn each_pointer_beside_a_lent_value(rt: HostRuntime) {
    is(is_held!(P0), true).expect(&rt, "P0");
    is(is_held!(P1), true).expect(&rt, "P1");
    is(is_held!(P2), true).expect(&rt, "P2");
    is(is_held!(P3), true).expect(&rt, "P3");
    is(is_held!(P4), true).expect(&rt, "P4");
    is(is_held!(P5), true).expect(&rt, "P5");
    is(is_held!(Q2), true).expect(&rt, "Q2");
}

#[test]
fn no_pointer_beside_a_value_past_the_end(rt: HostRuntime) {
    is(found(&mut [1, 2], P0::invalid(), 2).is_none(), true).expect(&rt, "past the end");
}

#[test]
fn a_pointer_beside_a_lent_value_in_a_result(rt: HostRuntime) {
    let p = P0::invalid();
    let mut value = 1;
    if let Ok((q, lent)) = allowed(&mut value, p, true) {
        is(q == p, true).expect(&rt, "the pointer");
        *lent = 2;
    }
    is(value, 2).expect(&rt, "the value");
    is(allowed(&mut value, p, false).is_err(), true).expect(&rt, "what isn't allowed");
}

#[test]
fn a_pointer_beside_each_lent_value(rt: HostRuntime) {
    let p = P0::invalid();
    let mut values = [7, 7];
    for (q, value) in (Beside {
        p,
        values: &mut values,
    }) {
        is(q == p, true).expect(&rt, "the pointer");
        *value = value.wrapping_add(1);
    }
    is(values, [8, 8]).expect(&rt, "the values");
}
