//! Defaults, equality, order, hash and text of each pointer type.

use super::byte_pointer::B;
use super::pointers::at;
use super::recasts::is_recast;
use super::texts::has_text;
use std::alloc::Global;
use std::cmp::Ordering;
use std::fmt;
use std::hash::{DefaultHasher, Hash, Hasher};
use triple_arena_ptr::{P0, P1, P2, P3, P4, P5, Ptr, PtrGen, PtrInx, PtrKind, PtrNoGen, Q2};
use triple_arena_test_kit::is;

// The hash of a value.
fn hash_of<T: Hash>(value: &T) -> u64 {
    let mut hasher = DefaultHasher::default();
    value.hash(&mut hasher);
    hasher.finish()
}

// Whether a pointer type's default is its invalid pointer, with the name, index and generation
// that it must have.
fn has_default<P: Ptr + Default>(name: &str) -> bool {
    let p = P::default();
    P::name() == name
        && p == P::invalid()
        && p.inx() == P::Inx::best_effort_invalid()
        && p.generation() == P::Gen::one()
}

// Whether the first pointer of a type is told from its last by equality, order and hash, and not
// from itself.
fn is_told_apart<P: Ptr>() -> bool {
    let last = P::invalid();
    match at::<P>(1) {
        Some(first) => {
            first.cmp(&last) == Ordering::Less
                && first.cmp(&first) == Ordering::Equal
                && first != last
                && hash_of(&first) != hash_of(&last)
                && hash_of(&last) == hash_of(&P::invalid())
        }
        None => false,
    }
}

// Whether recasting makes the last pointer of a type of its first, and refuses its last, where each is
// to be the last.
fn is_recast_to_last<P: Ptr>() -> bool {
    let last = P::invalid();
    match at::<P>(1) {
        Some(first) => {
            is_recast(first, last, Ok(()), last) && is_recast(last, last, Err(last), last)
        }
        None => false,
    }
}

// A pointer of the same index and this generation.
fn with_generation<P: Ptr>(p: P, generation: P::Gen) -> P {
    P::_from_raw(p.inx(), generation)
}

// Whether pointers that differ in the generation alone are hashed apart or alike, as `apart` says,
// and equal ones alike. Where generations don't count, the former are equal too.
fn hashes_generations<P: Ptr>(apart: bool) -> bool {
    match at::<P>(1) {
        Some(p) => {
            let hash = hash_of(&p);
            let before = hash_of(&with_generation(p, P::Gen::one()));
            let again = hash_of(&with_generation(p, p.generation()));
            (hash != before) == apart && hash == again
        }
        None => false,
    }
}

// Whether a pointer type has its default, tells its pointers apart, recasts them, hashes their
// generations where these are counted, and has this text for the pointer of the index 26.
fn is_whole<P: Ptr + Default + fmt::Display>(
    alloc: Global,
    name: &str,
    counted: bool,
    text: &str,
) -> bool {
    has_default::<P>(name)
        && is_told_apart::<P>()
        && is_recast_to_last::<P>()
        && hashes_generations::<P>(counted)
        && has_text::<P>(alloc, 26, text)
}

#[test]
fn every_pointer_type_is_whole(rt: HostRuntime) {
    let alloc = rt.alloc();
    is(is_whole::<P0>(alloc, "P0", true, "P0[1a](2)"), true).expect(&rt, "P0");
    is(is_whole::<P1>(alloc, "P1", true, "P1[1a](2)"), true).expect(&rt, "P1");
    is(is_whole::<P2>(alloc, "P2", true, "P2[1a](2)"), true).expect(&rt, "P2");
    is(is_whole::<P3>(alloc, "P3", true, "P3[1a](2)"), true).expect(&rt, "P3");
    is(is_whole::<P4>(alloc, "P4", false, "P4[1a]"), true).expect(&rt, "P4");
    is(is_whole::<P5>(alloc, "P5", false, "P5[1a]"), true).expect(&rt, "P5");
    is(is_whole::<Q2>(alloc, "Q2", true, "Q2[1a](2)"), true).expect(&rt, "Q2");
    is(is_whole::<PtrNoGen<P2>>(alloc, "P2", false, "P2[1a]"), true).expect(&rt, "PtrNoGen of P2");
    is(
        is_whole::<PtrKind<P3, 1>>(alloc, "P3", true, "P3[1a](2)"),
        true,
    )
    .expect(&rt, "a kind of P3");
    is(is_whole::<B>(alloc, "B", true, "B[1a](2)"), true).expect(&rt, "B");
}

#[test]
fn a_pointer_of_a_kind_is_made_of_one_of_its_form(rt: HostRuntime) {
    let p = at::<P0>(26).expect(&rt, "a pointer");
    let kind: PtrKind<P0, 1> = PtrKind::of(p);
    is(kind, at(26).expect(&rt, "the pointer of the kind")).expect(&rt, "its numbers");
    is(kind.ptr(), p).expect(&rt, "the pointer of its form");
}
