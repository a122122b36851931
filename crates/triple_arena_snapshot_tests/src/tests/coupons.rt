//! The coupons of users, from file to file, and files of strict arenas that are none.

use crate::tests::devices::Trickling;
use std::alloc::Global;
use std::io::ErrorKind;
use std::process::Abort;
use std::test::*;
use triple_arena::{Arena, NonZeroInxGenericStack, NonZeroInxVec};
use triple_arena_base::ReallocationError;
use triple_arena_direct::{StrictArena, StrictError};
use triple_arena_ptr::{P3, Ptr};
use triple_arena_snapshot::{
    Codec, Fault, LoadError, SaveError, crc32c, load_strict_arena, save_arena,
};
use triple_arena_snapshot_uses::Coupons;
use triple_arena_test_kit::{is, pointer};

#[test]
fn a_redeemed_coupon_is_never_valid_again(rt: HostRuntime) {
    let alloc = rt.alloc();
    let mut coupons = Coupons::new(alloc);
    let first = coupons.issue(500).expect(&rt, "memory");
    let second = coupons.issue(250).expect(&rt, "memory");
    is(coupons.redeem(first), Ok(500)).expect(&rt, "the first coupon");
    let mut file = Vec::new(alloc);
    is(coupons.close(alloc, &mut file).is_ok(), true).expect(&rt, "whether the file is written");
    let mut opened = Coupons::open(alloc, &mut file.as_slice()).expect(&rt, "the file");
    is(opened.redeem(first), Err(StrictError::InvalidPtr)).expect(&rt, "the first coupon again");
    is(opened.redeem(second), Ok(250)).expect(&rt, "the second coupon");
    is(opened.redeem(second), Err(StrictError::InvalidPtr)).expect(&rt, "the second coupon again");
}

#[test]
fn used_up_coupons_are_used_up_in_another_process(rt: HostRuntime) {
    let alloc = rt.alloc();
    let mut coupons = Coupons::new(alloc);
    for cents in 2..65535 {
        let coupon = coupons.issue(cents).expect(&rt, "memory");
        is(coupons.redeem(coupon), Ok(cents)).expect(&rt, "a coupon");
    }
    let last = coupons.issue(1).expect(&rt, "memory");
    is(coupons.redeem(last), Err(StrictError::Exhausted)).expect(&rt, "the last coupon");
    let mut file = Vec::new(alloc);
    is(coupons.close(alloc, &mut file).is_ok(), true).expect(&rt, "whether the file is written");
    let mut opened = Coupons::open(alloc, &mut file.as_slice()).expect(&rt, "the file");
    is(opened.redeem(last), Err(StrictError::Exhausted)).expect(&rt, "the last coupon, loaded");
    is(opened.issue(2).is_ok(), true).expect(&rt, "whether another is issued");
}

// There is a coupon at each index.
#[test]
fn no_coupon_is_issued_past_the_greatest_index(rt: HostRuntime) {
    let mut coupons = Coupons::new(rt.alloc());
    for cents in 1..=65_535 {
        is(coupons.issue(cents).is_ok(), true).expect(&rt, "memory");
    }
    let refusal = Err(ReallocationError::AllocError);
    is(coupons.issue(1), refusal).expect(&rt, "the refusal");
    is(coupons.redeem(pointer(65_535, 2)), Ok(65_535)).expect(&rt, "the last coupon");
    is(coupons.issue(1), Ok(pointer(65_535, 3))).expect(&rt, "a coupon in its place");
}

#[test]
fn coupons_whose_file_is_refused_come_back(rt: HostRuntime) {
    let alloc = rt.alloc();
    let mut coupons = Coupons::new(alloc);
    let coupon = coupons.issue(500).expect(&rt, "memory");
    let mut full = Trickling::new(Vec::new(alloc), 20, Some(ErrorKind::StorageFull), 1);
    match coupons.close(alloc, &mut full) {
        Ok(()) => is(true, false).expect(&rt, "the refusal"),
        Err((mut kept, refusal)) => {
            is(refusal, SaveError::Write).expect(&rt, "the refusal");
            is(kept.redeem(coupon), Ok(500)).expect(&rt, "the coupon");
        }
    }
}

// An entry that was inserted before the counter was set back.
fn set_back(rt: &impl Abort, alloc: Global) -> Arena<P3, u8> {
    let mut arena: Arena<P3, u8> = Arena::on_heap(alloc);
    arena.set_generation(pointer::<P3>(1, 5).generation());
    arena.insert(1).expect(rt, "memory");
    arena.set_generation(pointer::<P3>(1, 4).generation());
    arena
}

// Tells that it is the file of a strict arena.
fn made_strict(rt: &impl Abort, file: &mut Vec<u8>) {
    if let Some(kind) = file.get_mut(17) {
        *kind = 39;
    }
    file.truncate(file.len().saturating_sub(4));
    let sum = crc32c(file);
    sum.encode(file).expect(rt, "memory");
}

fn refusal_of(file: &[u8], alloc: Global) -> Option<LoadError> {
    let mut input = file;
    let loaded: Result<StrictArena<P3, u8>, LoadError> = load_strict_arena(
        NonZeroInxVec::new(alloc),
        alloc,
        &mut input,
    );
    match loaded {
        Ok(_strict) => None,
        Err(refusal) => Some(refusal),
    }
}

#[test]
fn an_entry_past_the_counter_is_refused(rt: HostRuntime) {
    let alloc = rt.alloc();
    let mut file = Vec::new(alloc);
    save_arena(&set_back(&rt, alloc), alloc, &mut file).expect(&rt, "memory");
    let other = Some(LoadError::Malformed(Fault::Shape, 17));
    is(refusal_of(&file, alloc), other).expect(&rt, "an arena that isn't strict");
    made_strict(&rt, &mut file);
    let past = Some(LoadError::Malformed(Fault::Counter, 27));
    is(refusal_of(&file, alloc), past).expect(&rt, "the refusal");
}
