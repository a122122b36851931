//! Tuples, arrays, boxes, floats and maps as bytes, each type once with ample memory; and bytes that are
//! none of theirs.

use crate::tests::bytes::{Unlike, has_bytes, is_refused};
use std::alloc::Global;
use std::collections::BTreeMap;
use std::test::*;
use triple_arena_snapshot::{Fault, from_bytes, to_bytes};

#[test]
fn a_tuple_has_the_bytes_of_each(rt: HostRuntime) {
    let alloc = rt.alloc();
    has_bytes(alloc, &(1u8, 2u16, true), &[1, 2, 0, 1]).expect(&rt, "three");
    has_bytes(alloc, &(1u8, 2u16, 3u8, Some(4u8)), &[1, 2, 0, 3, 1, 4]).expect(&rt, "four");
    is_refused::<(u8, bool, u8)>(alloc, &[1, 2, 3], Fault::Flag, 2).expect(&rt, "the second");
    is_refused::<(u8, u8, u8, u16)>(alloc, &[1, 2, 3, 4], Fault::Cut, 1).expect(&rt, "the fourth");
}

#[test]
fn an_array_has_the_bytes_of_each(rt: HostRuntime) {
    let alloc = rt.alloc();
    has_bytes(alloc, &[258u16], &[2, 1]).expect(&rt, "one");
    has_bytes(alloc, &[1u8, 2], &[1, 2]).expect(&rt, "two");
    has_bytes(alloc, &[1u8, 2, 3], &[1, 2, 3]).expect(&rt, "three");
    has_bytes(alloc, &[1u8, 2, 3, 4], &[1, 2, 3, 4]).expect(&rt, "four");
    is_refused::<[u16; 3]>(alloc, &[1, 0, 2, 0, 3], Fault::Cut, 1).expect(&rt, "half of the third");
    is_refused::<[bool; 2]>(alloc, &[1, 2, 0], Fault::Flag, 2).expect(&rt, "the second");
}

#[test]
fn a_longer_array_has_the_bytes_of_each(rt: HostRuntime) {
    let alloc = rt.alloc();
    has_bytes(alloc, &[1u8, 2, 3, 4, 5], &[1, 2, 3, 4, 5]).expect(&rt, "five");
    has_bytes(alloc, &[1u8, 2, 3, 4, 5, 6], &[1, 2, 3, 4, 5, 6]).expect(&rt, "six");
    has_bytes(alloc, &[1u8, 2, 3, 4, 5, 6, 7], &[1, 2, 3, 4, 5, 6, 7]).expect(&rt, "seven");
    has_bytes(
        alloc,
        &[1u8, 2, 3, 4, 5, 6, 7, 8],
        &[1, 2, 3, 4, 5, 6, 7, 8],
    )
    .expect(&rt, "eight");
    is_refused::<[u8; 5]>(alloc, &[1, 2, 3, 4], Fault::Cut, 0).expect(&rt, "no fifth");
    is_refused::<[bool; 8]>(alloc, &[0, 1, 0, 1, 0, 2, 0, 1], Fault::Flag, 3).expect(
        &rt,
        "the sixth",
    );
}

#[test]
fn a_box_has_the_bytes_of_its_value(rt: HostRuntime) {
    let alloc = rt.alloc();
    let boxed = Box::new(alloc, 258u16).expect(&rt, "memory");
    has_bytes(alloc, &boxed, &[2, 1]).expect(&rt, "a box");
    is_refused::<Box<u16>>(alloc, &[2], Fault::Cut, 1).expect(&rt, "half of it");
}

#[test]
fn a_float_has_the_bytes_of_its_bits(rt: HostRuntime) {
    let alloc = rt.alloc();
    has_bytes(alloc, &1.5f32, &[0, 0, 0xc0, 0x3f]).expect(&rt, "1.5");
    has_bytes(alloc, &0.0f32, &[0, 0, 0, 0]).expect(&rt, "0");
    has_bytes(alloc, &-0.0f32, &[0, 0, 0, 0x80]).expect(&rt, "-0");
    has_bytes(alloc, &f32::NEG_INFINITY, &[0, 0, 0x80, 0xff]).expect(&rt, "-infinity");
    has_bytes(alloc, &-2.0f64, &[0, 0, 0, 0, 0, 0, 0, 0xc0]).expect(&rt, "-2");
    has_bytes(alloc, &-0.0f64, &[0, 0, 0, 0, 0, 0, 0, 0x80]).expect(&rt, "-0");
    has_bytes(alloc, &f64::INFINITY, &[0, 0, 0, 0, 0, 0, 0xf0, 0x7f]).expect(&rt, "infinity");
}

// Whether these are the bytes of each NaN, and a NaN is read of them.
fn are_of_nan(alloc: Global, short: &[u8], long: &[u8]) -> Result<bool, Unlike> {
    let (written, longer) = (to_bytes(&f32::NAN, alloc)?, to_bytes(&f64::NAN, alloc)?);
    let (read, wide) = (
        from_bytes::<f32>(alloc, short)?,
        from_bytes::<f64>(alloc, long)?,
    );
    Ok(
        (written.as_slice() == short && longer.as_slice() == long)
            && (read.is_nan() && wide.is_nan()),
    )
}

#[test]
fn a_nan_has_one_pattern(rt: HostRuntime) {
    let alloc = rt.alloc();
    let is_it = are_of_nan(alloc, &[0, 0, 0xc0, 0x7f], &[0, 0, 0, 0, 0, 0, 0xf8, 0x7f]);
    let is_it = is_it.expect(&rt, "read again");
    if !is_it {
        panic!(rt; "no NaN");
    }
    is_refused::<f32>(alloc, &[1, 0, 0xc0, 0x7f], Fault::Nan, 4).expect(&rt, "with a payload");
    is_refused::<f32>(alloc, &[0, 0, 0xc0, 0xff], Fault::Nan, 4).expect(&rt, "with a sign");
    is_refused::<(u8, f64)>(alloc, &[7, 1, 0, 0, 0, 0, 0, 0xf0, 0x7f], Fault::Nan, 8).expect(
        &rt,
        "a signalling one",
    );
}

// A map of two entries, the greater key first.
fn two_entries(alloc: Global) -> Result<BTreeMap<u16, bool>, Unlike> {
    let mut map = BTreeMap::new(alloc);
    match map.insert(258, false) {
        Ok(_) => (),
        Err(_) => return Err(Unlike::Read),
    }
    match map.insert(3, true) {
        Ok(_) => Ok(map),
        Err(_) => Err(Unlike::Read),
    }
}

#[test]
fn a_map_has_the_bytes_of_its_entries_by_key(rt: HostRuntime) {
    let alloc = rt.alloc();
    let map = two_entries(alloc).expect(&rt, "memory");
    has_bytes(alloc, &map, &[2, 0, 0, 0, 0, 0, 0, 0, 3, 0, 1, 2, 1, 0]).expect(&rt, "two entries");
    let none: BTreeMap<u16, bool> = BTreeMap::new(alloc);
    has_bytes(alloc, &none, &[0; 8]).expect(&rt, "none");
}

#[test]
fn keys_that_do_not_rise_are_refused(rt: HostRuntime) {
    let alloc = rt.alloc();
    type Map = BTreeMap<u8, u8>;
    is_refused::<Map>(
        alloc,
        &[2, 0, 0, 0, 0, 0, 0, 0, 5, 1, 5, 2],
        Fault::Order,
        2,
    )
    .expect(&rt, "one key twice");
    is_refused::<Map>(
        alloc,
        &[3, 0, 0, 0, 0, 0, 0, 0, 5, 1, 7, 2, 6],
        Fault::Order,
        1,
    )
    .expect(&rt, "a lesser key, in front of a value that is cut");
    is_refused::<Map>(alloc, &[2, 0, 0, 0, 0, 0, 0, 0, 5, 1, 7], Fault::Cut, 0).expect(
        &rt,
        "a value that is cut",
    );
    is_refused::<BTreeMap<String, ()>>(
        alloc,
        &[
            2, 0, 0, 0, 0, 0, 0, 0, 1, 0, 0, 0, 0, 0, 0, 0, 98, 0, 1, 0, 0, 0, 0, 0, 0, 0, 97, 0,
        ],
        Fault::Order,
        10,
    )
    .expect(&rt, "b and then a");
}
