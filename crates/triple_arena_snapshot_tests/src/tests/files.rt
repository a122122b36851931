//! Files: the worked example of the format's page, bytes that are none of them, and many values.

use std::alloc::Global;
use std::num::{NonZeroU64, NonZeroUsize};
use std::process::Abort;
use std::test::*;
use triple_arena_ptr::{P0, Ptr, Q2};
use triple_arena_snapshot::{Codec, Fault, LoadError, crc32c, from_file_bytes, to_file_bytes};

/// The file of the worked example.
pub const FILE: [u8; 54] = [
    0x74, 0x72, 0x69, 0x61, 0x72, 0x65, 0x6e, 0x61, 0x02, 0x04, 0x00, 0x00, 0x00, 0x00, 0x00, 0x00,
    0x00, 0x16, 0x03, 0x15, 0x19, 0x15, 0x00, 0x00, 0x00, 0x00, 0x00, 0x00, 0x00, 0x07, 0x00, 0x00,
    0x00, 0x01, 0x02, 0x00, 0x00, 0x00, 0x00, 0x00, 0x00, 0x00, 0x03, 0x00, 0x00, 0x00, 0x00, 0x00,
    0x00, 0x00, 0x52, 0xab, 0x22, 0xa5,
];

#[test]
fn the_checksum_is_that_of_others(rt: HostRuntime) {
    let rising: [u8; 32] = [
        0, 1, 2, 3, 4, 5, 6, 7, 8, 9, 10, 11, 12, 13, 14, 15, 16, 17, 18, 19, 20, 21, 22, 23, 24,
        25, 26, 27, 28, 29, 30, 31,
    ];
    assert!(rt; crc32c(b"") == 0);
    assert!(rt; crc32c(b"123456789") == 0xe306_9283);
    assert!(rt; crc32c(&[0; 32]) == 0x8a91_36aa);
    assert!(rt; crc32c(&[0xff; 32]) == 0x62a8_ab43);
    assert!(rt; crc32c(&rising) == 0x46dd_794e);
}

#[test]
fn the_worked_example_is_saved_and_loaded(rt: HostRuntime) {
    let alloc = rt.alloc();
    let index = NonZeroUsize::new(2).expect(&rt, "not 0");
    let generation = NonZeroU64::new(3).expect(&rt, "not 0");
    let value = (7u32, Some(P0::_from_raw(index, generation)));
    let written = to_file_bytes(&value, alloc).expect(&rt, "memory");
    assert!(rt; written.as_slice() == FILE.as_slice());
    let read: (u32, Option<P0>) = from_file_bytes(alloc, &FILE).expect(&rt, "the file");
    assert!(rt; read == value);
}

/// A byte of the file, another in its place, the fault, and its offset.
const CHANGED: &[(usize, u8, Fault, usize)] = &[
    (0, 0x75, Fault::Mark, 0),
    (7, 0x62, Fault::Mark, 7),
    (8, 1, Fault::Version, 8),
    (8, 3, Fault::Version, 8),
    (9, 5, Fault::Shape, 9),
    (16, 1, Fault::Shape, 9),
    (17, 23, Fault::Shape, 17),
    (20, 26, Fault::Shape, 20),
    (21, 0x14, Fault::Sum, 49),
    (21, 0x16, Fault::Cut, 51),
    (28, 1, Fault::Cut, 29),
    (29, 8, Fault::Sum, 50),
    (49, 1, Fault::Sum, 50),
    (50, 0x53, Fault::Sum, 50),
    (53, 0, Fault::Sum, 50),
];

#[test]
fn changed_files_are_refused(rt: HostRuntime) {
    let alloc = rt.alloc();
    for (at, byte, fault, offset) in CHANGED {
        let mut bytes = FILE;
        if let Some(place) = bytes.get_mut(*at) {
            *place = *byte;
        }
        let refusal = from_file_bytes::<(u32, Option<P0>)>(alloc, &bytes).err();
        assert!(rt; refusal == Some(LoadError::Malformed(*fault, *offset)));
    }
}

/// The file of two bytes, 5 and 2.
const SHORT: [u8; 34] = [
    0x74, 0x72, 0x69, 0x61, 0x72, 0x65, 0x6e, 0x61, 0x02, 0x03, 0x00, 0x00, 0x00, 0x00, 0x00, 0x00,
    0x00, 0x16, 0x01, 0x01, 0x02, 0x00, 0x00, 0x00, 0x00, 0x00, 0x00, 0x00, 0x05, 0x02, 0xf8, 0x5c,
    0x53, 0x56,
];

#[test]
fn files_of_other_types_are_refused(rt: HostRuntime) {
    let alloc = rt.alloc();
    let one = from_file_bytes::<u8>(alloc, &SHORT).err();
    assert!(rt; one == Some(LoadError::Malformed(Fault::Shape, 9)));
    let flag = from_file_bytes::<(u8, bool)>(alloc, &SHORT).err();
    assert!(rt; flag == Some(LoadError::Malformed(Fault::Shape, 19)));
    let signed = from_file_bytes::<(i8, u8)>(alloc, &SHORT).err();
    assert!(rt; signed == Some(LoadError::Malformed(Fault::Shape, 18)));
    let other = from_file_bytes::<(u32, Option<Q2>)>(alloc, &FILE).err();
    assert!(rt; other == Some(LoadError::Malformed(Fault::Shape, 20)));
}

#[test]
fn files_that_end_or_go_on_are_refused(rt: HostRuntime) {
    let alloc = rt.alloc();
    let empty = from_file_bytes::<(u8, u8)>(alloc, &[]).err();
    assert!(rt; empty == Some(LoadError::Malformed(Fault::Cut, 0)));
    let counted = from_file_bytes::<(u8, u8)>(alloc, SHORT.split_at(12).0).err();
    assert!(rt; counted == Some(LoadError::Malformed(Fault::Cut, 9)));
    let shaped = from_file_bytes::<(u8, u8)>(alloc, SHORT.split_at(18).0).err();
    assert!(rt; shaped == Some(LoadError::Malformed(Fault::Cut, 18)));
    let count = from_file_bytes::<(u8, u8)>(alloc, SHORT.split_at(24).0).err();
    assert!(rt; count == Some(LoadError::Malformed(Fault::Cut, 20)));
    let sum = from_file_bytes::<(u8, u8)>(alloc, SHORT.split_at(33).0).err();
    assert!(rt; sum == Some(LoadError::Malformed(Fault::Cut, 30)));
    let mut longer = Vec::from_slice(alloc, &SHORT).expect(&rt, "memory");
    longer.push(0).expect(&rt, "memory");
    let behind = from_file_bytes::<(u8, u8)>(alloc, &longer).err();
    assert!(rt; behind == Some(LoadError::Malformed(Fault::Trailing, 34)));
}

// A file of any bytes as those of a value, whose checksum is right.
fn file_of(rt: &impl Abort, shape: &[u8], value: &[u8], alloc: Global) -> Vec<u8> {
    let mut file = Vec::from_slice(alloc, b"triarena\x02").expect(rt, "memory");
    shape.len().encode(&mut file).expect(rt, "memory");
    file.extend_from_slice(shape).expect(rt, "memory");
    value.len().encode(&mut file).expect(rt, "memory");
    file.extend_from_slice(value).expect(rt, "memory");
    let sum = crc32c(&file);
    sum.encode(&mut file).expect(rt, "memory");
    file
}

#[test]
fn faults_of_the_value_have_their_offset_in_the_file(rt: HostRuntime) {
    let alloc = rt.alloc();
    let one = from_file_bytes::<u8>(alloc, &file_of(&rt, &[1], &[5, 2], alloc)).err();
    assert!(rt; one == Some(LoadError::Malformed(Fault::Trailing, 27)));
    let flag = from_file_bytes::<(u8, bool)>(
        alloc,
        &file_of(&rt, &[22, 1, 20], &[5, 2], alloc),
    ).err();
    assert!(rt; flag == Some(LoadError::Malformed(Fault::Flag, 29)));
    let more = from_file_bytes::<u32>(alloc, &file_of(&rt, &[3], &[5, 2], alloc)).err();
    assert!(rt; more == Some(LoadError::Malformed(Fault::Cut, 26)));
}

#[test]
fn thousands_of_values_are_saved_and_loaded(rt: HostRuntime) {
    let alloc = rt.alloc();
    let mut values: Vec<(u64, Option<u16>)> = Vec::new(alloc);
    for i in 0..3000u64 {
        values.push((i, Some(3))).expect(&rt, "memory");
    }
    let file = to_file_bytes(&values, alloc).expect(&rt, "memory");
    let read: Vec<(u64, Option<u16>)> = from_file_bytes(alloc, file.as_slice()).expect(
        &rt, "the file",
    );
    assert!(rt; read == values);
}
