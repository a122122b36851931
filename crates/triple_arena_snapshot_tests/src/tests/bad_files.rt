//! Bad files of each kind, by each load and by the users' ones: what is wrong is told, by its offset.

use crate::tests::devices::Dripping;
use std::alloc::Global;
use std::io::{ErrorKind, Read};
use std::process::Abort;
use std::test::*;
use triple_arena::{Arena, NonZeroInxGenericStack, NonZeroInxVec};
use triple_arena_direct::StrictArena;
use triple_arena_direct_arena::DirectArena;
use triple_arena_ptr::P3;
use triple_arena_snapshot::{
    Codec, Fault, LoadError, crc32c, from_file_bytes, load, load_arena, load_direct_arena,
    load_strict_arena,
};
use triple_arena_snapshot_uses::{Circuit, Coupons};
use triple_arena_test_kit::is;

/// The file of a vector of two texts, "a" and "bc".
const TEXTS: &[u8] = &[
    116, 114, 105, 97, 114, 101, 110, 97, 2, 2, 0, 0, 0, 0, 0, 0, 0, 23, 24, 27, 0, 0, 0, 0, 0, 0,
    0, 2, 0, 0, 0, 0, 0, 0, 0, 1, 0, 0, 0, 0, 0, 0, 0, 97, 2, 0, 0, 0, 0, 0, 0, 0, 98, 99, 225,
    252, 94, 124,
];

/// The file of the arena of the format's page.
pub const ARENA: &[u8] = &[
    116, 114, 105, 97, 114, 101, 110, 97, 2, 2, 0, 0, 0, 0, 0, 0, 0, 37, 1, 49, 0, 0, 0, 0, 0, 0,
    0, 255, 255, 0, 0, 0, 0, 0, 0, 2, 3, 0, 0, 0, 0, 0, 0, 0, 0, 0, 1, 2, 0, 9, 4, 0, 2, 0, 0, 0,
    0, 0, 0, 0, 2, 0, 0, 0, 0, 0, 0, 0, 1, 0, 0, 0, 0, 0, 0, 0, 140, 79, 14, 34,
];

/// The file of a strict arena with the same arena inside.
pub const STRICT: &[u8] = &[
    116, 114, 105, 97, 114, 101, 110, 97, 2, 2, 0, 0, 0, 0, 0, 0, 0, 39, 1, 49, 0, 0, 0, 0, 0, 0,
    0, 255, 255, 0, 0, 0, 0, 0, 0, 2, 3, 0, 0, 0, 0, 0, 0, 0, 0, 0, 1, 2, 0, 9, 4, 0, 2, 0, 0, 0,
    0, 0, 0, 0, 2, 0, 0, 0, 0, 0, 0, 0, 1, 0, 0, 0, 0, 0, 0, 0, 228, 84, 141, 74,
];

/// The file of the direct arena of the same entry.
pub const DIRECT: &[u8] = &[
    116, 114, 105, 97, 114, 101, 110, 97, 2, 2, 0, 0, 0, 0, 0, 0, 0, 38, 1, 23, 0, 0, 0, 0, 0, 0,
    0, 255, 255, 0, 0, 0, 0, 0, 0, 2, 3, 0, 0, 0, 0, 0, 0, 0, 0, 0, 1, 2, 0, 9, 203, 132, 60, 162,
];

/// A way to load a file, and why it was refused.
trait Loaded {
    fn refusal(input: &mut Dripping<'_>, alloc: Global) -> Option<LoadError>;
}

/// Texts of a file that was read whole before.
struct TextsOfBytes;

impl Loaded for TextsOfBytes {
    fn refusal(input: &mut Dripping<'_>, alloc: Global) -> Option<LoadError> {
        let mut bytes = Vec::new(alloc);
        match input.read_to_end(&mut bytes) {
            Ok(_count) => from_file_bytes::<Vec<String>>(alloc, &bytes).err(),
            Err(_failure) => Some(LoadError::Read),
        }
    }
}

struct Texts;

impl Loaded for Texts {
    fn refusal(input: &mut Dripping<'_>, alloc: Global) -> Option<LoadError> {
        load::<Vec<String>, Dripping>(alloc, input).err()
    }
}

struct Plain;

impl Loaded for Plain {
    fn refusal(input: &mut Dripping<'_>, alloc: Global) -> Option<LoadError> {
        let loaded: Result<Arena<P3, u8>, LoadError> = load_arena(
            NonZeroInxVec::new(alloc),
            alloc,
            input,
        );
        loaded.err()
    }
}

struct Direct;

impl Loaded for Direct {
    fn refusal(input: &mut Dripping<'_>, alloc: Global) -> Option<LoadError> {
        let loaded: Result<DirectArena<P3, u8>, LoadError> = load_direct_arena(
            NonZeroInxVec::new(alloc),
            alloc,
            input,
        );
        loaded.err()
    }
}

struct Strict;

impl Loaded for Strict {
    fn refusal(input: &mut Dripping<'_>, alloc: Global) -> Option<LoadError> {
        let loaded: Result<StrictArena<P3, u8>, LoadError> = load_strict_arena(
            NonZeroInxVec::new(alloc),
            alloc,
            input,
        );
        match loaded {
            Ok(_strict) => None,
            Err(refusal) => Some(refusal),
        }
    }
}

struct OfCircuit;

impl Loaded for OfCircuit {
    fn refusal(input: &mut Dripping<'_>, alloc: Global) -> Option<LoadError> {
        Circuit::load(alloc, input).err()
    }
}

struct OfCoupons;

impl Loaded for OfCoupons {
    fn refusal(input: &mut Dripping<'_>, alloc: Global) -> Option<LoadError> {
        match Coupons::open(alloc, input) {
            Ok(_coupons) => None,
            Err(refusal) => Some(refusal),
        }
    }
}

/// A byte in front of a value, what is wrong where it is another, and the offset that is told.
const FRONT: &[(usize, Fault, usize)] = &[
    (0, Fault::Mark, 0),
    (3, Fault::Mark, 3),
    (7, Fault::Mark, 7),
    (8, Fault::Version, 8),
    (9, Fault::Shape, 9),
    (12, Fault::Shape, 9),
    (16, Fault::Shape, 9),
    (17, Fault::Shape, 17),
];

fn refusal_of<L: Loaded>(file: &[u8], alloc: Global) -> Option<LoadError> {
    L::refusal(&mut Dripping::new(file, 0, ErrorKind::Other, 0), alloc)
}

// The file, with another byte at a place.
fn turned(rt: &impl Abort, file: &[u8], at: usize, alloc: Global) -> Vec<u8> {
    let mut bytes = Vec::from_slice(alloc, file).expect(rt, "memory");
    if let Some(byte) = bytes.get_mut(at) {
        *byte ^= 1;
    }
    bytes
}

// Where the value begins.
fn value_at(file: &[u8]) -> usize {
    25usize.saturating_add(file.get(9).copied().unwrap_or(0) as usize)
}

// Where a file of a value that begins at an offset is told to be cut, if so many bytes are left.
fn cut_at(left: usize, value: usize, sum: usize) -> usize {
    let count = value.saturating_sub(8);
    if left < 9 {
        left
    } else if left < 17 {
        9
    } else if left < count {
        left
    } else if left < value {
        count
    } else if left < sum {
        value
    } else {
        sum
    }
}

// What is told of a file in which something beside the value is wrong.
fn front_and_end<L: Loaded>(rt: &impl Abort, file: &[u8], alloc: Global) {
    let value = value_at(file);
    let sum = file.len().saturating_sub(4);
    is(refusal_of::<L>(file, alloc), None).expect(rt, "the file as it is");
    for (at, fault, offset) in FRONT {
        let bad = turned(rt, file, *at, alloc);
        let told = Some(LoadError::Malformed(*fault, *offset));
        is(refusal_of::<L>(&bad, alloc), told).expect(rt, "the front");
        let mut failing = Dripping::new(&bad, 20, ErrorKind::TimedOut, 1);
        is(L::refusal(&mut failing, alloc), Some(LoadError::Read)).expect(rt, "the reader");
    }
    let told = Some(LoadError::Malformed(Fault::Sum, sum));
    for at in value..file.len() {
        is(refusal_of::<L>(&turned(rt, file, at, alloc), alloc), told).expect(rt, "the checksum");
    }
    for left in 0..file.len() {
        let told = Some(LoadError::Malformed(Fault::Cut, cut_at(left, value, sum)));
        let front = file.get(..left).unwrap_or(&[]);
        is(refusal_of::<L>(front, alloc), told).expect(rt, "a file that ends");
    }
    let mut longer = Vec::from_slice(alloc, file).expect(rt, "memory");
    longer.push(0).expect(rt, "memory");
    let told = Some(LoadError::Malformed(Fault::Trailing, file.len()));
    is(refusal_of::<L>(&longer, alloc), told).expect(rt, "a file that goes on");
}

#[test]
fn each_load_tells_what_is_wrong_beside_the_value(rt: HostRuntime) {
    let alloc = rt.alloc();
    front_and_end::<TextsOfBytes>(&rt, TEXTS, alloc);
    front_and_end::<Texts>(&rt, TEXTS, alloc);
    front_and_end::<Plain>(&rt, ARENA, alloc);
    front_and_end::<Direct>(&rt, DIRECT, alloc);
    front_and_end::<Strict>(&rt, STRICT, alloc);
}

#[test]
fn users_tell_what_is_wrong_beside_the_value(rt: HostRuntime) {
    let alloc = rt.alloc();
    let mut circuit = Circuit::new(alloc);
    let net = circuit.add_net(7, None).expect(&rt, "memory");
    circuit.add_cell(3, net, alloc).expect(&rt, "memory");
    let mut file = Vec::new(alloc);
    circuit.save(alloc, &mut file).expect(&rt, "memory");
    front_and_end::<OfCircuit>(&rt, &file, alloc);
    let mut coupons = Coupons::new(alloc);
    coupons.issue(500).expect(&rt, "memory");
    let mut file = Vec::new(alloc);
    is(coupons.close(alloc, &mut file).is_ok(), true).expect(&rt, "whether the file is written");
    front_and_end::<OfCoupons>(&rt, &file, alloc);
}

#[test]
fn files_of_other_kinds_are_refused(rt: HostRuntime) {
    let alloc = rt.alloc();
    let counted = Some(LoadError::Malformed(Fault::Shape, 9));
    let kind = Some(LoadError::Malformed(Fault::Shape, 17));
    is(refusal_of::<Plain>(STRICT, alloc), kind).expect(&rt, "a strict arena as an arena");
    is(refusal_of::<Plain>(DIRECT, alloc), kind).expect(&rt, "a direct arena as an arena");
    is(refusal_of::<Strict>(ARENA, alloc), kind).expect(&rt, "an arena as a strict one");
    is(refusal_of::<Direct>(ARENA, alloc), kind).expect(&rt, "an arena as a direct one");
    is(refusal_of::<Texts>(ARENA, alloc), kind).expect(&rt, "an arena as texts");
    is(
        refusal_of::<OfCoupons>(STRICT, alloc),
        Some(LoadError::Malformed(Fault::Shape, 18)),
    )
    .expect(&rt, "values of another type");
    is(refusal_of::<OfCircuit>(ARENA, alloc), counted).expect(&rt, "an arena as a circuit");
}

/// A byte of the value, another in its place, what is wrong, and the place that is told.
type Wrong = (usize, u8, Fault, usize);

/// What may be wrong with the slots of the arenas.
const SLOTS: &[Wrong] = &[
    (0, 0, Fault::Width, 0),
    (8, 4, Fault::Width, 8),
    (16, 1, Fault::Slots, 9),
    (17, 2, Fault::Flag, 17),
    (20, 0, Fault::Zero, 20),
];

/// And with a counter and a free list.
const FREE: &[Wrong] = &[
    (23, 0, Fault::Zero, 23),
    (33, 0, Fault::Zero, 33),
    (33, 1, Fault::FreeList, 25),
];

// What is told of files whose checksum is right, and whose value isn't.
fn of_values<L: Loaded>(rt: &impl Abort, file: &[u8], wrong: &[Wrong], alloc: Global) {
    let value = value_at(file);
    for (at, byte, fault, offset) in wrong {
        let mut bad = Vec::from_slice(alloc, file).expect(rt, "memory");
        bad.truncate(file.len().saturating_sub(4));
        if let Some(place) = bad.get_mut(value.saturating_add(*at)) {
            *place = *byte;
        }
        let sum = crc32c(&bad);
        sum.encode(&mut bad).expect(rt, "memory");
        let told = Some(LoadError::Malformed(*fault, value.saturating_add(*offset)));
        is(refusal_of::<L>(&bad, alloc), told).expect(rt, "the value");
    }
}

#[test]
fn each_load_tells_what_is_wrong_with_the_value(rt: HostRuntime) {
    let alloc = rt.alloc();
    of_values::<TextsOfBytes>(&rt, TEXTS, &[(16, 0xff, Fault::Text, 16)], alloc);
    of_values::<Texts>(
        &rt,
        TEXTS,
        &[(16, 0xff, Fault::Text, 16), (0, 1, Fault::Trailing, 17)],
        alloc,
    );
    of_values::<Plain>(&rt, ARENA, SLOTS, alloc);
    of_values::<Plain>(&rt, ARENA, FREE, alloc);
    of_values::<Direct>(&rt, DIRECT, SLOTS, alloc);
    of_values::<Strict>(&rt, STRICT, SLOTS, alloc);
    of_values::<Strict>(&rt, STRICT, FREE, alloc);
    of_values::<Strict>(&rt, STRICT, &[(23, 1, Fault::Counter, 0)], alloc);
}
