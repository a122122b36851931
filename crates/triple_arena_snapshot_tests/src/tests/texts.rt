//! The texts of refusals, which tell a user what is wrong with a file.

use std::test::*;
use triple_arena_snapshot::{DecodeError, Fault, LoadError, SaveError};
use triple_arena_test_kit::are_written;

const FAULTS: &[(Fault, &str, &str)] = &[
    (Fault::Cut, "the bytes end within a value", "Cut"),
    (
        Fault::Flag,
        "a byte is none of those that may stand there",
        "Flag",
    ),
    (Fault::Zero, "a number is 0 that may not be", "Zero"),
    (Fault::Text, "a text is not UTF-8", "Text"),
    (
        Fault::Nan,
        "the bits of a float are another pattern of a NaN than the one that is written",
        "Nan",
    ),
    (
        Fault::Order,
        "a key of a map is not above the one in front of it",
        "Order",
    ),
    (
        Fault::Width,
        "the pointers of an arena are of another width",
        "Width",
    ),
    (Fault::Slots, "an arena has more slots than fit", "Slots"),
    (
        Fault::FreeList,
        "the free list of an arena is not that of its free slots",
        "FreeList",
    ),
    (
        Fault::Counter,
        "an entry of a strict arena is of a generation past the counter",
        "Counter",
    ),
    (Fault::Trailing, "bytes stand behind the value", "Trailing"),
    (Fault::Mark, "the file does not begin with the mark", "Mark"),
    (Fault::Version, "the file is of another version", "Version"),
    (
        Fault::Shape,
        "the file is of values of another type",
        "Shape",
    ),
    (
        Fault::Sum,
        "the checksum is not that of the bytes before it",
        "Sum",
    ),
];

const NO_MEMORY: &str = "memory was refused";

const OF_DECODING: &[(DecodeError, &str, &str)] = &[
    (DecodeError::Memory, NO_MEMORY, "Memory"),
    (
        DecodeError::Malformed(Fault::Zero, 3),
        "malformed 3 bytes before the end: a number is 0 that may not be",
        "Malformed(Zero, 3)",
    ),
];

const OF_LOADING: &[(LoadError, &str, &str)] = &[
    (LoadError::Memory, NO_MEMORY, "Memory"),
    (LoadError::Read, "the reader failed", "Read"),
    (
        LoadError::Malformed(Fault::Mark, 7),
        "malformed at byte 7: the file does not begin with the mark",
        "Malformed(Mark, 7)",
    ),
];

const OF_SAVING: &[(SaveError, &str, &str)] = &[
    (SaveError::Memory, NO_MEMORY, "Memory"),
    (SaveError::Write, "the writer failed", "Write"),
];

#[test]
fn refusals_have_their_texts(rt: HostRuntime) {
    let alloc = rt.alloc();
    are_written(alloc, FAULTS).expect(&rt, "the texts of Fault");
    are_written(alloc, OF_DECODING).expect(&rt, "the texts of DecodeError");
    are_written(alloc, OF_LOADING).expect(&rt, "the texts of LoadError");
    are_written(alloc, OF_SAVING).expect(&rt, "the texts of SaveError");
}
