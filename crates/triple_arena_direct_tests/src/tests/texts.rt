//! Texts of refusals, and those of arenas of thousands of entries.

use crate::tests::direct::Numbers;
use crate::tests::shown::{arena_is_shown, strict_is_shown};
use std::alloc::{AllocError, Global};
use triple_arena::Arena;
use triple_arena_base::{CompactError, ReallocationError};
use triple_arena_direct::{
    CompactBothError, StrictCompactBothError, StrictCompactError, StrictError, into_strict,
};
use triple_arena_ptr::P0;
use triple_arena_test_kit::{are_written, is, pointer};

const AT_ITS_END: &str = "the generation counter is at its greatest value";

const STRICT: &[(StrictError, &str, &str)] = &[
    (
        StrictError::InvalidPtr,
        "the pointer is invalid",
        "InvalidPtr",
    ),
    (StrictError::Exhausted, AT_ITS_END, "Exhausted"),
];

const OF_A_COMPACTION: &[(StrictCompactError<u8>, &str, &str)] = &[
    (StrictCompactError::Exhausted, AT_ITS_END, "Exhausted"),
    (
        StrictCompactError::Compact(CompactError::Unresolved(3)),
        "the compaction was refused",
        "Compact(Unresolved(3))",
    ),
];

const OF_BOTH: &[(CompactBothError<u8, u8>, &str, &str)] = &[
    (
        CompactBothError::First(CompactError::Unresolved(3)),
        "the compaction of the first arena was refused: a stored pointer does not resolve",
        "First(Unresolved(3))",
    ),
    (
        CompactBothError::Second(CompactError::Reallocation(ReallocationError::AllocError)),
        "the compaction of the second arena was refused: the recaster could not be made",
        "Second(Reallocation(AllocError))",
    ),
];

const OF_BOTH_STRICTLY: &[(StrictCompactBothError<u8, u8>, &str, &str)] = &[
    (
        StrictCompactBothError::Exhausted,
        "the generation counter of an arena is at its greatest value",
        "Exhausted",
    ),
    (
        StrictCompactBothError::Compact(CompactBothError::Second(CompactError::Unresolved(3))),
        "the compaction of two arenas was refused",
        "Compact(Second(Unresolved(3)))",
    ),
];

#[test]
fn refusals_have_their_texts(rt: HostRuntime) {
    let alloc = rt.alloc();
    are_written(alloc, STRICT).expect(&rt, "the texts of StrictError");
    are_written(alloc, OF_A_COMPACTION).expect(&rt, "the texts of StrictCompactError");
    are_written(alloc, OF_BOTH).expect(&rt, "the texts of CompactBothError");
    are_written(alloc, OF_BOTH_STRICTLY).expect(&rt, "the texts of StrictCompactBothError");
}

// How many entries are shown.
const ENTRIES: u64 = 5_000;

// The text of an arena of the numbers from 1 on.
fn text_of_numbers(alloc: Global) -> Result<String, AllocError> {
    let mut text = String::from_str(alloc, "{P0[1](2): 1")?;
    for number in 2..=ENTRIES {
        let entry = format!(in alloc; ", P0[{number:x}](2): {number}")?;
        text.push_str(&entry)?;
    }
    text.push('}')?;
    Ok(text)
}

#[test]
fn thousands_of_entries_have_their_text(rt: HostRuntime) {
    let alloc = rt.alloc();
    let text = text_of_numbers(alloc).expect(&rt, "memory");
    let mut arena: Arena<P0, u64> = Arena::on_heap(alloc);
    for number in 1..=ENTRIES {
        arena.insert(number).expect(&rt, "memory");
    }
    arena_is_shown(alloc, &arena, &text).expect(&rt, "an arena");
    let mut direct = Numbers::with_room(&rt, alloc, ENTRIES as usize);
    for number in 1..=ENTRIES {
        direct.insert(pointer(number as usize, 2), number);
    }
    direct.is_shown(alloc, &text).expect(&rt, "a direct arena");
    match into_strict(arena) {
        Ok(strict) => strict_is_shown(alloc, &strict, &text).expect(&rt, "a strict arena"),
        Err(_arena) => is(false, true).expect(&rt, "whether it became a strict one"),
    }
}
