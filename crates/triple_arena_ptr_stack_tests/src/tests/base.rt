//! What no clause of the base says: the texts of refusals; worked examples of ranges; and a caller over
//! any advancer.

ghost use Rattle.std.specs.Prelude.{◌≡◌, ◌⊎◌, ◌+◌, ◌-◌, ◌≤◌, ◌<◌, IsTrue, false, MatchOption, if◌then◌else◌};

use std::alloc::Global;
use std::fmt;
use std::num::NonZeroUsize;
use triple_arena_base::{
    Advancer, AllocError, ChainInsertionError, CloneFromError, CompactError, DirectInsertionError,
    GetDisjointMutError, InvalidationOption, InvalidationResult, MaxCapacityReductionError,
    NonZeroUsizeIterator, NotWithinCapacityError, OrdInsertionError, ReallocationError,
    nzusize_iter,
};
use triple_arena_test_kit::{is, is_shown};

/// Whether Display writes this text.
pub fn displays<T: fmt::Display>(alloc: Global, value: &T, text: &str) -> bool {
    match value.to_string(alloc) {
        Ok(written) => written.as_str() == text,
        Err(_) => false,
    }
}

// Whether Display writes this text for each refusal.
fn display<E: fmt::Display>(alloc: Global, texts: &[(E, &str)]) -> bool {
    for (refusal, text) in texts {
        if !displays(alloc, refusal, text) {
            return false;
        }
    }
    true
}

const NO_LOWER_LIMIT: &str =
    "the max capacity limit could not be reduced, because the capacity would also need to be reduced to equal it, and the capacity could not be reduced in this case";

const NO_PLACE: &str = "an operation would not be within existing capacity";

const AT_LIMIT: &str = "a max capacity limit prevents growing the capacity";

const NO_MEMORY: &str = "a memory reallocation failed";

const OF_GROWTH: &[(ReallocationError, &str)] = &[
    (ReallocationError::BeyondMaxCapacity, AT_LIMIT),
    (ReallocationError::AllocError, NO_MEMORY),
];

const OF_TWO_PLACES: &[(GetDisjointMutError, &str)] = &[
    (
        GetDisjointMutError::IndexOutOfBounds,
        "an index is out of bounds",
    ),
    (
        GetDisjointMutError::OverlappingIndices,
        "the indices overlap",
    ),
];

#[test]
fn refusals_of_stacks_have_their_texts(rt: HostRuntime) {
    let alloc = rt.alloc();
    let no_memory = displays(alloc, &AllocError, "memory allocation failed");
    is(no_memory, true).expect(&rt, "the text of AllocError");
    let no_lower = displays(alloc, &MaxCapacityReductionError, NO_LOWER_LIMIT);
    is(no_lower, true).expect(&rt, "the text of MaxCapacityReductionError");
    let no_place = displays(alloc, &NotWithinCapacityError, NO_PLACE);
    is(no_place, true).expect(&rt, "the text of NotWithinCapacityError");
    is(display(alloc, OF_GROWTH), true).expect(&rt, "the texts of ReallocationError");
    is(display(alloc, OF_TWO_PLACES), true).expect(&rt, "the texts of GetDisjointMutError");
}

const AT_AN_INDEX: &[(DirectInsertionError, &str)] = &[
    (
        DirectInsertionError::NotWithinCapacity,
        "a direct insertion index points to an internal slot that does not fit within existing capacity",
    ),
    (
        DirectInsertionError::ExistingElementAtIndex,
        "a direct insertion index points to an internal slot where there is already an existing element",
    ),
];

const INTO_A_CHAIN: &[(ChainInsertionError, &str)] = &[
    (
        ChainInsertionError::FailedLinkRequirement,
        "a `LinkInsertKind` requirement was not met",
    ),
    (ChainInsertionError::NotWithinCapacity, NO_PLACE),
    (ChainInsertionError::BeyondMaxCapacity, AT_LIMIT),
    (ChainInsertionError::AllocError, NO_MEMORY),
];

const IN_ORDER: &[(OrdInsertionError, &str)] = &[
    (
        OrdInsertionError::FailedOrdRequirement,
        "an `OrdInsertKind` requirement was not met",
    ),
    (OrdInsertionError::NotWithinCapacity, NO_PLACE),
    (OrdInsertionError::BeyondMaxCapacity, AT_LIMIT),
    (OrdInsertionError::AllocError, NO_MEMORY),
];

const OF_CLONING: &[(CloneFromError<u8>, &str)] = &[
    (
        CloneFromError::Reallocation(ReallocationError::AllocError),
        "the target could not hold the source",
    ),
    (CloneFromError::Map(3), "the map refused an entry"),
];

const OF_COMPACTION: &[(CompactError<u8>, &str)] = &[
    (
        CompactError::Unresolved(3),
        "a stored pointer does not resolve",
    ),
    (
        CompactError::Reallocation(ReallocationError::AllocError),
        "the recaster could not be made",
    ),
];

#[test]
fn refusals_of_arenas_have_their_texts(rt: HostRuntime) {
    let alloc = rt.alloc();
    is(display(alloc, AT_AN_INDEX), true).expect(&rt, "the texts of DirectInsertionError");
    is(display(alloc, INTO_A_CHAIN), true).expect(&rt, "the texts of ChainInsertionError");
    is(display(alloc, IN_ORDER), true).expect(&rt, "the texts of OrdInsertionError");
    is(display(alloc, OF_CLONING), true).expect(&rt, "the texts of CloneFromError");
    is(display(alloc, OF_COMPACTION), true).expect(&rt, "the texts of CompactError");
}

#[test]
fn refusals_and_answers_are_written_by_their_names(rt: HostRuntime) {
    let alloc = rt.alloc();
    is_shown(alloc, &AllocError, "AllocError").expect(&rt, "AllocError");
    let beyond = ReallocationError::BeyondMaxCapacity;
    is_shown(alloc, &beyond, "BeyondMaxCapacity").expect(&rt, "ReallocationError");
    let unresolved = CompactError::Unresolved(3u8);
    is_shown(alloc, &unresolved, "Unresolved(3)").expect(&rt, "CompactError");
    let overflow = InvalidationResult::GenerationOverflow(3u8);
    is_shown(alloc, &overflow, "GenerationOverflow(3)").expect(&rt, "an overflow");
    let invalid = InvalidationResult::<u8>::InvalidPtr;
    is_shown(alloc, &invalid, "InvalidPtr").expect(&rt, "an invalid pointer");
}

#[test]
fn an_overflow_is_told(rt: HostRuntime) {
    let done = InvalidationOption::GenerationOverflow(3u8);
    is(done.is_overflow(), true).expect(&rt, "of a call that is always done");
    let done = InvalidationResult::GenerationOverflow(3u8);
    is(done.is_overflow(), true).expect(&rt, "of a call on a pointer");
    let invalid = InvalidationResult::<u8>::InvalidPtr;
    is(invalid.is_overflow(), false).expect(&rt, "of a call on an invalid pointer");
}

// The range between two numbers; an end of 0 is none.
fn range(start: usize, end: usize) -> NonZeroUsizeIterator {
    let start = NonZeroUsize::new(start).unwrap_or(NonZeroUsize::MIN);
    nzusize_iter(start, NonZeroUsize::new(end)).into_iter()
}

// The number that is taken from the back of a range, 0 being none.
fn last(numbers: &mut NonZeroUsizeIterator) -> usize {
    match numbers.next_back() {
        Some(number) => number.get(),
        None => 0,
    }
}

#[test]
fn ranges_from_either_end(rt: HostRuntime) {
    is(range(3, 2).next(), None).expect(&rt, "an empty range");
    let mut greatest = range(usize::MAX, usize::MAX);
    is(greatest.next(), Some(NonZeroUsize::MAX)).expect(&rt, "the greatest number");
    is(greatest.next(), None).expect(&rt, "what follows it");
    let mut numbers = range(2, 4);
    let taken = [
        last(&mut numbers),
        last(&mut numbers),
        last(&mut numbers),
        last(&mut numbers),
    ];
    is(taken, [4, 3, 2, 0]).expect(&rt, "numbers from the back");
}

/// The numbers from a place on that are below the number walked over.
#[derive(Drop)]
struct Below {
    place: u64,
    over: bool,
}

impl Advancer<u64> for Below {
    type Item = u64;

    ghost advances = { λ b end answer next. MatchOption answer
        ((IsTrue b.over ⊎ (end ≤ b.place)) × (next ≡ b))
        (λ n. (n ≡ b.place) × (b.place < end) × (b.over ≡ false)
        × (next ≡ record b { place = b.place + 1 })) };

    ghost left = { λ b end. if b.over then 0 else end - b.place };

    fn advance(&mut self, end: &u64) -> Option<u64> {
        if self.over || *end <= self.place {
            return None;
        }
        let next = self.place;
        self.place += 1;
        Some(next)
    }

    fn empty() -> Self {
        Below {
            place: 0,
            over: true,
        }
    }
}

/// Counts what any advancer answers over a collection that stays.
fn steps<C, A: Advancer<C, Item = u64>>(mut advancer: A, collection: &C) -> u64 {
    let mut count: u64 = 0;
    while let Some(_item) = advancer.advance(collection) {
        count = count.wrapping_add(1);
    }
    count
}

#[test]
fn an_advancer_ends(rt: HostRuntime) {
    let from_two = Below {
        place: 2,
        over: false,
    };
    is(steps(from_two, &5), 3).expect(&rt, "numbers from 2 to 4");
    let nowhere: Below = Advancer::<u64>::empty();
    is(steps(nowhere, &5), 0).expect(&rt, "numbers from nowhere");
}
