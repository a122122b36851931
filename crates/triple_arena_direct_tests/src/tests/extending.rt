//! Values that come from an iterator.

use triple_arena::{Arena, ArenaSlot, ArenaTrait, InsertFailed};
use triple_arena_base::ReallocationError;
use triple_arena_direct::{extend, from_iter};
use triple_arena_ptr::P0;
use triple_arena_stack::NonZeroInxArray;
use triple_arena_test_kit::{is, is_shown};

// An arena that a fourth value finds full.
type OfThree = Arena<P0, u64, NonZeroInxArray<ArenaSlot<P0, u64>, 3>>;

// The refusal of a fourth value.
const REFUSED: InsertFailed<u64> = InsertFailed {
    value: 4,
    error: ReallocationError::BeyondMaxCapacity,
};

// No arena is made of five values, and one is made of two. Of five that come to an empty one three find a place: the
// fourth comes back, and the fifth is left.
#[test]
fn values_come_until_one_is_refused(rt: HostRuntime) {
    let alloc = rt.alloc();
    let made: Result<OfThree, InsertFailed<u64>> = from_iter(alloc, 1..6);
    is(made.err(), Some(REFUSED)).expect(&rt, "the refusal of five");
    let made: OfThree = from_iter(alloc, 1..3).expect(&rt, "places for two");
    is_shown(alloc, &made, "{P0[1](2): 1, P0[2](2): 2}").expect(&rt, "the arena of two");
    let mut arena: OfThree = Arena::new(alloc);
    let mut values = 1..6;
    is(extend(&mut arena, &mut values), Err(REFUSED)).expect(&rt, "the refusal");
    is(values.next(), Some(5)).expect(&rt, "the value that is left");
    let text = "{P0[1](2): 1, P0[2](2): 2, P0[3](2): 3}";
    is_shown(alloc, &arena, text).expect(&rt, "the arena");
}
