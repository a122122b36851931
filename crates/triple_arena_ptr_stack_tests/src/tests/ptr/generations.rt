//! How generations rise.

use std::num::{NonZeroU8, NonZeroU16, NonZeroU32, NonZeroU64, NonZeroU128};
use triple_arena_ptr::PtrGen;
use triple_arena_test_kit::is;

// Whether generations count or not, as `counting` says, begin at `two`, come there from 1, and come
// there again from the greatest, which tells of a wrap where they count: there alone `is_max` says so.
fn rises<G: PtrGen>(counting: bool, two: Option<G>, greatest: G) -> bool {
    G::counts() == counting
        && Some(G::two()) == two
        && G::generational_inc(G::one()) == (G::two(), false)
        && G::generational_inc(greatest) == (G::two(), counting)
        && G::is_max(greatest) == counting
        && !G::is_max(G::one())
        && !G::is_max(G::two())
}

#[test]
fn generations_rise_and_begin_anew_at_two(rt: HostRuntime) {
    is(rises(true, NonZeroU8::new(2), NonZeroU8::MAX), true).expect(&rt, "8 bits");
    is(rises(true, NonZeroU16::new(2), NonZeroU16::MAX), true).expect(&rt, "16 bits");
    is(rises(true, NonZeroU32::new(2), NonZeroU32::MAX), true).expect(&rt, "32 bits");
    is(rises(true, NonZeroU64::new(2), NonZeroU64::MAX), true).expect(&rt, "64 bits");
    is(rises(true, NonZeroU128::new(2), NonZeroU128::MAX), true).expect(&rt, "128 bits");
    is(rises(false, Some(()), ()), true).expect(&rt, "generations that don't count");
}
