//! The greatest indexes.

use std::num::{NonZeroU8, NonZeroU128, NonZeroUsize};
use triple_arena_ptr::PtrInx;
use triple_arena_test_kit::is;

// The byte index of a number.
fn byte_index(number: usize) -> Option<NonZeroU8> {
    PtrInx::try_from_usize(NonZeroUsize::new(number)?)
}

// The number of an index of 128 bits.
fn number_of_wide(number: u128) -> Option<NonZeroUsize> {
    PtrInx::try_into_usize(NonZeroU128::new(number)?)
}

#[test]
fn indexes_end_at_the_greatest(rt: HostRuntime) {
    is(byte_index(255), Some(NonZeroU8::MAX)).expect(&rt, "the greatest byte index");
    is(byte_index(256), None).expect(&rt, "one more");
    let greatest = 18_446_744_073_709_551_615;
    is(number_of_wide(greatest), Some(NonZeroUsize::MAX)).expect(
        &rt,
        "the greatest index of a slot",
    );
    is(number_of_wide(greatest + 1), None).expect(&rt, "one more");
}
