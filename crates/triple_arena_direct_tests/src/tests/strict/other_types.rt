//! Strict arenas over another stack, and of pointers without generations.

use triple_arena::ArenaSlot;
use triple_arena_base::MaxCapacityReductionError;
use triple_arena_direct::StrictArena;
use triple_arena_ptr::P4;
use triple_arena_stack::{NonZeroInxGenericStack, NonZeroInxLimitedVec};
use triple_arena_test_kit::{B, is, pointer};

type Places = NonZeroInxLimitedVec<ArenaSlot<B, u64>>;

#[test]
fn the_limit_of_a_strict_arena_is_set(rt: HostRuntime) {
    let stack = Places::with_min_capacity(rt.alloc(), 3).expect(&rt, "memory");
    let mut numbers: StrictArena<B, u64, Places> = StrictArena::over(stack);
    for number in [1, 2] {
        numbers.insert(number).expect(&rt, "a place");
    }
    is(numbers.set_max_capacity(1), Err(MaxCapacityReductionError)).expect(&rt, "a limit of one");
    is(numbers.set_max_capacity(2), Ok(())).expect(&rt, "a limit of two");
}

// Its counter has no end, and each number has the pointer of the one before it.
#[test]
fn a_strict_arena_without_generations_goes_on(rt: HostRuntime) {
    let mut numbers: StrictArena<P4, u64> = StrictArena::new(rt.alloc());
    let first: P4 = pointer(1, 1);
    for number in 0..1_000 {
        is(numbers.insert(number), Ok(first)).expect(&rt, "an insertion");
        is(numbers.remove(first), Ok(number)).expect(&rt, "a removal");
    }
    is(numbers.insert(7), Ok(first)).expect(&rt, "an insertion");
    is(numbers.invalidate(first), Ok(first)).expect(&rt, "an invalidation");
    is(numbers.compress(), Ok(())).expect(&rt, "a compression");
    is(numbers.get(first).copied(), Some(7)).expect(&rt, "the number");
    is(numbers.clear(), Ok(())).expect(&rt, "a clear");
}
