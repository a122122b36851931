use triple_arena_direct::{StrictArena, StrictError};
use triple_arena_direct_uses::exchange::exchange;
use triple_arena_ptr::P0;
use triple_arena_test_kit::is;
use triple_arena_uses::same_pointers::are_same;

// What comes out under the pointer of the first of two values, and then again; what is found at
// last under the pointers of these and of those that were put in; and whether the third's is
// itself, and is the first's.
#[test]
fn a_value_comes_for_another(rt: HostRuntime) {
    let mut arena: StrictArena<P0, u64> = StrictArena::new(rt.alloc());
    let first = arena.insert(10).expect(&rt, "memory");
    let second = arena.insert(20).expect(&rt, "memory");
    let (taken, third) = exchange(&mut arena, first, 30);
    let third = third.expect(&rt, "a place");
    let (refused, fourth) = exchange(&mut arena, first, 40);
    let fourth = fourth.expect(&rt, "memory");
    is([taken, refused], [Ok(10), Err(StrictError::InvalidPtr)]).expect(&rt, "what comes out");
    let found = [
        arena.get(first).copied(),
        arena.get(second).copied(),
        arena.get(third).copied(),
        arena.get(fourth).copied(),
    ];
    is(found, [None, Some(20), Some(30), Some(40)]).expect(&rt, "values by pointers");
    let same = [are_same(third, third), are_same(third, first)];
    is(same, [true, false]).expect(&rt, "which pointers are the same");
}
