use crate::tests::without_arenas::values::second_and_fourth;
use triple_arena_test_kit::is;
use triple_arena_uses::into_values::into_values;

// Of four values the first and the third are removed, and a fifth takes the third's place.
#[test]
fn values_come_by_index(rt: HostRuntime) {
    let mut arena = second_and_fourth(&rt, rt.alloc(), [1, 2, 3, 4]);
    arena.insert(5).expect(&rt, "a place");
    let values = into_values(rt.alloc(), arena).expect(&rt, "memory");
    is(values.as_slice(), [2, 5, 4].as_slice()).expect(&rt, "values by index");
}
