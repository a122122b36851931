use triple_arena::{Arena, ArenaSlot, ArenaTrait};
use triple_arena_ptr::P0;
use triple_arena_stack::NonZeroInxArray;
use triple_arena_test_kit::is;
use triple_arena_uses::waiting::insert_or_wait;

// Of three values one finds a place, and the others wait.
#[test]
fn refused_values_wait_in_their_order(rt: HostRuntime) {
    let mut arena: Arena<P0, u64, NonZeroInxArray<ArenaSlot<P0, u64>, 1>> = Arena::new(rt.alloc());
    let mut waiting = Vec::new(rt.alloc());
    let first = insert_or_wait(&mut arena, &mut waiting, 1).expect(&rt, "memory");
    is(first.is_some(), true).expect(&rt, "the first");
    for value in [2, 3] {
        let later = insert_or_wait(&mut arena, &mut waiting, value).expect(&rt, "memory");
        is(later.is_none(), true).expect(&rt, "a later one");
    }
    is(waiting.as_slice(), [2, 3].as_slice()).expect(&rt, "those that wait");
}
