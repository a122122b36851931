use triple_arena::arena_iterators::CapacityDrain;
use triple_arena::{Arena, ArenaInsertTrait, ArenaSlot, ArenaTrait};
use triple_arena_ptr::P0;
use triple_arena_stack::NonZeroInxVec;
use triple_arena_test_kit::is;
use triple_arena_uses::counting_stack::{CountingStack, counting_on};

type Slot = ArenaSlot<P0, u64>;

type Counted = Arena<P0, u64, CountingStack<Slot, NonZeroInxVec<Slot>>>;

// Of three insertions the last is where an entry was removed.
#[test]
fn an_arena_pushes_where_no_index_is_free(rt: HostRuntime) {
    let mut arena: Counted = Arena::new(rt.alloc());
    let first = arena.insert(7).expect(&rt, "memory");
    arena.insert(8).expect(&rt, "memory");
    drop(arena.remove(first));
    arena.insert(9).expect(&rt, "a place");
    let told = (arena.len(), arena.backing().pushes());
    is(told, (2, 2)).expect(&rt, "entries and pushes");
}

#[test]
fn an_arena_over_a_stack_that_was_made_before_counts_on(rt: HostRuntime) {
    let mut arena = counting_on::<P0, u64>(rt.alloc(), 40);
    arena.insert(7).expect(&rt, "memory");
    is(arena.backing().pushes(), 41).expect(&rt, "pushes before and since");
}

#[test]
fn a_loop_takes_each_value_out_of_an_arena_over_an_own_stack(rt: HostRuntime) {
    let mut arena: Counted = Arena::new(rt.alloc());
    for value in [1, 20, 300] {
        arena.insert(value).expect(&rt, "memory");
    }
    let mut sum = 0u64;
    for (_p, value) in CapacityDrain::over(arena) {
        sum = sum.wrapping_add(value);
    }
    is(sum, 321).expect(&rt, "the sum of the values");
}
