use std::alloc::Global;
use std::process::Abort;
use triple_arena::Arena;
use triple_arena_ptr::P0;

/// An arena of values that are numbers.
pub type Values = Arena<P0, u64>;

/// The second and the fourth of four values, at the indexes 2 and 4, with free slots before each, and the counter 4.
pub fn second_and_fourth(rt: &impl Abort, alloc: Global, values: [u64; 4]) -> Values {
    let mut arena = Arena::on_heap(alloc);
    let [first, second, third, fourth] = values;
    let first = arena.insert(first).expect(rt, "memory");
    arena.insert(second).expect(rt, "memory");
    let third = arena.insert(third).expect(rt, "memory");
    arena.insert(fourth).expect(rt, "memory");
    drop(arena.remove(first));
    drop(arena.remove(third));
    arena
}
