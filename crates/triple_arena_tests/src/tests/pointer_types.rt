//! Arenas on each type of pointers.

use crate::tests::arenas::has_text;
use std::alloc::Global;
use std::process::Abort;
use triple_arena::Arena;
use triple_arena_ptr::{P0, P1, P2, P3, P4, P5, Ptr, PtrNoGen, Q2};
use triple_arena_test_kit::{B, Narrow, Wide, is};

// A few calls of an arena on pointers of a type, and its text then.
fn serves<P: Ptr>(rt: &impl Abort, alloc: Global, text: &str) {
    let mut arena: Arena<P, u64> = Arena::on_heap(alloc);
    let first = arena.insert(1).expect(rt, "memory");
    let second = arena.insert(2).expect(rt, "memory");
    is(arena.remove(first).is_success(), true).expect(rt, "whether the first is removed");
    is(arena.contains(second), true).expect(rt, "whether the second stays");
    arena.insert(3).expect(rt, "memory");
    arena.reallocate_min_capacity(9).expect(rt, "memory");
    is(arena.len(), 2).expect(rt, "the length");
    is(arena.capacity(), 9).expect(rt, "the capacity");
    has_text(alloc, &arena, text).expect(rt, "the arena");
    let mut copy = arena.clone(alloc).expect(rt, "memory");
    drop(copy.compress(true));
    is(copy.len(), 2).expect(rt, "the length of the clone");
    is(copy.contains(second), true).expect(rt, "whether the clone has the second");
    is(copy.clear().is_success(), true).expect(rt, "whether the clone is cleared");
}

#[test]
fn an_arena_on_each_type_of_pointers(rt: HostRuntime) {
    let alloc = rt.alloc();
    serves::<P0>(&rt, alloc, "{P0[1](3): 3, P0[2](2): 2}");
    serves::<P1>(&rt, alloc, "{P1[1](3): 3, P1[2](2): 2}");
    serves::<P2>(&rt, alloc, "{P2[1](3): 3, P2[2](2): 2}");
    serves::<P3>(&rt, alloc, "{P3[1](3): 3, P3[2](2): 2}");
    serves::<P4>(&rt, alloc, "{P4[1]: 3, P4[2]: 2}");
    serves::<P5>(&rt, alloc, "{P5[1]: 3, P5[2]: 2}");
    serves::<Q2>(&rt, alloc, "{Q2[1](3): 3, Q2[2](2): 2}");
    serves::<PtrNoGen<P0>>(&rt, alloc, "{P0[1]: 3, P0[2]: 2}");
    serves::<B>(&rt, alloc, "{B[1](3): 3, B[2](2): 2}");
    serves::<Narrow>(&rt, alloc, "{PtrOf[1](3): 3, PtrOf[2](2): 2}");
    serves::<Wide>(&rt, alloc, "{PtrOf[1](3): 3, PtrOf[2](2): 2}");
}
