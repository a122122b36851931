use triple_arena_direct_uses::first_compaction::first_compaction;
use triple_arena_test_kit::is;
use triple_arena_uses::first_arena::first_arena;

#[test]
fn memory_is_there(rt: HostRuntime) {
    first_arena(rt.alloc()).expect(&rt, "memory");
    is(first_compaction(rt.alloc()), Ok(Some(20))).expect(&rt, "what the third leads to");
}
