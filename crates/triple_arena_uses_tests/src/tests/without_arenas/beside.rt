use std::num::NonZeroUsize;
use triple_arena_ptr::{P0, P5, Ptr, PtrGen};
use triple_arena_test_kit::is;
use triple_arena_uses::beside::item_beside;

// What a list of two items holds for a pointer.
fn of_two<P: Ptr>(p: P) -> Option<u8> {
    item_beside(&[7, 8], p).copied()
}

#[test]
fn items_go_by_index(rt: HostRuntime) {
    let first = P0::_from_raw(NonZeroUsize::MIN, PtrGen::two());
    let told = [of_two(first), of_two(P0::invalid()), of_two(P5::invalid())];
    is(told, [Some(7), None, None]).expect(&rt, "items by index");
}
