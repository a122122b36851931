use std::num::NonZeroU32;
use triple_arena::{Arena, ArenaSlot};
use triple_arena_ptr::{P0, Ptr, PtrGen, SmallPtr};
use triple_arena_test_kit::is;

// It is what the first insertion gives, and no invalid one. An entry comes where another was removed.
#[test]
fn names_an_entry(rt: HostRuntime) {
    let mut arena: Arena<SmallPtr, u64> = Arena::on_heap(rt.alloc());
    let first = arena.insert(7).expect(&rt, "memory");
    let wanted = SmallPtr::_from_raw(NonZeroU32::MIN, PtrGen::two());
    is(first, wanted).expect(&rt, "the first pointer");
    let found = [
        arena.get(first).copied(),
        arena.get(SmallPtr::invalid()).copied(),
    ];
    is(found, [Some(7), None]).expect(&rt, "the first entry");
    arena.insert(8).expect(&rt, "memory");
    drop(arena.remove(first));
    arena.insert(9).expect(&rt, "a place");
}

#[test]
fn is_written_with_its_name(rt: HostRuntime) {
    let first = SmallPtr::_from_raw(NonZeroU32::MIN, PtrGen::two());
    let texts = format!(in rt.alloc(); "{first} {:?}", SmallPtr::default()).expect(&rt, "memory");
    is(texts.as_str(), "SmallPtr[1](2) SmallPtr[ffffffff](1)").expect(&rt, "both texts");
}

#[test]
fn a_slot_of_a_number_takes_16_bytes_and_24_under_p0(rt: HostRuntime) {
    let sizes = [
        size_of::<ArenaSlot<SmallPtr, u64>>(),
        size_of::<ArenaSlot<P0, u64>>(),
    ];
    is(sizes, [16, 24]).expect(&rt, "sizes of slots");
}
