//! Arenas as bytes: the worked example of the format's page, bytes that are no arena, and arenas that
//! go on once they are loaded.

ghost use Rattle.std.specs.Prelude.{◌≡◌, []};

use std::alloc::Global;
use std::num::NonZeroU16;
use std::process::Abort;
use std::test::*;
use triple_arena::{
    Arena, ArenaSlot, NonZeroInxArray, NonZeroInxGenericStack, NonZeroInxLimitedVec, NonZeroInxVec,
    P0, P3, Q2,
};
use triple_arena_direct_arena::{DirectArena, DirectSlot};
use triple_arena_snapshot::{
    DecodeError, Fault, decode_arena, decode_direct_arena, encode_arena, encode_direct_arena,
    from_bytes, from_file_bytes, to_bytes, to_file_bytes,
};
use triple_arena_test_kit::is;

type Bytes = Arena<P3, u8>;

type Slot = ArenaSlot<P3, u8>;

type Cells = Arena<P0, (u64, Option<Q2>)>;

type Nets = Arena<Q2, (u64, Option<P0>)>;

/// An arena of three slots, of which the last has the value 9 under the generation 2; the counter is
/// 4, and the free indexes are 2 and then 1.
const ARENA: [u8; 49] = [
    0xff, 0xff, 0, 0, 0, 0, 0, 0, 2, 3, 0, 0, 0, 0, 0, 0, 0, 0, 0, 1, 2, 0, 9, 4, 0, 2, 0, 0, 0, 0,
    0, 0, 0, 2, 0, 0, 0, 0, 0, 0, 0, 1, 0, 0, 0, 0, 0, 0, 0,
];

#[test]
fn the_worked_example_is_written_and_read(rt: HostRuntime) {
    let alloc = rt.alloc();
    let mut arena: Bytes = Arena::on_heap(alloc);
    let first = arena.insert(7).expect(&rt, "memory");
    let second = arena.insert(8).expect(&rt, "memory");
    arena.insert(9).expect(&rt, "memory");
    drop(arena.remove(first));
    drop(arena.remove(second));
    let written = to_bytes(&arena, alloc).expect(&rt, "memory");
    is(written.as_slice() == ARENA.as_slice(), true).expect(&rt, "what is written");
    let read: Bytes = from_bytes(alloc, &ARENA).expect(&rt, "an arena");
    let again = to_bytes(&read, alloc).expect(&rt, "memory");
    is(again.as_slice() == ARENA.as_slice(), true).expect(&rt, "what is written of what was read");
}

/// A byte of it, another in its place, the fault, and how many bytes are left there.
const BAD: &[(usize, u8, Fault, usize)] = &[
    (0, 0xfe, Fault::Width, 49),
    (8, 8, Fault::Width, 41),
    (11, 1, Fault::Slots, 40),
    (17, 2, Fault::Flag, 32),
    (20, 0, Fault::Zero, 29),
    (23, 0, Fault::Zero, 26),
    (25, 1, Fault::FreeList, 24),
    (33, 1, Fault::FreeList, 24),
    (33, 3, Fault::FreeList, 24),
    (33, 4, Fault::FreeList, 24),
    (33, 0, Fault::Zero, 16),
    (41, 2, Fault::FreeList, 24),
];

#[test]
fn bytes_of_no_arena_are_refused(rt: HostRuntime) {
    let alloc = rt.alloc();
    for (at, byte, fault, left) in BAD {
        let mut bytes = ARENA;
        if let Some(place) = bytes.get_mut(*at) {
            *place = *byte;
        }
        let stack: NonZeroInxVec<Slot> = NonZeroInxVec::new(alloc);
        let refusal = decode_arena(stack, alloc, &bytes).err();
        let wanted = Some(DecodeError::Malformed(*fault, *left));
        is(refusal, wanted).expect(&rt, "the refusal");
    }
}

#[test]
fn a_loaded_arena_goes_on_as_the_saved_one(rt: HostRuntime) {
    let alloc = rt.alloc();
    let mut arena: Arena<P0, u64> = Arena::on_heap(alloc);
    let stale = arena.insert(10).expect(&rt, "memory");
    let kept = arena.insert(20).expect(&rt, "memory");
    drop(arena.remove(stale));
    let file = to_file_bytes(&arena, alloc).expect(&rt, "memory");
    let mut loaded: Arena<P0, u64> = from_file_bytes(alloc, &file).expect(&rt, "the file");
    is(loaded.get(kept).copied(), Some(20)).expect(&rt, "what was kept");
    is(loaded.contains(stale), false).expect(&rt, "what is gone");
    let next = arena.insert(30).expect(&rt, "memory");
    let same = loaded.insert(30).expect(&rt, "memory");
    is(same, next).expect(&rt, "the next pointer");
}

// That what is read over this stack is written as it was.
fn is_read_over<S: NonZeroInxGenericStack<Slot> + Drop>(rt: &impl Abort, alloc: Global, stack: S)
    requires { S.items stack ≡ [] }
{
    let (arena, _rest) = decode_arena(stack, alloc, &ARENA).expect(rt, "an arena");
    let mut bytes = Vec::new(alloc);
    encode_arena(&arena, &mut bytes).expect(rt, "memory");
    is(bytes.as_slice() == ARENA.as_slice(), true).expect(rt, "the bytes");
}

#[test]
fn an_arena_is_read_over_each_stack(rt: HostRuntime) {
    let alloc = rt.alloc();
    let limited: NonZeroInxLimitedVec<Slot> = NonZeroInxLimitedVec::with_min_capacity(
        alloc, 3,
    ).expect(&rt, "memory");
    is_read_over(&rt, alloc, limited);
    let array: NonZeroInxArray<Slot, 3> = NonZeroInxArray::new(alloc);
    is_read_over(&rt, alloc, array);
    let short: NonZeroInxLimitedVec<Slot> = NonZeroInxLimitedVec::with_min_capacity(
        alloc, 2,
    ).expect(&rt, "memory");
    let refusal = decode_arena(short, alloc, &ARENA).err();
    is(refusal, Some(DecodeError::Malformed(Fault::Slots, 40))).expect(&rt, "the refusal");
}

/// The direct arena of the same entry.
const DIRECT: [u8; 23] = [
    0xff, 0xff, 0, 0, 0, 0, 0, 0, 2, 3, 0, 0, 0, 0, 0, 0, 0, 0, 0, 1, 2, 0, 9,
];

#[test]
fn a_direct_arena_is_read_and_written(rt: HostRuntime) {
    let alloc = rt.alloc();
    let read: DirectArena<P3, u8> = from_bytes(alloc, &DIRECT).expect(&rt, "an arena");
    is(read.len(), 1).expect(&rt, "the length");
    let written = to_bytes(&read, alloc).expect(&rt, "memory");
    is(written.as_slice() == DIRECT.as_slice(), true).expect(&rt, "what is written");
    let array: NonZeroInxArray<DirectSlot<P3, u8>, 3> = NonZeroInxArray::new(alloc);
    let (over_array, _rest) = decode_direct_arena(array, alloc, &DIRECT).expect(&rt, "an arena");
    let mut bytes = Vec::new(alloc);
    encode_direct_arena(&over_array, &mut bytes).expect(&rt, "memory");
    is(bytes.as_slice() == DIRECT.as_slice(), true).expect(&rt, "what is written over an array");
}

#[test]
fn two_arenas_that_point_at_each_other_are_one_file(rt: HostRuntime) {
    let alloc = rt.alloc();
    let mut cells: Cells = Arena::on_heap(alloc);
    let mut nets: Nets = Arena::on_heap(alloc);
    let cell = cells.insert((1, None)).expect(&rt, "memory");
    let net = nets.insert((2, Some(cell))).expect(&rt, "memory");
    if let Some(value) = cells.get_mut(cell) {
        value.1 = Some(net);
    }
    let file = to_file_bytes(&(cells, nets), alloc).expect(&rt, "memory");
    let read: (Cells, Nets) = from_file_bytes(alloc, &file).expect(&rt, "the file");
    is(read.0.get(cell).copied(), Some((1, Some(net)))).expect(&rt, "the cell");
    is(read.1.get(net).copied(), Some((2, Some(cell)))).expect(&rt, "the net");
}

#[test]
fn a_counter_at_its_end_is_loaded_so(rt: HostRuntime) {
    let alloc = rt.alloc();
    let mut arena: Bytes = Arena::on_heap(alloc);
    arena.set_generation(NonZeroU16::MAX);
    let last = arena.insert(1).expect(&rt, "memory");
    let bytes = to_bytes(&arena, alloc).expect(&rt, "memory");
    let mut read: Bytes = from_bytes(alloc, &bytes).expect(&rt, "an arena");
    is(read.generation(), NonZeroU16::MAX).expect(&rt, "the counter");
    is(read.remove(last), arena.remove(last)).expect(&rt, "the last removal");
}
