//! Each arena over each stack, from a file and to it.

ghost use Rattle.std.specs.Prelude.{◌≡◌, []};

use crate::tests::bad_files::{ARENA, DIRECT, STRICT};
use std::alloc::Global;
use std::process::Abort;
use std::test::*;
use triple_arena::{
    ArenaSlot, NonZeroInxArray, NonZeroInxBoxedSlice, NonZeroInxGenericStack, NonZeroInxLimitedVec,
    NonZeroInxVec, P3,
};
use triple_arena_direct_arena::DirectSlot;
use triple_arena_snapshot::{
    Fault, LoadError, load_arena, load_direct_arena, load_strict_arena, save_arena,
    save_direct_arena, save_strict_arena,
};
use triple_arena_test_kit::is;

type Slot = ArenaSlot<P3, u8>;

type Direct = DirectSlot<P3, u8>;

// What a save writes of the arena that is loaded over this stack, or of the strict arena.
fn arena_again<S: NonZeroInxGenericStack<Slot> + Drop>(
    stack: S,
    alloc: Global,
    is_strict: bool,
) -> Result<Vec<u8>, LoadError>
    requires { S.items stack ≡ [] }
{
    let mut written = Vec::new(alloc);
    let is_saved = if is_strict {
        let strict = load_strict_arena(stack, alloc, &mut &*STRICT)?;
        save_strict_arena(strict, alloc, &mut written).is_ok()
    } else {
        let arena = load_arena(stack, alloc, &mut &*ARENA)?;
        save_arena(&arena, alloc, &mut written).is_ok()
    };
    if is_saved {
        Ok(written)
    } else {
        Err(LoadError::Memory)
    }
}

// So of the direct arena.
fn direct_arena_again<S: NonZeroInxGenericStack<Direct> + Drop>(
    stack: S,
    alloc: Global,
) -> Result<Vec<u8>, LoadError>
    requires { S.items stack ≡ [] }
{
    let arena = load_direct_arena(stack, alloc, &mut &*DIRECT)?;
    let mut written = Vec::new(alloc);
    match save_direct_arena(&arena, alloc, &mut written) {
        Ok(()) => Ok(written),
        Err(_) => Err(LoadError::Memory),
    }
}

// That this is the file, whole.
fn is_file(rt: &impl Abort, written: Result<Vec<u8>, LoadError>, file: &[u8]) {
    let written = written.expect(rt, "the file");
    is(written.as_slice() == file, true).expect(rt, "the file of what was loaded");
}

// That an arena is loaded over each stack, or a strict one.
fn is_loaded_over_each_stack(rt: &impl Abort, alloc: Global, is_strict: bool) {
    let file = if is_strict { STRICT } else { ARENA };
    let on_heap: NonZeroInxVec<Slot> = NonZeroInxVec::new(alloc);
    is_file(rt, arena_again(on_heap, alloc, is_strict), file);
    let limited: NonZeroInxLimitedVec<Slot> = NonZeroInxLimitedVec::with_min_capacity(
        alloc, 3,
    ).expect(rt, "memory");
    is_file(rt, arena_again(limited, alloc, is_strict), file);
    let boxed: NonZeroInxBoxedSlice<Slot> = NonZeroInxBoxedSlice::with_min_capacity(
        alloc, 3,
    ).expect(rt, "memory");
    is_file(rt, arena_again(boxed, alloc, is_strict), file);
    let array: NonZeroInxArray<Slot, 3> = NonZeroInxArray::new(alloc);
    is_file(rt, arena_again(array, alloc, is_strict), file);
}

#[test]
fn an_arena_is_loaded_over_each_stack(rt: HostRuntime) {
    is_loaded_over_each_stack(&rt, rt.alloc(), false);
}

#[test]
fn a_strict_arena_is_loaded_over_each_stack(rt: HostRuntime) {
    is_loaded_over_each_stack(&rt, rt.alloc(), true);
}

#[test]
fn a_direct_arena_is_loaded_over_each_stack(rt: HostRuntime) {
    let alloc = rt.alloc();
    let on_heap: NonZeroInxVec<Direct> = NonZeroInxVec::new(alloc);
    is_file(&rt, direct_arena_again(on_heap, alloc), DIRECT);
    let limited: NonZeroInxLimitedVec<Direct> = NonZeroInxLimitedVec::with_min_capacity(
        alloc, 3,
    ).expect(&rt, "memory");
    is_file(&rt, direct_arena_again(limited, alloc), DIRECT);
    let boxed: NonZeroInxBoxedSlice<Direct> = NonZeroInxBoxedSlice::with_min_capacity(
        alloc, 3,
    ).expect(&rt, "memory");
    is_file(&rt, direct_arena_again(boxed, alloc), DIRECT);
    let array: NonZeroInxArray<Direct, 3> = NonZeroInxArray::new(alloc);
    is_file(&rt, direct_arena_again(array, alloc), DIRECT);
}

#[test]
fn what_does_not_fit_is_refused(rt: HostRuntime) {
    let alloc = rt.alloc();
    let wanted = Some(LoadError::Malformed(Fault::Slots, 36));
    let short: NonZeroInxArray<Slot, 2> = NonZeroInxArray::new(alloc);
    let refusal = load_arena(short, alloc, &mut &*ARENA).err();
    is(refusal, wanted).expect(&rt, "an array of two places");
    let short: NonZeroInxArray<Direct, 2> = NonZeroInxArray::new(alloc);
    let refusal = load_direct_arena(short, alloc, &mut &*DIRECT).err();
    is(refusal, wanted).expect(&rt, "an array of two places");
}
