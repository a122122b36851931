//! Insertion entries of an arena, of which one is let go, and one has another value written over its own.

ghost use Rattle.std.specs.Prelude.{◌≡◌, IfOk, OnOk, OnErr};
ghost use Rattle.triple_arena_traits.specs.Insertion.{inserted, next_pointer};
ghost use Rattle.triple_arena_traits.specs.Reallocation.{grown};
ghost use Rattle.triple_arena_traits.specs.SlotSteps.{touched, insertion_steps};

use crate::tests::arenas::Numbers;
use triple_arena::{Arena, ArenaInsertEntryTrait, ArenaSlot};
use triple_arena_base::{NotWithinCapacityError, ReallocationError};
use triple_arena_ptr::Ptr;
use triple_arena_stack::NonZeroInxGenericStack;
use triple_arena_test_kit::{is, pointer};

/// Takes an entry of any arena and lets it go: nothing is inserted, and its room stays.
pub fn pointer_of_entry<P: Ptr, T, S: NonZeroInxGenericStack<ArenaSlot<P, T>>>(
    arena: &mut Arena<P, T, S>,
) -> Result<P, ReallocationError>
    ensures pointer { IfOk result (λ p. P.numbers p ≡ next_pointer (grown S.kind arena.old)) }
    ensures grown { OnOk result (arena.new ≡ grown S.kind arena.old) }
    ensures refused { OnErr result (arena.new ≡ arena.old) }
{
    match arena.entry_insert() {
        Ok(entry) => Ok(entry.ptr()),
        Err(refused) => Err(refused),
    }
}

/// Inserts `first` within the capacity by an entry, and writes `second` over it.
pub fn insert_and_write<P: Ptr, T: Drop, S: NonZeroInxGenericStack<ArenaSlot<P, T>>>(
    arena: &mut Arena<P, T, S>,
    first: T,
    second: T,
) -> Result<(), NotWithinCapacityError>
    ensures inserted { OnOk result
        (arena.new ≡ touched (insertion_steps arena.old) (inserted arena.old second)) }
    ensures refused { OnErr result (arena.new ≡ arena.old) }
{
    let entry = arena.entry_insert_within_capacity()?;
    *entry.insert(first) = second;
    Ok(())
}

// An entry that is let go leaves the room that it made, and one that is filled its pointer.
#[test]
fn a_dropped_entry_leaves_its_room(rt: HostRuntime) {
    let mut arena: Numbers = Arena::on_heap(rt.alloc());
    for _ in 0..2 {
        is(pointer_of_entry(&mut arena), Ok(pointer(1, 2))).expect(&rt, "the pointer of the entry");
        is(arena.is_empty(), true).expect(&rt, "whether there is no entry");
        is(arena.capacity(), 4).expect(&rt, "the capacity");
        is(arena.backing().len(), 0).expect(&rt, "how many slots there are");
    }
    insert_and_write(&mut arena, 0, 1).expect(&rt, "a place");
    is(arena.get(pointer(1, 2)).copied(), Some(1)).expect(&rt, "the value");
}
