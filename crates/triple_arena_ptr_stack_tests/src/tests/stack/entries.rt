//! Callers by push entries, over any stack, and the name of each stack's entry.

ghost use Rattle.std.specs.Prelude.{◌≡◌, ◌+◌, [], ◌∷◌, ◌++◌, length, IfOk, OnOk, OnErr};
ghost use Rattle.std.specs.Int.NonZero.{non_zero_usize_get};
ghost use Rattle.triple_arena_stack.specs.Capacity.{room_for_one_more};

use std::num::NonZeroUsize;
use triple_arena_base::{NotWithinCapacityError, ReallocationError};
use triple_arena_stack::{
    ArrayStack, FixedStack, HeapStack, LimitedStack, NonZeroInxArrayPushEntry,
    NonZeroInxBoxedSlicePushEntry, NonZeroInxGenericStack, NonZeroInxGenericStackPushEntryTrait,
    NonZeroInxLimitedVecPushEntry, NonZeroInxStack, NonZeroInxVecPushEntry, PushEntry,
};
use triple_arena_test_kit::is;

// Takes an entry of any stack and lets it go: nothing is pushed, and its room stays.
fn index_of_entry<T, K: NonZeroInxGenericStack<T>>(
    stack: &mut NonZeroInxStack<T, K>,
) -> Result<NonZeroUsize, ReallocationError>
    ensures index { IfOk result (λ inx. non_zero_usize_get inx ≡ length (K.items stack.old) + 1) }
    ensures items { K.items stack.new ≡ K.items stack.old }
    ensures room { OnOk result (K.room stack.new
        ≡ room_for_one_more (K.room stack.old) (K.limit stack.old) (length (K.items stack.old))) }
    ensures refused { OnErr result (stack.new ≡ stack.old) }
{
    let entry = stack.entry_push()?;
    Ok(entry.inx())
}

// Pushes `first` where there is a place for it, and writes `second` over it.
fn push_and_write<T: Drop, K: NonZeroInxGenericStack<T>>(
    stack: &mut NonZeroInxStack<T, K>,
    first: T,
    second: T,
) -> Result<(), NotWithinCapacityError>
    ensures pushed { OnOk result
        (stack.new ≡ K.with_items stack.old (K.items stack.old ++ second ∷ [])) }
    ensures refused { OnErr result (stack.new ≡ stack.old) }
{
    let entry = stack.entry_push_within_capacity()?;
    *entry.push(first) = second;
    Ok(())
}

#[test]
fn a_dropped_entry_leaves_its_room(rt: HostRuntime) {
    let mut stack: NonZeroInxStack<u64, HeapStack<u64>> = NonZeroInxStack::new(rt.alloc());
    is(index_of_entry(&mut stack), Ok(NonZeroUsize::MIN)).expect(&rt, "the index of an entry");
    is(stack.is_empty(), true).expect(&rt, "no item");
    is(stack.capacity(), 4).expect(&rt, "the room of the entry");
    is(push_and_write(&mut stack, 9, 1).is_ok(), true).expect(&rt, "a push by an entry");
    is(stack.as_slice(), [1].as_slice()).expect(&rt, "the items");
}

// The entry of each stack has a name of its own: this function is there to be typed.
fn of_each_stack<'a>(
    heap: NonZeroInxVecPushEntry<'a, u64>,
    limited: NonZeroInxLimitedVecPushEntry<'a, u64>,
    fixed: NonZeroInxBoxedSlicePushEntry<'a, u64>,
    array: NonZeroInxArrayPushEntry<'a, u64, 1>,
) -> (
    PushEntry<'a, u64, HeapStack<u64>>,
    PushEntry<'a, u64, LimitedStack<u64>>,
    PushEntry<'a, u64, FixedStack<u64>>,
    PushEntry<'a, u64, ArrayStack<u64, 1>>,
) {
    (heap, limited, fixed, array)
}
