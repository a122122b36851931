//! A client of the stacks as an arena is one: proved over the contract alone, for every stack.
ghost use Rattle.std.specs.Prelude.{◌≡◌, ◌≢◌, ◌+◌, ◌-◌, ◌<◌, ◌≤◌, ◌↔◌, List, [], ◌∷◌, ◌++◌, length, take, slice_get, slice_set, IsOk, IsSome, IfOk, IfSome, OnOk, OnErr, OnSome, Some, None, Err, IsTrue, true, false, max};
ghost use Rattle.std.specs.Borrow.{sem, LendsIf, LendsSo};
ghost use Rattle.std.specs.Int.NonZero.{non_zero_usize_get};
ghost use Rattle.triple_arena_stack.specs.Capacity.{stack_capacity, room_for_one_more, IsAtLimit, IsBeyond, IsWithin};
ghost use Rattle.triple_arena_stack.specs.StackKind.{IsOfKind, new_room, new_limit, made_room, made_limit, reallocated_room};
ghost use Rattle.triple_arena_stack.specs.Disjoint.{DisjointAnswer, set_both};

use std::alloc::Global;
use std::mem;
use std::num::NonZeroUsize;
use triple_arena_base::{
    AllocError, GetDisjointMutError, NotWithinCapacityError, ReallocationError,
};
use triple_arena_stack::{NonZeroInxGenericStack, NonZeroInxVec};
use triple_arena_test_kit::is;

/// A slot as an arena has it: free, with the next free slot, or holding a value.
#[derive(Drop)]
pub enum Slot<T> {
    Free(usize),
    Full(T),
}

impl<T> Default for Slot<T> {
    fn default() -> Self {
        Slot::Free(0)
    }
}

impl<T> Slot<T> {
    ghost use Rattle.triple_arena_ptr_stack_tests.specs.contracts.tests.stack.client.Slot.{the_row};

    /// The value, for writing.
    fn value_mut(&mut self) -> Option<&mut T>
        ensures value { IfSome result (λ value. self.old ≡ Slot.Full value.now) }
        ensures* writes_back { sem 𝓛
            (LendsIf (the_row T.row) T.row self.entry result Slot.Full self.old) }
    {
        match self {
            Slot::Full(value) => Some(value),
            Slot::Free(_) => None,
        }
    }
}

/// Pushes a full slot where the capacity has a place for it.
pub fn put<T: Drop, S: NonZeroInxGenericStack<Slot<T>>>(
    slots: &mut S,
    value: T,
) -> Result<NonZeroUsize, NotWithinCapacityError>
    ensures variant { IsOk result
        ↔ (length (S.items slots.old) < stack_capacity (S.room slots.old) (S.limit slots.old)) }
    ensures index { IfOk result (λ inx. non_zero_usize_get inx ≡ length (S.items slots.old) + 1) }
    ensures items { OnOk result (S.items slots.new ≡ S.items slots.old ++ Slot.Full value ∷ []) }
    ensures room { S.room slots.new ≡ S.room slots.old }
    ensures limit { S.limit slots.new ≡ S.limit slots.old }
    ensures refused { OnErr result (slots.new ≡ slots.old) }
{
    slots.push_within_capacity(Slot::Full(value))
}

/// Pushes a slot that must have a place, and then writes over it.
pub fn put_over<T: Drop, S: NonZeroInxGenericStack<Slot<T>>>(
    slots: &mut S,
    value: T,
    next: usize,
) -> NonZeroUsize
    requires { length (S.items slots.old) < stack_capacity (S.room slots.old) (S.limit slots.old) }
    ensures index { non_zero_usize_get result ≡ length (S.items slots.old) + 1 }
    ensures items { S.items slots.new ≡ S.items slots.old ++ Slot.Free next ∷ [] }
    ensures room { S.room slots.new ≡ S.room slots.old }
{
    let (inx, slot) = slots.push_reserved(Slot::Full(value));
    *slot = Slot::Free(next);
    inx
}

/// Pushes a slot; full slots grow first.
pub fn put_growing<T: Drop, S: NonZeroInxGenericStack<Slot<T>>>(
    slots: &mut S,
    value: T,
) -> Result<NonZeroUsize, ReallocationError>
    ensures items { OnOk result (S.items slots.new ≡ S.items slots.old ++ Slot.Full value ∷ []) }
    ensures room { OnOk result (S.room slots.new
        ≡ room_for_one_more (S.room slots.old) (S.limit slots.old) (length (S.items slots.old))) }
    ensures refused { OnErr result (slots.new ≡ slots.old) }
    ensures had_room { length (S.items slots.old)
        < stack_capacity (S.room slots.old) (S.limit slots.old) → IsOk result }
{
    slots.push(Slot::Full(value))
}

/// Frees the slot at `inx`.
#[tactic(auto, using(crate::proofs::ClientLemmas::set_absent))]
pub fn free<T: Drop, S: NonZeroInxGenericStack<Slot<T>>>(
    slots: &mut S,
    inx: NonZeroUsize,
    next: usize,
)
    ensures items { S.items slots.new
        ≡ slice_set (S.items slots.old) (non_zero_usize_get inx - 1) (Slot.Free next) }
    ensures room { S.room slots.new ≡ S.room slots.old }
    ensures limit { S.limit slots.new ≡ S.limit slots.old }
{
    if let Some(slot) = slots.get_mut(inx) {
        *slot = Slot::Free(next);
    }
}

/// Frees the slot at `inx`, and gives the value that it held.
#[tactic(auto, using(crate::proofs::ClientLemmas::set_absent))]
pub fn take_value<T: Drop, S: NonZeroInxGenericStack<Slot<T>>>(
    slots: &mut S,
    inx: NonZeroUsize,
    next: usize,
) -> Option<T>
    ensures value { IfSome result (λ value.
        slice_get (S.items slots.old) (non_zero_usize_get inx - 1) ≡ Some (Slot.Full value)) }
    ensures items { S.items slots.new
        ≡ slice_set (S.items slots.old) (non_zero_usize_get inx - 1) (Slot.Free next) }
    ensures room { S.room slots.new ≡ S.room slots.old }
    ensures limit { S.limit slots.new ≡ S.limit slots.old }
{
    if let Some(slot) = slots.get_mut(inx) {
        match mem::replace(slot, Slot::Free(next)) {
            Slot::Full(value) => Some(value),
            Slot::Free(_) => None,
        }
    } else {
        None
    }
}

/// Exchanges two slots.
pub fn exchange<T, S: NonZeroInxGenericStack<Slot<T>>>(
    slots: &mut S,
    first: NonZeroUsize,
    second: NonZeroUsize,
) -> Result<(), GetDisjointMutError>
    ensures variant { DisjointAnswer (length (S.items slots.old))
        (non_zero_usize_get first) (non_zero_usize_get second) result }
    ensures items { (x y : Slot T)
        → slice_get (S.items slots.old) (non_zero_usize_get first - 1) ≡ Some x
        → slice_get (S.items slots.old) (non_zero_usize_get second - 1) ≡ Some y
        → OnOk result (S.items slots.new ≡ set_both (S.items slots.old)
        (non_zero_usize_get first - 1) (non_zero_usize_get second - 1) y x) }
    ensures refused { OnErr result (slots.new ≡ slots.old) }
    ensures room { S.room slots.new ≡ S.room slots.old }
{
    slots.with_disjoint_mut(first, second, |a, b| mem::swap(a, b))
}

/// Takes the last slot away.
pub fn take_last<T, S: NonZeroInxGenericStack<Slot<T>>>(slots: &mut S) -> Option<Slot<T>>
    ensures value { result ≡ slice_get (S.items slots.old) (length (S.items slots.old) - 1) }
    ensures items { S.items slots.new ≡ take (length (S.items slots.old) - 1) (S.items slots.old) }
    ensures room { S.room slots.new ≡ S.room slots.old }
    ensures limit { S.limit slots.new ≡ S.limit slots.old }
{
    slots.pop()
}

/// Drops all slots.
pub fn empty<T: Drop, S: NonZeroInxGenericStack<Slot<T>>>(slots: &mut S)
    ensures items { S.items slots.new ≡ [] }
    ensures room { S.room slots.new ≡ S.room slots.old }
    ensures limit { S.limit slots.new ≡ S.limit slots.old }
{
    slots.clear();
}

/// An empty stack of slots with room for `min_capacity`, or else without any.
pub fn made<T, S: NonZeroInxGenericStack<Slot<T>> + Drop>(alloc: Global, min_capacity: usize) -> S
    ensures items { S.items result ≡ [] }
    ensures room { S.room result ≤ max (made_room S.kind min_capacity) (new_room S.kind) }
{
    match S::with_min_capacity(alloc, min_capacity) {
        Ok(slots) => slots,
        Err(_) => S::new(alloc),
    }
}

/// Makes room for `min_capacity` slots, and tells the capacity.
pub fn reserve<T, S: NonZeroInxGenericStack<Slot<T>>>(
    slots: &mut S,
    min_capacity: usize,
) -> Result<usize, ReallocationError>
    ensures items { S.items slots.new ≡ S.items slots.old }
    ensures limit { S.limit slots.new ≡ S.limit slots.old }
    ensures capacity { IfOk result (λ capacity. capacity ≡ stack_capacity
        (reallocated_room S.kind (S.room slots.old) (length (S.items slots.old)) min_capacity)
        (S.limit slots.old)) }
    ensures refused { OnErr result (slots.new ≡ slots.old) }
    ensures beyond { (result ≡ Err ReallocationError.BeyondMaxCapacity)
        ↔ IsBeyond (S.limit slots.old) min_capacity }
{
    match slots.reallocate_min_capacity(min_capacity) {
        Ok(()) => Ok(slots.capacity()),
        Err(refusal) => Err(refusal),
    }
}

/// Whether the slots have reached their limit; a stack without one is on the heap.
pub fn is_at_limit<T, S: NonZeroInxGenericStack<Slot<T>>>(slots: &S) -> bool
    ensures value { IsTrue result
        ↔ IsAtLimit (S.limit slots.now) (stack_capacity (S.room slots.now) (S.limit slots.now)) }
    ensures of_kind { IsOfKind S.kind (S.room slots.now) (S.limit slots.now) }
    ensures within { length (S.items slots.now)
        ≤ stack_capacity (S.room slots.now) (S.limit slots.now) }
{
    let capacity = slots.capacity();
    match slots.max_capacity() {
        Some(most) => most <= capacity,
        None => false,
    }
}

/// The slots, as an arena holds them.
#[derive(Drop)]
pub struct Holding<S> {
    pub slots: S,
}

impl<S> Holding<S> {
    ghost use Rattle.triple_arena_ptr_stack_tests.specs.contracts.tests.stack.client.Holding.{the_row};

    /// The value in the slot at `inx`, for writing.
    pub fn value_mut<T>(&mut self, inx: NonZeroUsize) -> Option<&mut T>
    where
        S: NonZeroInxGenericStack<Slot<T>>,
        ensures* writes_back { sem 𝓛 (LendsSo (the_row S.row) T.row self.entry result
            (λ end w. OnSome result (end ≡ record self.old {
              slots = S.with_items self.old.slots
                  (slice_set (S.items self.old.slots) (non_zero_usize_get inx - 1) (Slot.Full w));
            }))
            (λ end. end ≡ self.old)) }
    {
        match self.slots.get_mut(inx) {
            Some(slot) => slot.value_mut(),
            None => None,
        }
    }
}

/// Writes a value over the one in the slot at `inx`, if there is one.
pub fn overwrite<T: Drop, S: NonZeroInxGenericStack<Slot<T>>>(
    holding: &mut Holding<S>,
    inx: NonZeroUsize,
    value: T,
) -> bool
    ensures items { IsTrue result → S.items holding.new.slots
        ≡ slice_set (S.items holding.old.slots) (non_zero_usize_get inx - 1) (Slot.Full value) }
    ensures room { S.room holding.new.slots ≡ S.room holding.old.slots }
    ensures refused { result ≡ false → holding.new ≡ holding.old }
{
    match holding.value_mut(inx) {
        Some(held) => {
            *held = value;
            true
        }
        None => false,
    }
}

const ONE: NonZeroUsize = NonZeroUsize::MIN;

// Writes over a value, and takes it.
fn overwritten<S: NonZeroInxGenericStack<Slot<u64>>>(holding: &mut Holding<S>) -> Option<u64> {
    let _ = put(&mut holding.slots, 6);
    let _ = overwrite(holding, ONE, 7);
    take_value(&mut holding.slots, ONE, 0)
}

// Pushes a second slot, and takes it, after it was exchanged with the first; its place is taken again then. What the
// push told, and the slot that was taken.
fn taken<S: NonZeroInxGenericStack<Slot<u64>>>(
    slots: &mut S,
) -> (Result<NonZeroUsize, ReallocationError>, Option<Slot<u64>>) {
    let pushed = put_growing(slots, 8);
    let _ = exchange(slots, ONE, ONE.saturating_add(1));
    free(slots, ONE, 3);
    let taken = take_last(slots);
    if slots.len() < slots.capacity() {
        put_over(slots, 9, 4);
    }
    (pushed, taken)
}

// Takes all slots, and tells the capacity then, and whether it has reached the limit.
fn emptied<S: NonZeroInxGenericStack<Slot<u64>>>(
    slots: &mut S,
) -> (Result<usize, ReallocationError>, bool) {
    empty(slots);
    (reserve(slots, 2), is_at_limit(slots))
}

#[test]
fn each_call_of_the_client(rt: HostRuntime) {
    let slots: NonZeroInxVec<Slot<u64>> = made(rt.alloc(), 2);
    let mut holding = Holding { slots };
    is(overwritten(&mut holding), Some(7)).expect(&rt, "the value that was written");
    let (pushed, last) = taken(&mut holding.slots);
    is(pushed, Ok(ONE.saturating_add(1))).expect(&rt, "the index of the second slot");
    is(matches!(last, Some(Slot::Free(0))), true).expect(&rt, "the slot that was taken");
    is(emptied(&mut holding.slots), (Ok(2), false)).expect(&rt, "the capacity, and no limit");
}
