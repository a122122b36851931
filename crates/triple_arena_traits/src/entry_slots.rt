//! What code over the slots of any arena does.

ghost use Rattle.std.specs.Prelude.{◌≡◌, ◌≢◌, ◌<◌, ◌≤◌, ◌⊎◌, ℕ, true, false, None, Some, IsSome, MatchOption, map, length, take, option_copied};
ghost use Rattle.std.specs.Int.NonZero.{non_zero_usize_get};
ghost use Rattle.triple_arena_ptr.specs.Numbers.{greatest_index};
ghost use Rattle.triple_arena_stack.specs.Capacity.{stack_capacity};
ghost use Rattle.triple_arena_stack.specs.Disjoint.{MayWork, Worked};
ghost use Rattle.triple_arena_traits.specs.Items.{item, with_item};
ghost use Rattle.triple_arena_traits.specs.Entries.{entry_in, entry_count};
ghost use Rattle.triple_arena_traits.specs.ArenaState.{is_free};
ghost use Rattle.triple_arena_traits.specs.DisjointEntries.{value_of};
ghost use Rattle.triple_arena_traits.specs.SlotPairs.{WritesTwo};
ghost use Rattle.triple_arena_traits.specs.FreeEnd.{shortened, extended};

use crate::entry_slot::EntrySlot;
use crate::pair_call::PairCall;
use std::mem;
use std::num::NonZeroUsize;
use triple_arena_ptr::{Ptr, PtrInx};
use triple_arena_stack::{NonZeroInxGenericStack, pair_of};

/// The slot of an index, if there is one.
pub fn slot_at<X, S: NonZeroInxGenericStack<X>>(stack: &S, inx: NonZeroUsize) -> Option<&X>
    ensures { option_copied result ≡ item (S.items stack.now) (non_zero_usize_get inx) }
{
    stack.get(inx)
}

/// Puts a slot in the place of the one at an index, which it gives.
pub fn replace<X, S: NonZeroInxGenericStack<X>>(stack: &mut S, inx: NonZeroUsize, x: X) -> X
    requires { IsSome (item (S.items stack.old) (non_zero_usize_get inx)) }
    ensures value { item (S.items stack.old) (non_zero_usize_get inx) ≡ Some result }
    ensures stack { stack.new ≡ S.with_items stack.old
        (with_item (S.items stack.old) (non_zero_usize_get inx) x) }
{
    let slot = stack.get_mut(inx).unwrap();
    mem::replace(slot, x)
}

/// How many entries there are. It looks at each slot.
pub fn count_live<P: Ptr, T, X: EntrySlot<P, T>, S: NonZeroInxGenericStack<X>>(stack: &S) -> usize
    ensures { result ≡ entry_count (map X.entry (S.items stack.now)) }
{
    let mut count = 0;
    'count: for slot in stack.as_slice() {
        if slot.is_live() {
            count += 1;
        }
    }
    count
}

/// Pushes slots without an entry, so that there are at least this many. It takes no memory.
pub fn extend<P: Ptr, T, X: EntrySlot<P, T>, S: NonZeroInxGenericStack<X>>(
    stack: &mut S,
    len: usize,
)
    requires { len ≤ stack_capacity (S.room stack.old) (S.limit stack.old) }
    ensures slots { map X.entry (S.items stack.new)
        ≡ extended (map X.entry (S.items stack.old)) len }
    ensures kept { take (length (S.items stack.old)) (S.items stack.new) ≡ S.items stack.old }
    ensures room { S.room stack.new ≡ S.room stack.old }
    ensures limit { S.limit stack.new ≡ S.limit stack.old }
{
    'gap: while stack.len() < len {
        stack.push_reserved(X::vacant());
    }
}

/// The least index of an entry at or above this one, if there is one.
#[inline(always)]
pub fn live_from<P: Ptr, T, X: EntrySlot<P, T>, S: NonZeroInxGenericStack<X>>(
    stack: &S,
    from: NonZeroUsize,
) -> Option<NonZeroUsize>
    ensures { MatchOption result
        ((i : ℕ) → non_zero_usize_get from ≤ i
        → entry_in (map X.entry (S.items stack.now)) i ≡ None)
        (λ inx. IsSome (entry_in (map X.entry (S.items stack.now)) (non_zero_usize_get inx))
        × (non_zero_usize_get from ≤ non_zero_usize_get inx)
        × ((i : ℕ) → non_zero_usize_get from ≤ i → i < non_zero_usize_get inx
        → entry_in (map X.entry (S.items stack.now)) i ≡ None)) }
{
    let slots = stack.as_slice();
    let mut at = from.get() - 1;
    // Mostly an entry stands right here, and then no loop begins.
    if at < slots.len() && slots[at].is_live() {
        return Some(from);
    }
    'up: while at < slots.len() {
        if slots[at].is_live() {
            return Some(NonZeroUsize::MIN.saturating_add(at));
        }
        at += 1;
    }
    None
}

/// The greatest index of an entry at or below this one, if there is one.
pub fn live_to<P: Ptr, T, X: EntrySlot<P, T>, S: NonZeroInxGenericStack<X>>(
    stack: &S,
    to: NonZeroUsize,
) -> Option<NonZeroUsize>
    ensures { MatchOption result
        ((i : ℕ) → i ≤ non_zero_usize_get to
        → entry_in (map X.entry (S.items stack.now)) i ≡ None)
        (λ inx. IsSome (entry_in (map X.entry (S.items stack.now)) (non_zero_usize_get inx))
        × (non_zero_usize_get inx ≤ non_zero_usize_get to)
        × ((i : ℕ) → i ≤ non_zero_usize_get to → non_zero_usize_get inx < i
        → entry_in (map X.entry (S.items stack.now)) i ≡ None)) }
{
    let slots = stack.as_slice();
    let mut at = slots.len().min(to.get());
    'down: while at > 0 {
        at -= 1;
        if slots[at].is_live() {
            return Some(NonZeroUsize::MIN.saturating_add(at));
        }
    }
    None
}

/// The least index of an entry, if there is one.
pub fn first_live<P: Ptr, T, X: EntrySlot<P, T>, S: NonZeroInxGenericStack<X>>(
    stack: &S,
) -> Option<NonZeroUsize>
    ensures { MatchOption result
        ((i : ℕ) → entry_in (map X.entry (S.items stack.now)) i ≡ None)
        (λ inx. IsSome (entry_in (map X.entry (S.items stack.now)) (non_zero_usize_get inx))
        × ((i : ℕ) → i < non_zero_usize_get inx
        → entry_in (map X.entry (S.items stack.now)) i ≡ None)) }
{
    live_from::<P, T, X, S>(stack, NonZeroUsize::MIN)
}

/// The greatest index of an entry, if there is one.
pub fn last_live<P: Ptr, T, X: EntrySlot<P, T>, S: NonZeroInxGenericStack<X>>(
    stack: &S,
) -> Option<NonZeroUsize>
    ensures { MatchOption result
        ((i : ℕ) → entry_in (map X.entry (S.items stack.now)) i ≡ None)
        (λ inx. IsSome (entry_in (map X.entry (S.items stack.now)) (non_zero_usize_get inx))
        × ((i : ℕ) → non_zero_usize_get inx < i
        → entry_in (map X.entry (S.items stack.now)) i ≡ None)) }
{
    live_to::<P, T, X, S>(stack, NonZeroUsize::MIN.saturating_add(stack.len()))
}

/// The pointer of the entry at an index.
pub fn ptr_at<P: Ptr, T, X: EntrySlot<P, T>, S: NonZeroInxGenericStack<X>>(
    stack: &S,
    inx: NonZeroUsize,
) -> P
    requires live { IsSome (entry_in (map X.entry (S.items stack.now)) (non_zero_usize_get inx)) }
    requires indexed { length (S.items stack.now) ≤ greatest_index P.Inx.greatest }
    ensures { (h : ℕ) × (v : T)
        × (entry_in (map X.entry (S.items stack.now)) (non_zero_usize_get inx) ≡ Some (h, v))
        × (P.numbers result ≡ (non_zero_usize_get inx, h)) }
{
    let (generation, _value) = slot_at(stack, inx).unwrap().entry().unwrap();
    P::_from_raw(P::Inx::try_from_usize(inx).unwrap(), generation)
}

/// Pops the slots without an entry at the end, as long as there are more than `len`.
pub fn shorten<P: Ptr, T, X: EntrySlot<P, T>, S: NonZeroInxGenericStack<X>>(
    stack: &mut S,
    len: usize,
)
    ensures slots { map X.entry (S.items stack.new)
        ≡ shortened len (map X.entry (S.items stack.old)) }
    ensures items { S.items stack.new
        ≡ take (length (shortened len (map X.entry (S.items stack.old)))) (S.items stack.old) }
    ensures room { S.room stack.new ≡ S.room stack.old }
    ensures limit { S.limit stack.new ≡ S.limit stack.old }
{
    'pops: while ends_free_past::<P, T, X, S>(stack, len) {
        stack.pop().unwrap().discard();
    }
}

/// Makes the call at the values of the entries at two indexes. Both are lent to it at once; what it
/// writes stands there, and no other slot changes.
pub fn work_on_two<
    P: Ptr,
    T,
    X: EntrySlot<P, T>,
    S: NonZeroInxGenericStack<X>,
    R,
    C: PairCall<T, R>,
>(stack: &mut S, first: NonZeroUsize, second: NonZeroUsize, call: C) -> R
    requires first { IsSome (entry_in (map X.entry (S.items stack.old)) (non_zero_usize_get first)) }
    requires second { IsSome (entry_in (map X.entry (S.items stack.old)) (non_zero_usize_get second)) }
    requires apart { non_zero_usize_get first ≢ non_zero_usize_get second }
    requires callable { MayWork C.calls call
        (value_of (entry_in (map X.entry (S.items stack.old)) (non_zero_usize_get first)))
        (value_of (entry_in (map X.entry (S.items stack.old)) (non_zero_usize_get second))) }
    ensures worked { Worked C.calls call
        (value_of (entry_in (map X.entry (S.items stack.old)) (non_zero_usize_get first)))
        (value_of (entry_in (map X.entry (S.items stack.old)) (non_zero_usize_get second)))
        result (WritesTwo X.with_value (S.items stack.old) (S.items stack.new)
        (non_zero_usize_get first) (non_zero_usize_get second)) }
    ensures room { S.room stack.new ≡ S.room stack.old }
    ensures limit { S.limit stack.new ≡ S.limit stack.old }
{
    let slots = stack.as_mut_slice();
    let (a, b) = pair_of(slots, first.get() - 1, second.get() - 1);
    work_in_two::<P, T, X, R, C>(a, b, call)
}

// Makes the call at the values of two slots that have an entry.
fn work_in_two<P: Ptr, T, X: EntrySlot<P, T>, R, C: PairCall<T, R>>(
    first: &mut X,
    second: &mut X,
    call: C,
) -> R
    requires first { IsSome (X.entry first.old) }
    requires second { IsSome (X.entry second.old) }
    requires callable { MayWork C.calls call (value_of (X.entry first.old))
        (value_of (X.entry second.old)) }
    ensures { Worked C.calls call (value_of (X.entry first.old)) (value_of (X.entry second.old))
        result (λ x y. (first.new ≡ X.with_value first.old x)
        × (second.new ≡ X.with_value second.old y)) }
{
    call.at(first.value_mut(), second.value_mut())
}

// Whether the last slot is free, and there are more than `len`.
fn ends_free_past<P: Ptr, T, X: EntrySlot<P, T>, S: NonZeroInxGenericStack<X>>(
    stack: &S,
    len: usize,
) -> bool
    ensures yes { result ≡ true → is_free (item (map X.entry (S.items stack.now))
        (length (map X.entry (S.items stack.now)))) ≡ true }
    ensures more { result ≡ true → len < length (S.items stack.now) }
    ensures no { result ≡ false → (length (S.items stack.now) ≤ len)
        ⊎ (is_free (item (map X.entry (S.items stack.now))
        (length (map X.entry (S.items stack.now)))) ≡ false) }
{
    let slots = stack.as_slice();
    if slots.len() <= len {
        return false;
    }
    let end = slots.len() - 1;
    !slots[end].is_live()
}
