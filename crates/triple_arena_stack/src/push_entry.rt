//! The place of an item that is not pushed yet.
ghost use Rattle.std.specs.Prelude.{◌≡◌, ◌+◌, ◌↔◌, length, ℕ, IsTrue, IsOk, IfOk, IsOkAnd, Err};
ghost use Rattle.std.specs.Borrow.{sem};
ghost use Rattle.std.specs.Int.NonZero.{non_zero_usize_get};
ghost use Rattle.triple_arena_stack.specs.Capacity.{stack_capacity, most_places, room_for_one_more, HasPlace, IsFullAtLimit, CanGrow};
ghost use Rattle.triple_arena_stack.specs.PushEntry.{push_entry_stack, push_entry_lender, push_entry_rests, push_entry_lends};

use crate::growth::grow_if_full;
use crate::non_zero_inx_stack::NonZeroInxStack;
use crate::stack::NonZeroInxGenericStack;
use std::num::NonZeroUsize;
use triple_arena_base::{NotWithinCapacityError, ReallocationError};

/// A place on a stack for one more item.
///
/// Dropped, it pushes nothing; room that was made for it stays.
pub struct PushEntry<'a, T, K> {
    stack: &'a mut NonZeroInxStack<T, K>,
}

/// What can be done with a place for one more item.
pub trait NonZeroInxGenericStackPushEntryTrait<'a, T> {
    // the stack has a place for the item
    ghost has_place: { Self → Type 0 };

    // the index that the item will have
    ghost place: { Self → ℕ };

    /// Whether the entry has its place, as each entry that a stack gives has.
    fn has_place(&self) -> bool
        ensures { IsTrue result ↔ has_place self.now };

    /// The index that the item will have.
    ///
    /// The entry must have its place, as each entry that a stack gives has: by `variant` and
    /// `stack` of `entry_push_within_capacity`, by `has_place` of `entry_push` and
    /// `entry_push_reallocating`. [`Self::has_place`] tells it of any other.
    fn inx(&self) -> NonZeroUsize
        requires { has_place self.now }
        ensures { non_zero_usize_get result ≡ place self.now };

    /// Pushes `t`, and gives the item on the stack. It takes no memory, and has no refusal.
    ///
    /// The entry must have its place, as for `inx`. What is written through the reference stands on
    /// the stack after the other items.
    fn push(self, t: T) -> &'a mut T
        requires { has_place self }
        ensures value { result.now ≡ t };
}

impl<T, K: NonZeroInxGenericStack<T>> NonZeroInxStack<T, K> {
    /// A place for one more item, where the capacity has it. It takes no memory.
    ///
    /// Refused exactly where the length is the capacity; then the stack is unchanged.
    pub fn entry_push_within_capacity(
        &mut self,
    ) -> Result<PushEntry<'_, T, K>, NotWithinCapacityError>
        ensures variant { IsOk result
            ↔ HasPlace (K.room self.old) (K.limit self.old) (length (K.items self.old)) }
        ensures stack { IfOk result (λ entry. push_entry_stack entry ≡ self.old) }
        ensures same_reference { IfOk result (λ entry. push_entry_lender entry
            ≡ self.entry.ghost_name) }
        ensures* refused { sem 𝓛 (push_entry_rests T.row K.row self.entry result) }
    {
        if self.len() >= self.capacity() {
            return Err(NotWithinCapacityError);
        }
        Ok(PushEntry { stack: self })
    }

    /// A place for one more item; a full stack grows first.
    ///
    /// Refused as [`NonZeroInxGenericStack::push_reallocating`] is; then the stack is unchanged.
    pub fn entry_push_reallocating(&mut self) -> Result<PushEntry<'_, T, K>, ReallocationError>
        ensures items { IfOk result (λ entry. K.items (push_entry_stack entry) ≡ K.items self.old) }
        ensures limit { IfOk result (λ entry. K.limit (push_entry_stack entry) ≡ K.limit self.old) }
        ensures room { IfOk result (λ entry. K.room (push_entry_stack entry)
            ≡ room_for_one_more (K.room self.old) (K.limit self.old) (length (K.items self.old))) }
        ensures has_place { IfOk result (λ entry. HasPlace
            (K.room (push_entry_stack entry)) (K.limit (push_entry_stack entry))
            (length (K.items (push_entry_stack entry)))) }
        ensures had_place { HasPlace
            (K.room self.old) (K.limit self.old) (length (K.items self.old))
            → IsOkAnd result (λ entry. push_entry_stack entry ≡ self.old) }
        ensures beyond { (result ≡ Err ReallocationError.BeyondMaxCapacity)
            ↔ IsFullAtLimit (stack_capacity (K.room self.old) (K.limit self.old))
            (K.limit self.old) (length (K.items self.old)) }
        ensures with_memory { CanGrow K.has_memory
            (stack_capacity (K.room self.old) (K.limit self.old))
            (K.limit self.old) most_places → IsOk result }
        ensures same_reference { IfOk result (λ entry. push_entry_lender entry
            ≡ self.entry.ghost_name) }
        ensures* refused { sem 𝓛 (push_entry_rests T.row K.row self.entry result) }
    {
        grow_if_full(self)?;
        Ok(PushEntry { stack: self })
    }

    /// As [`Self::entry_push_reallocating`].
    pub fn entry_push(&mut self) -> Result<PushEntry<'_, T, K>, ReallocationError>
        ensures items { IfOk result (λ entry. K.items (push_entry_stack entry) ≡ K.items self.old) }
        ensures limit { IfOk result (λ entry. K.limit (push_entry_stack entry) ≡ K.limit self.old) }
        ensures room { IfOk result (λ entry. K.room (push_entry_stack entry)
            ≡ room_for_one_more (K.room self.old) (K.limit self.old) (length (K.items self.old))) }
        ensures has_place { IfOk result (λ entry. HasPlace
            (K.room (push_entry_stack entry)) (K.limit (push_entry_stack entry))
            (length (K.items (push_entry_stack entry)))) }
        ensures had_place { HasPlace
            (K.room self.old) (K.limit self.old) (length (K.items self.old))
            → IsOkAnd result (λ entry. push_entry_stack entry ≡ self.old) }
        ensures beyond { (result ≡ Err ReallocationError.BeyondMaxCapacity)
            ↔ IsFullAtLimit (stack_capacity (K.room self.old) (K.limit self.old))
            (K.limit self.old) (length (K.items self.old)) }
        ensures with_memory { CanGrow K.has_memory
            (stack_capacity (K.room self.old) (K.limit self.old))
            (K.limit self.old) most_places → IsOk result }
        ensures same_reference { IfOk result (λ entry. push_entry_lender entry
            ≡ self.entry.ghost_name) }
        ensures* refused { sem 𝓛 (push_entry_rests T.row K.row self.entry result) }
    {
        self.entry_push_reallocating()
    }
}

impl<'a, T, K: NonZeroInxGenericStack<T>> NonZeroInxGenericStackPushEntryTrait<'a, T>
    for PushEntry<'a, T, K> {
    ghost has_place = { λ entry. HasPlace
        (K.room (push_entry_stack entry)) (K.limit (push_entry_stack entry))
        (length (K.items (push_entry_stack entry))) };

    ghost place = { λ entry. length (K.items (push_entry_stack entry)) + 1 };

    fn has_place(&self) -> bool {
        self.stack.len() < self.stack.capacity()
    }

    fn inx(&self) -> NonZeroUsize {
        // There are no more items than fit.
        let _capacity = self.stack.capacity();
        NonZeroUsize::MIN.saturating_add(self.stack.len())
    }

    fn push(self, t: T) -> &'a mut T
        requires { HasPlace
            (K.room (push_entry_stack self)) (K.limit (push_entry_stack self))
            (length (K.items (push_entry_stack self))) }
        ensures value { result.now ≡ t }
        ensures* writes_back { sem 𝓛
            (push_entry_lends T.row K.row K.with_items K.items self.entry result) }
    {
        let PushEntry { stack } = self;
        let (_inx, item) = stack.push_reserved(t);
        item
    }
}

impl<T, K> Drop for PushEntry<'_, T, K> {
    fn drop(self)
        ensures { self.exit.0.now ≡ self.entry.stack.now }
    {
        let PushEntry { stack: _ } = self;
    }
}
