//! A stack on the heap, up to a limit that can be set.

use crate::non_zero_inx_stack::NonZeroInxStack;
use crate::push_entry::PushEntry;
use crate::set_max_capacity::SetMaxCapacity;
use crate::stack::NonZeroInxGenericStack;
use crate::vec::HeapStack;
use std::alloc::Global;
use std::marker::Model;
use std::num::NonZeroUsize;
use triple_arena_base::{AllocError, MaxCapacityReductionError, ReallocationError};

/// A stack on the heap, up to a limit that can be set. A new one has no room and the limit 0; one
/// that is made for some items has their number as its limit.
pub type NonZeroInxLimitedVec<T> = NonZeroInxStack<T, LimitedStack<T>>;

/// A place on a [`NonZeroInxLimitedVec`] for one more item.
pub type NonZeroInxLimitedVecPushEntry<'a, T> = PushEntry<'a, T, LimitedStack<T>>;

/// What a [`NonZeroInxLimitedVec`] keeps: a stack on the heap, and a limit.
///
/// The limit may lie below the room; then the room stays, and the capacity is the limit.
#[derive(Drop)]
pub struct LimitedStack<T> {
    heap: HeapStack<T>,
    most: usize,
}

impl<T> Model for LimitedStack<T> {
    ghost use Rattle.std.specs.Prelude.{◌≤◌, length};
    ghost use Rattle.triple_arena_stack.specs.StackState.{Limited, limited_code};

    ghost Value = { Limited T };

    ghost coded = { limited_code T.code };

    ghost view = { λ a. record { items = a.heap.items; room = a.heap.room; most = a.most } };

    ghost invariant = { λ a. length a.heap.items ≤ a.most };
}

impl<T> NonZeroInxGenericStack<T> for LimitedStack<T> {
    ghost use Rattle.std.specs.Prelude.{refl, Some};
    ghost use Rattle.triple_arena_stack.specs.StackKind.StackKind.{limited};

    ghost items = { λ stack. stack.items };

    ghost room = { λ stack. stack.room };

    ghost limit = { λ stack. Some stack.most };

    ghost kind = { limited };

    ghost has_memory = { λ _. ⊥ };

    ghost with_items = { λ stack xs. record stack { items = xs } };

    ghost items_with_items = { λ stack xs. refl };

    ghost room_with_items = { λ stack xs. refl };

    ghost limit_with_items = { λ stack xs. refl };

    ghost with_items_same = { λ stack. refl };

    ghost with_items_twice = { λ stack xs ys. refl };

    fn new(alloc: Global) -> Self {
        LimitedStack {
            heap: HeapStack::new(alloc),
            most: 0,
        }
    }

    fn with_min_capacity(alloc: Global, min_capacity: usize) -> Result<Self, AllocError> {
        Ok(LimitedStack {
            heap: HeapStack::with_min_capacity(alloc, min_capacity)?,
            most: min_capacity,
        })
    }

    fn capacity(&self) -> usize {
        self.heap.capacity().min(self.most)
    }

    fn max_capacity(&self) -> Option<usize> {
        Some(self.most)
    }

    fn reallocate_min_capacity(&mut self, min_capacity: usize) -> Result<(), ReallocationError> {
        if min_capacity > self.most {
            return Err(ReallocationError::BeyondMaxCapacity);
        }
        self.heap.reallocate_min_capacity(min_capacity)
    }

    fn push_reserved(&mut self, t: T) -> (NonZeroUsize, &mut T) {
        self.heap.push_reserved(t)
    }

    fn get_mut(&mut self, inx: NonZeroUsize) -> Option<&mut T> {
        self.heap.get_mut(inx)
    }

    fn pop(&mut self) -> Option<T> {
        self.heap.pop()
    }

    fn clear(&mut self)
    where
        T: Drop,
    {
        self.heap.clear();
    }

    fn as_slice(&self) -> &[T] {
        self.heap.as_slice()
    }

    fn as_mut_slice(&mut self) -> &mut [T] {
        self.heap.as_mut_slice()
    }
}

impl<T> SetMaxCapacity<T> for LimitedStack<T> {
    fn set_max_capacity(&mut self, max_capacity: usize) -> Result<(), MaxCapacityReductionError> {
        if self.heap.len() > max_capacity {
            return Err(MaxCapacityReductionError);
        }
        self.most = max_capacity;
        Ok(())
    }
}
