//! A stack whose room is fixed when it is made.

use crate::non_zero_inx_stack::NonZeroInxStack;
use crate::push_entry::PushEntry;
use crate::stack::NonZeroInxGenericStack;
use crate::vec::HeapStack;
use std::alloc::Global;
use std::marker::Model;
use std::num::NonZeroUsize;
use triple_arena_base::{AllocError, ReallocationError};

/// A stack on the heap whose room is fixed when it is made, and is its limit. A new one has none.
pub type NonZeroInxBoxedSlice<T> = NonZeroInxStack<T, FixedStack<T>>;

/// A place on a [`NonZeroInxBoxedSlice`] for one more item.
pub type NonZeroInxBoxedSlicePushEntry<'a, T> = PushEntry<'a, T, FixedStack<T>>;

/// What a [`NonZeroInxBoxedSlice`] keeps: a stack on the heap that never reallocates.
#[derive(Drop)]
pub struct FixedStack<T> {
    heap: HeapStack<T>,
}

impl<T> Model for FixedStack<T> {
    ghost use Rattle.triple_arena_stack.specs.StackState.{Roomed, roomed_code};

    ghost Value = { Roomed T };

    ghost coded = { roomed_code T.code };

    ghost view = { λ a. a.heap };
}

impl<T> NonZeroInxGenericStack<T> for FixedStack<T> {
    ghost use Rattle.std.specs.Prelude.{refl, Some};
    ghost use Rattle.triple_arena_stack.specs.StackKind.StackKind.{fixed};

    ghost items = { λ stack. stack.items };

    ghost room = { λ stack. stack.room };

    ghost limit = { λ stack. Some stack.room };

    ghost kind = { fixed };

    ghost has_memory = { λ _. ⊥ };

    ghost with_items = { λ stack xs. record stack { items = xs } };

    ghost items_with_items = { λ stack xs. refl };

    ghost room_with_items = { λ stack xs. refl };

    ghost limit_with_items = { λ stack xs. refl };

    ghost with_items_same = { λ stack. refl };

    ghost with_items_twice = { λ stack xs ys. refl };

    fn new(alloc: Global) -> Self {
        FixedStack {
            heap: HeapStack::new(alloc),
        }
    }

    fn with_min_capacity(alloc: Global, min_capacity: usize) -> Result<Self, AllocError> {
        Ok(FixedStack {
            heap: HeapStack::with_min_capacity(alloc, min_capacity)?,
        })
    }

    fn capacity(&self) -> usize {
        self.heap.capacity()
    }

    fn max_capacity(&self) -> Option<usize> {
        Some(self.heap.capacity())
    }

    fn reallocate_min_capacity(&mut self, min_capacity: usize) -> Result<(), ReallocationError> {
        if min_capacity > self.heap.capacity() {
            return Err(ReallocationError::BeyondMaxCapacity);
        }
        Ok(())
    }

    fn push_reserved(&mut self, t: T) -> (NonZeroUsize, &mut T) {
        self.heap.push_reserved(t)
    }

    fn get_mut(&mut self, inx: NonZeroUsize) -> Option<&mut T> {
        self.heap.get_mut(inx)
    }

    fn pop(&mut self) -> Option<T> {
        self.heap.pop()
    }

    fn clear(&mut self)
    where
        T: Drop,
    {
        self.heap.clear();
    }

    fn as_slice(&self) -> &[T] {
        self.heap.as_slice()
    }

    fn as_mut_slice(&mut self) -> &mut [T] {
        self.heap.as_mut_slice()
    }
}
