//! A stack on the heap, without a limit.

use crate::non_zero_inx_stack::NonZeroInxStack;
use crate::push_entry::PushEntry;
use crate::stack::NonZeroInxGenericStack;
use std::alloc::Global;
use std::marker::Model;
use std::num::NonZeroUsize;
use triple_arena_base::{AllocError, ReallocationError};

/// A stack on the heap, without a limit. A new one has no room; it grows as it is pushed to.
pub type NonZeroInxVec<T> = NonZeroInxStack<T, HeapStack<T>>;

/// A place on a [`NonZeroInxVec`] for one more item.
pub type NonZeroInxVecPushEntry<'a, T> = PushEntry<'a, T, HeapStack<T>>;

/// What a [`NonZeroInxVec`] keeps: a vector, and its room as an exact number.
#[derive(Drop)]
pub struct HeapStack<T> {
    items: Vec<T>,
    room: usize,
}

impl<T> Model for HeapStack<T> {
    ghost use Rattle.std.specs.Prelude.{◌≤◌, vec_len, vec_capacity};
    ghost use Rattle.triple_arena_stack.specs.StackState.{Roomed, roomed_code};

    ghost Value = { Roomed T };

    ghost coded = { roomed_code T.code };

    ghost view = { λ a. record { items = a.items.items; room = a.room } };

    ghost invariant = { λ a. (vec_len a.items ≤ a.room) × (a.room ≤ vec_capacity a.items) };
}

impl<T> NonZeroInxGenericStack<T> for HeapStack<T> {
    ghost use Rattle.std.specs.Prelude.{refl, None};
    ghost use Rattle.triple_arena_stack.specs.StackKind.StackKind.{heap};

    ghost items = { λ stack. stack.items };

    ghost room = { λ stack. stack.room };

    ghost limit = { λ _. None };

    ghost kind = { heap };

    ghost has_memory = { λ _. ⊥ };

    ghost with_items = { λ stack xs. record stack { items = xs } };

    ghost items_with_items = { λ stack xs. refl };

    ghost room_with_items = { λ stack xs. refl };

    ghost limit_with_items = { λ stack xs. refl };

    ghost with_items_same = { λ stack. refl };

    ghost with_items_twice = { λ stack xs ys. refl };

    fn new(alloc: Global) -> Self {
        HeapStack {
            items: Vec::new(alloc),
            room: 0,
        }
    }

    fn with_min_capacity(alloc: Global, min_capacity: usize) -> Result<Self, AllocError> {
        Ok(HeapStack {
            items: Vec::with_capacity(alloc, min_capacity)?,
            room: min_capacity,
        })
    }

    fn capacity(&self) -> usize {
        self.room
    }

    fn max_capacity(&self) -> Option<usize> {
        None
    }

    fn reallocate_min_capacity(&mut self, min_capacity: usize) -> Result<(), ReallocationError> {
        let room = min_capacity.max(self.items.len());
        if room == self.room {
            return Ok(());
        }
        if room > self.room {
            let more = room - self.items.len();
            self.items.reserve_exact(more)?;
        } else {
            self.items.shrink_to(room);
        }
        self.room = room;
        Ok(())
    }

    fn push_reserved(&mut self, t: T) -> (NonZeroUsize, &mut T) {
        let len = self.items.len();
        self.items.push_reserved(t);
        (NonZeroUsize::MIN.saturating_add(len), &mut self.items[len])
    }

    fn get_mut(&mut self, inx: NonZeroUsize) -> Option<&mut T> {
        self.items.get_mut(inx.get() - 1)
    }

    fn pop(&mut self) -> Option<T> {
        self.items.pop()
    }

    fn clear(&mut self)
    where
        T: Drop,
    {
        self.items.clear();
    }

    fn as_slice(&self) -> &[T] {
        self.items.as_slice()
    }

    fn as_mut_slice(&mut self) -> &mut [T] {
        self.items.as_mut_slice()
    }
}
