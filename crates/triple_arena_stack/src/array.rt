//! A stack in an array.

use crate::non_zero_inx_stack::NonZeroInxStack;
use crate::push_entry::PushEntry;
use crate::stack::NonZeroInxGenericStack;
use arrayvec::ArrayVec;
use std::alloc::Global;
use std::marker::Model;
use std::num::NonZeroUsize;
use triple_arena_base::{AllocError, ReallocationError};

/// A stack in an array of `LIMIT` places, which takes no memory. Its room and its limit are
/// `LIMIT`.
pub type NonZeroInxArray<T, const LIMIT: usize> = NonZeroInxStack<T, ArrayStack<T, LIMIT>>;

/// A place on a [`NonZeroInxArray`] for one more item.
pub type NonZeroInxArrayPushEntry<'a, T, const LIMIT: usize> = PushEntry<
    'a,
    T,
    ArrayStack<T, LIMIT>,
>;

/// What a [`NonZeroInxArray`] keeps: a vector of constant capacity, whose places are filled with
/// default items until they are pushed to.
#[derive(Drop)]
pub struct ArrayStack<T, const LIMIT: usize> {
    items: ArrayVec<T, LIMIT>,
}

impl<T, const LIMIT: usize> Model for ArrayStack<T, LIMIT> {
    ghost use Rattle.std.specs.Prelude.{List};
    ghost use Rattle.std.specs.Coded.{coded_list};

    ghost Value = { List T };

    ghost coded = { coded_list T.code };

    ghost view = { λ a. a.items.items };
}

impl<T: Default + Drop, const LIMIT: usize> NonZeroInxGenericStack<T> for ArrayStack<T, LIMIT> {
    ghost use Rattle.std.specs.Prelude.{refl, Some};
    ghost use Rattle.triple_arena_stack.specs.StackKind.StackKind.{array};

    ghost items = { λ stack. stack };

    ghost room = { λ _. LIMIT };

    ghost limit = { λ _. Some LIMIT };

    ghost kind = { array LIMIT };

    ghost has_memory = { λ _. Unit {0} };

    ghost with_items = { λ _ xs. xs };

    ghost items_with_items = { λ stack xs. refl };

    ghost room_with_items = { λ stack xs. refl };

    ghost limit_with_items = { λ stack xs. refl };

    ghost with_items_same = { λ stack. refl };

    ghost with_items_twice = { λ stack xs ys. refl };

    fn new(_alloc: Global) -> Self {
        ArrayStack {
            items: ArrayVec::new(),
        }
    }

    fn with_min_capacity(_alloc: Global, min_capacity: usize) -> Result<Self, AllocError> {
        if min_capacity > LIMIT {
            return Err(AllocError);
        }
        Ok(ArrayStack {
            items: ArrayVec::new(),
        })
    }

    fn capacity(&self) -> usize {
        // There are no more items than places.
        let _len = self.items.len();
        LIMIT
    }

    fn max_capacity(&self) -> Option<usize> {
        Some(LIMIT)
    }

    fn reallocate_min_capacity(&mut self, min_capacity: usize) -> Result<(), ReallocationError> {
        if min_capacity > LIMIT {
            return Err(ReallocationError::BeyondMaxCapacity);
        }
        Ok(())
    }

    fn push_reserved(&mut self, t: T) -> (NonZeroUsize, &mut T) {
        let len = self.items.len();
        self.items.push(t);
        (
            NonZeroUsize::MIN.saturating_add(len),
            self.items.get_mut(len).unwrap(),
        )
    }

    fn get_mut(&mut self, inx: NonZeroUsize) -> Option<&mut T> {
        self.items.get_mut(inx.get() - 1)
    }

    fn pop(&mut self) -> Option<T> {
        self.items.pop()
    }

    fn clear(&mut self)
    where
        T: Drop,
    {
        self.items.clear();
    }

    fn as_slice(&self) -> &[T] {
        self.items.as_slice()
    }

    fn as_mut_slice(&mut self) -> &mut [T] {
        self.items.as_mut_slice()
    }
}
