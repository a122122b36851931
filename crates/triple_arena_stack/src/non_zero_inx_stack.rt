//! The one struct of the four stacks, round what each keeps.

use crate::set_max_capacity::SetMaxCapacity;
use crate::stack::NonZeroInxGenericStack;
use std::alloc::Global;
use std::marker::{Model, PhantomData};
use std::num::NonZeroUsize;
use triple_arena_base::{AllocError, MaxCapacityReductionError, ReallocationError};

/// A stack of items of the type `T`, which are kept in a stack `K`.
///
/// It is just such a stack as `K`, and gives push entries beside. The four stacks are
/// [`crate::NonZeroInxVec`], [`crate::NonZeroInxLimitedVec`], [`crate::NonZeroInxBoxedSlice`] and
/// [`crate::NonZeroInxArray`]; an entry is lent out of this one struct, so that it is written once.
#[derive(Drop)]
pub struct NonZeroInxStack<T, K> {
    kept: K,
    of: PhantomData<T>,
}

impl<T, K> Model for NonZeroInxStack<T, K> {
    ghost Value = { K };

    ghost coded = { K.code };

    ghost view = { λ a. a.kept };
}

impl<T, K: NonZeroInxGenericStack<T>> NonZeroInxGenericStack<T> for NonZeroInxStack<T, K> {
    ghost items = { K.items };

    ghost room = { K.room };

    ghost limit = { K.limit };

    ghost kind = { K.kind };

    ghost has_memory = { K.has_memory };

    ghost with_items = { K.with_items };

    ghost items_with_items = { K.items_with_items };

    ghost room_with_items = { K.room_with_items };

    ghost limit_with_items = { K.limit_with_items };

    ghost with_items_same = { K.with_items_same };

    ghost with_items_twice = { K.with_items_twice };

    fn new(alloc: Global) -> Self {
        NonZeroInxStack {
            kept: K::new(alloc),
            of: PhantomData,
        }
    }

    fn with_min_capacity(alloc: Global, min_capacity: usize) -> Result<Self, AllocError> {
        Ok(NonZeroInxStack {
            kept: K::with_min_capacity(alloc, min_capacity)?,
            of: PhantomData,
        })
    }

    fn capacity(&self) -> usize {
        self.kept.capacity()
    }

    fn max_capacity(&self) -> Option<usize> {
        self.kept.max_capacity()
    }

    fn reallocate_min_capacity(&mut self, min_capacity: usize) -> Result<(), ReallocationError> {
        self.kept.reallocate_min_capacity(min_capacity)
    }

    fn push_reserved(&mut self, t: T) -> (NonZeroUsize, &mut T) {
        self.kept.push_reserved(t)
    }

    fn get_mut(&mut self, inx: NonZeroUsize) -> Option<&mut T> {
        self.kept.get_mut(inx)
    }

    fn pop(&mut self) -> Option<T> {
        self.kept.pop()
    }

    fn clear(&mut self)
    where
        T: Drop,
    {
        self.kept.clear();
    }

    fn as_slice(&self) -> &[T] {
        self.kept.as_slice()
    }

    fn as_mut_slice(&mut self) -> &mut [T] {
        self.kept.as_mut_slice()
    }
}

impl<T, K: SetMaxCapacity<T>> SetMaxCapacity<T> for NonZeroInxStack<T, K> {
    fn set_max_capacity(&mut self, max_capacity: usize) -> Result<(), MaxCapacityReductionError> {
        self.kept.set_max_capacity(max_capacity)
    }
}
