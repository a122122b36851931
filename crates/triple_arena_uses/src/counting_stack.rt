//! An own stack: one that counts its pushes, round any other.

ghost use Rattle.std.specs.Prelude.{◌≡◌, []};

use std::alloc::Global;
use std::marker::{Model, PhantomData};
use std::num::NonZeroUsize;
use triple_arena::{Arena, ArenaSlot};
use triple_arena_base::{AllocError, ReallocationError};
use triple_arena_ptr::Ptr;
use triple_arena_stack::{NonZeroInxGenericStack, NonZeroInxVec};

/// A stack that counts its pushes, and is as the one inside it for the rest.
#[derive(Drop)]
pub struct CountingStack<T, S: NonZeroInxGenericStack<T>> {
    inner: S,
    pushes: u64,
    items: PhantomData<T>,
}

/// An arena without slots, over such a stack, which goes on from so many pushes.
pub fn counting_on<P: Ptr, T>(
    alloc: Global,
    pushes: u64,
) -> Arena<P, T, CountingStack<ArenaSlot<P, T>, NonZeroInxVec<ArenaSlot<P, T>>>>
    ensures { result.slots ≡ [] }
{
    Arena::over(CountingStack::over(NonZeroInxVec::new(alloc), pushes))
}

// The count is no part of the value: a push leaves all but the items as they were.
impl<T, S: NonZeroInxGenericStack<T>> Model for CountingStack<T, S> {
    ghost Value = { S };

    ghost coded = { S.code };

    ghost view = { λ stack. stack.inner };
}

impl<T, S: NonZeroInxGenericStack<T>> CountingStack<T, S> {
    /// A stack round one that the caller has made, which goes on from so many pushes.
    pub fn over(inner: S, pushes: u64) -> Self
        ensures { result ≡ inner }
    {
        CountingStack {
            inner,
            pushes,
            items: PhantomData,
        }
    }

    /// How many pushes there were, up to the greatest number.
    pub fn pushes(&self) -> u64 {
        self.pushes
    }
}

impl<T, S: NonZeroInxGenericStack<T>> NonZeroInxGenericStack<T> for CountingStack<T, S> {
    ghost items = { S.items };

    ghost room = { S.room };

    ghost limit = { S.limit };

    ghost kind = { S.kind };

    ghost has_memory = { S.has_memory };

    ghost with_items = { S.with_items };

    fn new(alloc: Global) -> Self {
        CountingStack {
            inner: S::new(alloc),
            pushes: 0,
            items: PhantomData,
        }
    }

    fn with_min_capacity(alloc: Global, min_capacity: usize) -> Result<Self, AllocError> {
        Ok(CountingStack {
            inner: S::with_min_capacity(alloc, min_capacity)?,
            pushes: 0,
            items: PhantomData,
        })
    }

    fn capacity(&self) -> usize {
        self.inner.capacity()
    }

    fn max_capacity(&self) -> Option<usize> {
        self.inner.max_capacity()
    }

    fn reallocate_min_capacity(&mut self, min_capacity: usize) -> Result<(), ReallocationError> {
        self.inner.reallocate_min_capacity(min_capacity)
    }

    fn push_reserved(&mut self, t: T) -> (NonZeroUsize, &mut T) {
        self.pushes = self.pushes.saturating_add(1);
        self.inner.push_reserved(t)
    }

    fn get_mut(&mut self, inx: NonZeroUsize) -> Option<&mut T> {
        self.inner.get_mut(inx)
    }

    fn pop(&mut self) -> Option<T> {
        self.inner.pop()
    }

    fn clear(&mut self)
    where
        T: Drop,
    {
        self.inner.clear();
    }

    fn as_slice(&self) -> &[T] {
        self.inner.as_slice()
    }

    fn as_mut_slice(&mut self) -> &mut [T] {
        self.inner.as_mut_slice()
    }

    ghost items_with_items = { S.items_with_items };

    ghost room_with_items = { S.room_with_items };

    ghost limit_with_items = { S.limit_with_items };

    ghost with_items_same = { S.with_items_same };

    ghost with_items_twice = { S.with_items_twice };
}
