//! Loops over an arena by value. There is one impl for each kind of stack, since one over any stack
//! has no proved caller; an arena over another stack is walked by `CapacityDrain::over`.

ghost use Rattle.std.specs.Prelude.{◌≡◌};
ghost use Rattle.triple_arena_traits.specs.Walks.{entries};

use crate::direct_arena::DirectArena;
use crate::slot::DirectSlot;
use triple_arena_ptr::Ptr;
use triple_arena_stack::{
    NonZeroInxArray, NonZeroInxBoxedSlice, NonZeroInxLimitedVec, NonZeroInxVec,
};
use triple_arena_traits::arena_iterators::CapacityDrain;

type Entries<P, T, S> = CapacityDrain<P, T, DirectArena<P, T, S>>;

impl<P: Ptr, T: Drop> IntoIterator for DirectArena<P, T, NonZeroInxVec<DirectSlot<P, T>>> {
    type Item = (P, T);

    type IntoIter = Entries<P, T, NonZeroInxVec<DirectSlot<P, T>>>;

    ghost into_iter_gives = { λ arena drain. drain ≡ entries arena.slots };

    // The trait's clause is written out, since inheriting it makes each call dearer to prove.
    fn into_iter(self) -> Entries<P, T, NonZeroInxVec<DirectSlot<P, T>>>
        ensures { result ≡ entries self.slots }
    {
        CapacityDrain::over(self)
    }
}

impl<P: Ptr, T: Drop> IntoIterator for DirectArena<P, T, NonZeroInxLimitedVec<DirectSlot<P, T>>> {
    type Item = (P, T);

    type IntoIter = Entries<P, T, NonZeroInxLimitedVec<DirectSlot<P, T>>>;

    ghost into_iter_gives = { λ arena drain. drain ≡ entries arena.slots };

    fn into_iter(self) -> Entries<P, T, NonZeroInxLimitedVec<DirectSlot<P, T>>>
        ensures { result ≡ entries self.slots }
    {
        CapacityDrain::over(self)
    }
}

impl<P: Ptr, T: Drop> IntoIterator for DirectArena<P, T, NonZeroInxBoxedSlice<DirectSlot<P, T>>> {
    type Item = (P, T);

    type IntoIter = Entries<P, T, NonZeroInxBoxedSlice<DirectSlot<P, T>>>;

    ghost into_iter_gives = { λ arena drain. drain ≡ entries arena.slots };

    fn into_iter(self) -> Entries<P, T, NonZeroInxBoxedSlice<DirectSlot<P, T>>>
        ensures { result ≡ entries self.slots }
    {
        CapacityDrain::over(self)
    }
}

impl<P: Ptr, T: Drop, const LIMIT: usize> IntoIterator
    for DirectArena<P, T, NonZeroInxArray<DirectSlot<P, T>, LIMIT>> {
    type Item = (P, T);

    type IntoIter = Entries<P, T, NonZeroInxArray<DirectSlot<P, T>, LIMIT>>;

    ghost into_iter_gives = { λ arena drain. drain ≡ entries arena.slots };

    fn into_iter(self) -> Entries<P, T, NonZeroInxArray<DirectSlot<P, T>, LIMIT>>
        ensures { result ≡ entries self.slots }
    {
        CapacityDrain::over(self)
    }
}
