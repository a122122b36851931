//! The iterators of a direct arena.

ghost use Rattle.std.specs.Prelude.{◌≡◌};
ghost use Rattle.triple_arena_traits.specs.Walks.{entries};

use crate::direct_arena::DirectArena;
use crate::slot::DirectSlot;
use triple_arena_ptr::Ptr;
use triple_arena_stack::NonZeroInxGenericStack;
use triple_arena_traits::CompactArenaTrait;
use triple_arena_traits::arena_iterators::Iter;

impl<'a, P: Ptr, T, S: NonZeroInxGenericStack<DirectSlot<P, T>>> IntoIterator
    for &'a DirectArena<P, T, S> {
    type Item = (P, &'a T);

    type IntoIter = Iter<'a, P, T, DirectArena<P, T, S>>;

    ghost into_iter_gives = { λ arena iter. iter ≡ entries arena.now.slots };

    // The trait's clause is written out, since inheriting it makes each call dearer to prove.
    fn into_iter(self) -> Iter<'a, P, T, DirectArena<P, T, S>>
        ensures { result ≡ entries self.now.slots }
    {
        self.iter()
    }
}
