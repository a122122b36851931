//! The iterators of an arena.

ghost use Rattle.std.specs.Prelude.{◌≡◌};
ghost use Rattle.triple_arena_traits.specs.Walks.{entries};

use crate::base_arena::Arena;
use triple_arena_ptr::Ptr;
use triple_arena_slots::ArenaSlot;
use triple_arena_stack::NonZeroInxGenericStack;
use triple_arena_traits::CompactArenaTrait;
use triple_arena_traits::arena_iterators::Iter;

impl<'a, P: Ptr, T, S: NonZeroInxGenericStack<ArenaSlot<P, T>>> IntoIterator
    for &'a Arena<P, T, S> {
    type Item = (P, &'a T);

    type IntoIter = Iter<'a, P, T, Arena<P, T, S>>;

    ghost into_iter_gives = { λ arena iter. iter ≡ entries arena.now.slots };

    // The trait's clause is written out, since inheriting it makes each call dearer to prove.
    fn into_iter(self) -> Iter<'a, P, T, Arena<P, T, S>>
        ensures { result ≡ entries self.now.slots }
    {
        self.iter()
    }
}
