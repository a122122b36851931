//! Walks over a strict arena.

ghost use Rattle.std.specs.Prelude.{◌≡◌, ◌<◌, IsSome};
ghost use Rattle.std.specs.Option.{option_map};
ghost use Rattle.triple_arena_ptr.specs.Numbers.{greatest_index};
ghost use Rattle.triple_arena_traits.specs.Walks.{entries, keys, values, standing_at, steps_left, Steps, IsAtFirst};

use super::StrictArena;
use triple_arena::arena_iterators::{Iter, PtrAdvancer, Ptrs, Vals};
use triple_arena::{Arena, ArenaSlot, ArenaTrait, CompactArenaTrait};
use triple_arena_base::Advancer;
use triple_arena_ptr::{Ptr, PtrInx};
use triple_arena_stack::NonZeroInxGenericStack;

impl<P: Ptr, T, S: NonZeroInxGenericStack<ArenaSlot<P, T>>> StrictArena<P, T, S> {
    /// The pointers of the entries, in the order of their indexes.
    pub fn ptrs(&self) -> Ptrs<'_, P, T, Arena<P, T, S>>
        ensures { result ≡ keys self.now.slots }
    {
        self.arena.ptrs()
    }

    /// The values of the entries, in the order of their indexes.
    pub fn vals(&self) -> Vals<'_, P, T, Arena<P, T, S>>
        ensures { result ≡ values self.now.slots }
    {
        self.arena.vals()
    }

    /// The pointers and the values of the entries, in the order of their indexes.
    pub fn iter(&self) -> Iter<'_, P, T, Arena<P, T, S>>
        ensures { result ≡ entries self.now.slots }
    {
        self.arena.iter()
    }

    /// A forward advancer at the entry of least index, or nowhere where there is no entry.
    pub fn advancer(&self) -> PtrAdvancer<P>
        ensures { IsAtFirst self.now.slots result }
    {
        self.arena.advancer()
    }

    /// An advancer at `inx`, forward or in reverse. Past the greatest index a forward one is
    /// nowhere, and one in reverse is at the greatest.
    pub fn advancer_inx(&self, inx: P::Inx, reverse: bool) -> PtrAdvancer<P>
        ensures { result ≡ standing_at (greatest_index P.Inx.greatest) (P.Inx.number inx) reverse }
    {
        self.arena.advancer_inx(inx, reverse)
    }
}

impl<P: Ptr, T, S: NonZeroInxGenericStack<ArenaSlot<P, T>>> Advancer<StrictArena<P, T, S>>
    for PtrAdvancer<P> {
    type Item = P;

    ghost advances = { λ before arena answer after.
        Steps (greatest_index P.Inx.greatest) arena.slots before (option_map P.numbers answer) after };

    ghost left = { λ s _. steps_left (greatest_index P.Inx.greatest) s };

    // The trait's clauses are written out, since inheriting them makes each call dearer to prove.
    fn advance(&mut self, arena: &StrictArena<P, T, S>) -> Option<P>
        ensures steps { Steps (greatest_index P.Inx.greatest) arena.now.slots self.old
            (option_map P.numbers result) self.new }
        ensures fewer { IsSome result
            → steps_left (greatest_index P.Inx.greatest) self.new
            < steps_left (greatest_index P.Inx.greatest) self.old }
    {
        self.advance(arena.arena())
    }

    fn empty() -> Self {
        PtrAdvancer::from(None)
    }
}

impl<'a, P: Ptr, T, S: NonZeroInxGenericStack<ArenaSlot<P, T>>> IntoIterator
    for &'a StrictArena<P, T, S> {
    type Item = (P, &'a T);

    type IntoIter = Iter<'a, P, T, Arena<P, T, S>>;

    ghost into_iter_gives = { λ arena iter. iter ≡ entries arena.now.slots };

    // The trait's clause is written out, since inheriting it makes each call dearer to prove.
    fn into_iter(self) -> Iter<'a, P, T, Arena<P, T, S>>
        ensures { result ≡ entries self.now.slots }
    {
        self.iter()
    }
}
