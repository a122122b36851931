//! Steps of an advancer over an arena.

ghost use Rattle.std.specs.Prelude.{◌<◌, IsSome};
ghost use Rattle.std.specs.Option.{option_map};
ghost use Rattle.triple_arena_ptr.specs.Numbers.{greatest_index};
ghost use Rattle.triple_arena_traits.specs.Walks.{steps_left, Steps};

use super::Arena;
use triple_arena_base::Advancer;
use triple_arena_ptr::Ptr;
use triple_arena_slots::ArenaSlot;
use triple_arena_stack::NonZeroInxGenericStack;
use triple_arena_traits::ArenaTrait;
use triple_arena_traits::arena_iterators::PtrAdvancer;

impl<P: Ptr, T, S: NonZeroInxGenericStack<ArenaSlot<P, T>>> Advancer<Arena<P, T, S>>
    for PtrAdvancer<P> {
    type Item = P;

    ghost advances = { λ before arena answer after.
        Steps (greatest_index P.Inx.greatest) arena.slots before (option_map P.numbers answer) after };

    ghost left = { λ s _. steps_left (greatest_index P.Inx.greatest) s };

    #[tactic(auto, using(triple_arena_traits::specs::laws::WalkLaws::fewer_left))]
    // The trait's clauses are written out, since inheriting them makes each call dearer to prove.
    #[inline(always)]
    fn advance(&mut self, arena: &Arena<P, T, S>) -> Option<P>
        ensures steps { Steps (greatest_index P.Inx.greatest) arena.now.slots self.old
            (option_map P.numbers result) self.new }
        ensures fewer { IsSome result
            → steps_left (greatest_index P.Inx.greatest) self.new
            < steps_left (greatest_index P.Inx.greatest) self.old }
    {
        // No slot is past the greatest index.
        let _capacity = arena.capacity();
        self.step::<T, ArenaSlot<P, T>, S>(arena.slots.slots.uncounted_stack())
    }

    fn empty() -> Self {
        PtrAdvancer::from(None)
    }
}
