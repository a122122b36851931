//! The counter of an arena.

ghost use Rattle.std.specs.Prelude.{◌≡◌, []};
ghost use Rattle.triple_arena_ptr.specs.Numbers.{raise, wraps};
ghost use Rattle.triple_arena_traits.specs.Ending.{told};
ghost use Rattle.triple_arena_traits.specs.Histories.{Fits, Continues, CountsUp};

use crate::base_arena::Arena;
use triple_arena_base::InvalidationOption;
use triple_arena_ptr::{Ptr, PtrGen};
use triple_arena_slots::ArenaSlot;
use triple_arena_stack::NonZeroInxGenericStack;
use triple_arena_traits::answers::told;

impl<P: Ptr, T, S: NonZeroInxGenericStack<ArenaSlot<P, T>>> Arena<P, T, S> {
    /// The counter: the generation of the next entry.
    pub fn generation(&self) -> P::Gen
        ensures { P.Gen.number result ≡ self.now.counter }
    {
        self.counter
    }

    /// Sets the counter. Pointers that were given before may come to name later entries.
    pub fn set_generation(&mut self, generation: P::Gen)
        ensures { self.new ≡ record self.old { counter = P.Gen.number generation } }
    {
        self.counter = generation;
    }

    /// Raises the counter, as `generational_inc` of its type does: past the greatest generation it
    /// begins anew at 2, and the answer tells of that wrap.
    pub fn inc_generation(&mut self) -> InvalidationOption<()>
        ensures answer { result ≡ told (wraps P.Gen.generations self.old.counter) tt }
        ensures state { self.new
            ≡ record self.old { counter = raise P.Gen.generations self.old.counter } }
        ensures history { CountsUp P.Gen.generations (wraps P.Gen.generations
            self.old.counter) → Continues Fits self.old [] self.new }
    {
        let (counter, wrapped) = P::Gen::generational_inc(self.counter);
        self.counter = counter;
        told(wrapped, ())
    }
}
