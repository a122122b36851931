//! The end of an entry.

ghost use Rattle.std.specs.Prelude.{◌≡◌, ◌≤◌, ◌+◌, IsSome, Some};
ghost use Rattle.std.specs.Int.NonZero.{non_zero_usize_get};
ghost use Rattle.triple_arena_ptr.specs.Numbers.{raise, wraps};
ghost use Rattle.triple_arena_traits.specs.ArenaState.{entry};
ghost use Rattle.triple_arena_traits.specs.SlotSteps.{IsTouched};
ghost use Rattle.triple_arena_traits.specs.Ending.{removed};

use crate::base_arena::Arena;
use std::num::NonZeroUsize;
use triple_arena_ptr::{Ptr, PtrGen};
use triple_arena_slots::ArenaSlot;
use triple_arena_stack::NonZeroInxGenericStack;

impl<P: Ptr, T, S: NonZeroInxGenericStack<ArenaSlot<P, T>>> Arena<P, T, S> {
    // Takes out the entry at an index, and tells whether the counter wrapped.
    #[inline(always)]
    pub(super) fn take(&mut self, inx: NonZeroUsize) -> ((P::Gen, T), bool)
        requires { IsSome (entry self.old (non_zero_usize_get inx)) }
        ensures entry { entry self.old (non_zero_usize_get inx)
            ≡ Some (P.Gen.number result.0.0, result.0.1) }
        ensures wrapped { result.1 ≡ wraps P.Gen.generations self.old.counter }
        ensures state { IsTouched (removed (raise P.Gen.generations) self.old
            (non_zero_usize_get inx)) self.new }
        ensures steps { self.new.steps ≤ self.old.steps + 2 }
    {
        let taken = self.slots.vacate(inx);
        self.len -= 1;
        let (counter, wrapped) = P::Gen::generational_inc(self.counter);
        self.counter = counter;
        (taken, wrapped)
    }
}
