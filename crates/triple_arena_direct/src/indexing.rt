//! Look-ups in a strict arena that have no refusal.

ghost use Rattle.std.specs.Prelude.{◌≡◌, true, [], Some, IsSome};
ghost use Rattle.std.specs.Borrow.{sem, Lends};
ghost use Rattle.triple_arena_ptr.specs.Pointers.{Pointer};
ghost use Rattle.triple_arena_traits.specs.Entries.{look_up};
ghost use Rattle.triple_arena_traits.specs.ArenaState.{with_value};
ghost use Rattle.triple_arena_traits.specs.Histories.{Fits, Continues};
ghost use Rattle.triple_arena_direct.specs.Gone.{IsGoneForGood};
ghost use Rattle.triple_arena_direct.specs.StrictCalls.{IsStrictStep, to_write};

use crate::strict_arena::StrictArena;
use std::ops::{Index, IndexMut};
use triple_arena::{ArenaSlot, LendingArena};
use triple_arena_ptr::{Ptr, PtrGen};
use triple_arena_stack::NonZeroInxGenericStack;

impl<P: Ptr, T, S: NonZeroInxGenericStack<ArenaSlot<P, T>>> Index<P> for StrictArena<P, T, S> {
    type Output = T;

    // the pointer is valid
    ghost can_index = { λ arena p. IsSome (look_up arena.slots (P.numbers p)) };

    // the value under it
    ghost index_gives = { λ arena p value. look_up arena.slots (P.numbers p) ≡ Some value };

    /// The value under `p`. The pointer must be valid, which `contains` tells.
    fn index(&self, p: P) -> &T {
        self.get(p).unwrap()
    }
}

impl<P: Ptr, T, S: NonZeroInxGenericStack<ArenaSlot<P, T>>> IndexMut<P> for StrictArena<P, T, S> {
    /// The value under `p`, for writing. The pointer must be valid, which `contains` tells.
    fn index_mut(&mut self, p: P) -> &mut T
        requires { IsSome (look_up self.old.slots (P.numbers p)) }

        // The value is lent; once the loan ends, what was written stands in its place, and nothing
        // else has changed.
        ensures value { look_up self.old.slots (P.numbers p) ≡ Some result.now }
        ensures* writes_back { sem 𝓛 (Lends ⟦<StrictArena<P, T, S> as LendingArena>⟧.arena_row T.row
            self.entry result (with_value self.old (P.numbers p).0)) }

        // It is a strict call, by which every history goes on, and what was gone for good stays so.
        ensures step { (value : T) → IsStrictStep S.kind P.Gen.generations self.old
            (to_write (P.numbers p) value) [] (with_value self.old (P.numbers p).0 value) }
        ensures written { (value : T)
            → Continues Fits self.old [] (with_value self.old (P.numbers p).0 value) }
        ensures stays_gone { P.Gen.generations.counting ≡ true → (value : T) (q : Pointer)
            → IsGoneForGood self.old q → IsGoneForGood (with_value self.old (P.numbers p).0 value) q }
    {
        self.get_mut(p).unwrap()
    }
}
