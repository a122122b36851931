//! Look-ups in an arena that have no refusal.

ghost use Rattle.std.specs.Prelude.{◌≡◌, [], Some, IsSome};
ghost use Rattle.std.specs.Borrow.{sem, Lends};
ghost use Rattle.std.specs.Option.{option_map};
ghost use Rattle.triple_arena_traits.specs.Entries.{look_up};
ghost use Rattle.triple_arena_traits.specs.ArenaState.{entry, with_value};
ghost use Rattle.triple_arena_traits.specs.Histories.{Fits, Continues};

use crate::base_arena::Arena;
use std::ops::{Index, IndexMut};
use triple_arena_ptr::{Ptr, PtrInx};
use triple_arena_slots::ArenaSlot;
use triple_arena_stack::NonZeroInxGenericStack;
use triple_arena_traits::{ArenaTrait, LendingArena};

impl<P: Ptr, T, S: NonZeroInxGenericStack<ArenaSlot<P, T>>> Arena<P, T, S> {
    /// The value of the entry at `inx`.
    ///
    /// There must be one, which `generation_at` and `get_inx` tell.
    pub fn get_inx_unwrap(&self, inx: P::Inx) -> &T
        requires { IsSome (entry self.now (P.Inx.number inx)) }
        ensures { option_map (λ e. e.1) (entry self.now (P.Inx.number inx)) ≡ Some result.now }
    {
        let (_generation, value) = self.get_inx(inx).unwrap();
        value
    }

    /// The value of the entry at `inx`, for writing.
    ///
    /// There must be one, which `generation_at` and `get_inx` tell.
    pub fn get_inx_mut_unwrap(&mut self, inx: P::Inx) -> &mut T
        requires { IsSome (entry self.old (P.Inx.number inx)) }
        ensures value { option_map (λ e. e.1) (entry self.old (P.Inx.number inx))
            ≡ Some result.now }
        ensures* writes_back { sem 𝓛 (Lends ⟦<Arena<P, T, S> as LendingArena>⟧.arena_row T.row
            self.entry result (with_value self.old (P.Inx.number inx))) }
        ensures written { (value : T)
            → Continues Fits self.old [] (with_value self.old (P.Inx.number inx) value) }
    {
        self.get_inx_mut(inx).unwrap()
    }
}

impl<P: Ptr, T, S: NonZeroInxGenericStack<ArenaSlot<P, T>>> Index<P> for Arena<P, T, S> {
    type Output = T;

    // the pointer is valid
    ghost can_index = { λ arena p. IsSome (look_up arena.slots (P.numbers p)) };

    // the value under it
    ghost index_gives = { λ arena p value. look_up arena.slots (P.numbers p) ≡ Some value };

    /// The value under `p`. The pointer must be valid, which `contains` tells.
    fn index(&self, p: P) -> &T {
        self.get(p).unwrap()
    }
}

impl<P: Ptr, T, S: NonZeroInxGenericStack<ArenaSlot<P, T>>> IndexMut<P> for Arena<P, T, S> {
    /// The value under `p`, for writing. The pointer must be valid, which `contains` tells.
    fn index_mut(&mut self, p: P) -> &mut T
        requires { IsSome (look_up self.old.slots (P.numbers p)) }
        ensures value { look_up self.old.slots (P.numbers p) ≡ Some result.now }
        ensures* writes_back { sem 𝓛 (Lends ⟦<Arena<P, T, S> as LendingArena>⟧.arena_row T.row
            self.entry result (with_value self.old (P.numbers p).0)) }
        ensures written { (value : T)
            → Continues Fits self.old [] (with_value self.old (P.numbers p).0 value) }
    {
        self.get_mut(p).unwrap()
    }
}
