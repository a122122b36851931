//! Look-ups in a direct arena that have no refusal.

ghost use Rattle.std.specs.Prelude.{◌≡◌, Some, IsSome};
ghost use Rattle.std.specs.Borrow.{sem, Lends};
ghost use Rattle.triple_arena_traits.specs.Entries.{entry_in, look_up};
ghost use Rattle.triple_arena_traits.specs.DisjointEntries.{value_of};
ghost use Rattle.triple_arena_direct_arena.specs.DirectState.{direct_with_value};

use crate::direct_arena::DirectArena;
use crate::slot::DirectSlot;
use std::ops::{Index, IndexMut};
use triple_arena_ptr::{Ptr, PtrInx};
use triple_arena_stack::NonZeroInxGenericStack;
use triple_arena_traits::{ArenaTrait, LendingArena};

impl<P: Ptr, T, S: NonZeroInxGenericStack<DirectSlot<P, T>>> DirectArena<P, T, S> {
    /// The value of the entry at `inx`.
    ///
    /// There must be one, which `generation_at` and `get_inx` tell.
    pub fn get_inx_unwrap(&self, inx: P::Inx) -> &T
        requires { IsSome (entry_in self.now.slots (P.Inx.number inx)) }
        ensures { value_of (entry_in self.now.slots (P.Inx.number inx)) ≡ Some result.now }
    {
        let (_generation, value) = self.get_inx(inx).unwrap();
        value
    }

    /// The value of the entry at `inx`, for writing.
    ///
    /// There must be one, which `generation_at` and `get_inx` tell.
    pub fn get_inx_mut_unwrap(&mut self, inx: P::Inx) -> &mut T
        requires { IsSome (entry_in self.old.slots (P.Inx.number inx)) }
        ensures value { value_of (entry_in self.old.slots (P.Inx.number inx)) ≡ Some result.now }
        ensures* writes_back { sem 𝓛 (Lends
            ⟦<DirectArena<P, T, S> as LendingArena>⟧.arena_row
            T.row self.entry result (direct_with_value self.old (P.Inx.number inx))) }
    {
        self.get_inx_mut(inx).unwrap()
    }
}

impl<P: Ptr, T, S: NonZeroInxGenericStack<DirectSlot<P, T>>> Index<P> for DirectArena<P, T, S> {
    type Output = T;

    // the pointer is valid
    ghost can_index = { λ arena p. IsSome (look_up arena.slots (P.numbers p)) };

    // the value under it
    ghost index_gives = { λ arena p value. look_up arena.slots (P.numbers p) ≡ Some value };

    /// The value under `p`. The pointer must be valid, which `contains` tells.
    fn index(&self, p: P) -> &T {
        self.get(p).unwrap()
    }
}

impl<P: Ptr, T, S: NonZeroInxGenericStack<DirectSlot<P, T>>> IndexMut<P> for DirectArena<P, T, S> {
    /// The value under `p`, for writing. The pointer must be valid, which `contains` tells.
    fn index_mut(&mut self, p: P) -> &mut T
        requires { IsSome (look_up self.old.slots (P.numbers p)) }
        ensures value { look_up self.old.slots (P.numbers p) ≡ Some result.now }
        ensures* writes_back { sem 𝓛 (Lends
            ⟦<DirectArena<P, T, S> as LendingArena>⟧.arena_row
            T.row self.entry result (direct_with_value self.old (P.numbers p).0)) }
    {
        self.get_mut(p).unwrap()
    }
}
