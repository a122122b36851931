//! The calls of a direct arena over its own stack, the one on the heap.
//!
//! They are those of the traits, under the same names and with the same clauses but those that say nothing here. A call on
//! a named direct arena comes here, for the reason that is told where an `Arena` has its own.

ghost use Rattle.std.specs.Prelude.{◌≡◌, ◌≢◌, ◌≤◌, false, is_some, IsSome, None, option_copied};
ghost use Rattle.std.specs.Borrow.{sem, LendsIf};
ghost use Rattle.std.specs.Option.{option_copied_mut};
ghost use Rattle.triple_arena_ptr.specs.Pointers.{Pointer};
ghost use Rattle.triple_arena_traits.specs.Entries.{look_up};
ghost use Rattle.triple_arena_traits.specs.Ending.{told_of};
ghost use Rattle.triple_arena_direct_arena.specs.DirectState.{direct_len, direct_capacity, SlotsFit, direct_with_value, direct_removed};

use crate::direct_arena::DirectArena;
use triple_arena_base::InvalidationResult;
use triple_arena_ptr::Ptr;
use triple_arena_traits::{ArenaTrait, LendingArena};

impl<P: Ptr, T> DirectArena<P, T> {
    /// As [`ArenaTrait::len`].
    pub fn len(&self) -> usize
        ensures value { result ≡ direct_len self.now }
        ensures fits { direct_len self.now ≤ direct_capacity self.now }
        ensures valid { SlotsFit self.now }
    {
        ArenaTrait::len(self)
    }

    /// As [`ArenaTrait::get`].
    pub fn get(&self, p: P) -> Option<&T>
        ensures value { option_copied result ≡ look_up self.now.slots (P.numbers p) }
    {
        ArenaTrait::get(self, p)
    }

    /// As [`ArenaTrait::contains`].
    pub fn contains(&self, p: P) -> bool
        ensures value { result ≡ is_some (look_up self.now.slots (P.numbers p)) }
    {
        ArenaTrait::contains(self, p)
    }

    /// As [`ArenaTrait::get_mut`].
    pub fn get_mut(&mut self, p: P) -> Option<&mut T>
        ensures value { option_copied_mut result ≡ look_up self.old.slots (P.numbers p) }
        ensures* writes_back { sem 𝓛 (LendsIf ⟦<DirectArena<P, T> as LendingArena>⟧.arena_row
            T.row self.entry result (direct_with_value self.old (P.numbers p).0) self.old) }
    {
        ArenaTrait::get_mut(self, p)
    }

    /// As [`ArenaTrait::remove`].
    pub fn remove(&mut self, p: P) -> InvalidationResult<T>
        ensures answer { result ≡ told_of false (look_up self.old.slots (P.numbers p)) }
        ensures done { IsSome (look_up self.old.slots (P.numbers p))
            → self.new ≡ direct_removed self.old (P.numbers p).0 }
        ensures gone { look_up self.new.slots (P.numbers p) ≡ None }
        ensures others { (q : Pointer) → q ≢ P.numbers p
            → look_up self.new.slots q ≡ look_up self.old.slots q }
        ensures unchanged { look_up self.old.slots (P.numbers p) ≡ None → self.new ≡ self.old }
    {
        ArenaTrait::remove(self, p)
    }
}
