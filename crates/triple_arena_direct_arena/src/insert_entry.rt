//! The place of a value that is not inserted yet.

ghost use Rattle.std.specs.Prelude.{◌≡◌, ◌↔◌, IfOk, IsTrue};
ghost use Rattle.std.specs.Borrow.{sem, Lends};
ghost use Rattle.triple_arena_traits.specs.DirectInsertion.{IsVacant, DirectInsertAnswer};
ghost use Rattle.triple_arena_direct_arena.specs.DirectState.{direct_capacity, inserted_at};
ghost use Rattle.triple_arena_direct_arena.specs.DirectInsertEntry.{direct_entry_pointer, direct_entry_reference, direct_entry_arena, direct_entry_lender, direct_entry_rests};

use crate::direct_arena::DirectArena;
use crate::slot::DirectSlot;
use triple_arena_base::DirectInsertionError;
use triple_arena_ptr::Ptr;
use triple_arena_stack::{NonZeroInxGenericStack, NonZeroInxVec};
use triple_arena_traits::{
    ArenaDirectInsertEntryTrait, ArenaDirectInsertTrait, ArenaTrait, LendingArena,
};

/// A place in a direct arena, under a pointer of the caller's choice.
///
/// Dropped, it changes nothing.
pub struct ArenaDirectInsertEntry<
    'a,
    P: Ptr,
    T,
    S: NonZeroInxGenericStack<DirectSlot<P, T>> = NonZeroInxVec<DirectSlot<P, T>>,
> {
    p: P,
    arena: &'a mut DirectArena<P, T, S>,
}

impl<'a, P: Ptr, T, S: NonZeroInxGenericStack<DirectSlot<P, T>>> ArenaDirectInsertEntryTrait<
    'a,
    P,
    T,
> for ArenaDirectInsertEntry<'a, P, T, S> {
    ghost has_place = { λ entry. IsVacant (direct_entry_arena entry).slots
        (direct_capacity (direct_entry_arena entry)) (P.numbers (direct_entry_pointer entry)).0 };

    // The trait's clause is written out, since inheriting it makes each call dearer to prove.
    fn has_place(&self) -> bool
        ensures { IsTrue result ↔ IsVacant (direct_entry_arena self.now).slots
            (direct_capacity (direct_entry_arena self.now))
            (P.numbers (direct_entry_pointer self.now)).0 }
    {
        self.arena.can_direct_insert(self.p)
    }

    fn insert(self, t: T) -> &'a mut T
        requires { IsVacant (direct_entry_arena self).slots
            (direct_capacity (direct_entry_arena self)) (P.numbers (direct_entry_pointer self)).0 }
        ensures value { result.now ≡ t }
        ensures* writes_back { sem 𝓛 (Lends
            ⟦<DirectArena<P, T, S> as LendingArena>⟧.arena_row
            T.row (direct_entry_reference self.entry) result
            (inserted_at (direct_entry_arena self.entry)
            (P.numbers (direct_entry_pointer self.entry)))) }
    {
        let ArenaDirectInsertEntry { p, arena } = self;
        arena.direct_insert_reserved(p, t);
        arena.get_mut(p).unwrap()
    }
}

impl<P: Ptr, T, S: NonZeroInxGenericStack<DirectSlot<P, T>>> DirectArena<P, T, S> {
    /// A place under `p`. It takes no memory; every generation is accepted, 1 too.
    ///
    /// `NotWithinCapacity` exactly where the index of `p` is above the capacity, else
    /// `ExistingElementAtIndex` exactly where an entry stands there; then the arena is unchanged.
    pub fn direct_insert_within_capacity(
        &mut self,
        p: P,
    ) -> Result<ArenaDirectInsertEntry<'_, P, T, S>, DirectInsertionError>
        ensures variant { DirectInsertAnswer self.old.slots (direct_capacity self.old)
            (P.numbers p).0 result }
        ensures arena { IfOk result (λ entry. direct_entry_arena entry ≡ self.old) }
        ensures pointer { IfOk result (λ entry. direct_entry_pointer entry ≡ p) }
        ensures same_reference { IfOk result (λ entry. direct_entry_lender entry
            ≡ self.entry.ghost_name) }
        ensures* refused { sem 𝓛 (direct_entry_rests
            ⟦<DirectArena<P, T, S> as LendingArena>⟧.arena_row self.entry result) }
    {
        self.check_direct_insert(p)?;
        Ok(ArenaDirectInsertEntry { p, arena: self })
    }
}

impl<P: Ptr, T, S: NonZeroInxGenericStack<DirectSlot<P, T>>> Drop
    for ArenaDirectInsertEntry<'_, P, T, S> {
    fn drop(self)
        ensures { self.exit.1.0.now ≡ self.entry.arena.now }
    {
        let ArenaDirectInsertEntry { p: _, arena: _ } = self;
    }
}
