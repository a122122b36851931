//! Insertion into an arena that is told the pointers.

ghost use Rattle.std.specs.Prelude.{◌≡◌, ◌≢◌, ℕ, ◌+◌, ◌<◌, ◌↔◌, IsTrue, Some};
ghost use Rattle.triple_arena_ptr.specs.Pointers.{Pointer};
ghost use Rattle.triple_arena_traits.specs.Entries.{look_up, entry_count, ChangesAt};
ghost use Rattle.triple_arena_traits.specs.DirectInsertion.{IsVacant, DirectInsertAnswer};

use crate::arena_trait::ArenaTrait;
use triple_arena_base::DirectInsertionError;
use triple_arena_ptr::{Ptr, PtrInx};

/// An arena whose insertions are told the pointers of the new entries.
///
/// An entry can be put under a pointer where its index is at most the capacity, and no entry stands
/// there. Every generation is accepted.
pub trait ArenaDirectInsertTrait<P: Ptr, T>: ArenaTrait<P, T> {
    // what an insertion under a pointer leaves
    ghost inserted_at: { Self → Pointer → T → Self };

    /// Inserts `t` under `p`, on the condition that `p` has a place, which
    /// [`Self::can_direct_insert`] tells. It takes no memory, and pushes the slots that are missing
    /// below the index.
    fn direct_insert_reserved(&mut self, p: P, t: T)
        requires { IsVacant (Self.slots self.old) (Self.capacity self.old) (P.numbers p).0 }
        ensures inserted { self.new ≡ inserted_at self.old (P.numbers p) t }
        ensures found { look_up (Self.slots self.new) (P.numbers p) ≡ Some t }
        ensures others { (q : Pointer) → q ≢ P.numbers p
            → look_up (Self.slots self.new) q ≡ look_up (Self.slots self.old) q }
        ensures limit { Self.limit self.new ≡ Self.limit self.old }
        ensures capacity { Self.capacity self.new ≡ Self.capacity self.old };

    /// Whether an insertion under `p` has a place, and else why not.
    ///
    /// `NotWithinCapacity` exactly where the index of `p` is above the capacity, else
    /// `ExistingElementAtIndex` exactly where an entry stands there.
    fn check_direct_insert(&self, p: P) -> Result<(), DirectInsertionError>
        ensures { DirectInsertAnswer (Self.slots self.now) (Self.capacity self.now)
            (P.numbers p).0 result };

    /// Whether an insertion under `p` has a place: its index is at most the capacity, and no entry
    /// stands there.
    fn can_direct_insert(&self, p: P) -> bool
        ensures { IsTrue result
            ↔ IsVacant (Self.slots self.now) (Self.capacity self.now) (P.numbers p).0 };

    // an insertion puts the value under the pointer, so that there is one entry more, and leaves
    // every other entry, limit and capacity
    ghost slots_inserted_at: { (arena : Self) (p : Pointer) (value : T) → 0 < p.0
        → ChangesAt (Self.slots arena) p.0 (Some (p.1, value))
        (Self.slots (inserted_at arena p value)) };

    ghost len_inserted_at: { (arena : Self) (p : Pointer) (value : T) → 0 < p.0
        → IsVacant (Self.slots arena) (Self.capacity arena) p.0
        → entry_count (Self.slots (inserted_at arena p value))
        ≡ entry_count (Self.slots arena) + 1 };

    ghost limit_inserted_at: { (arena : Self) (p : Pointer) (value : T)
        → Self.limit (inserted_at arena p value) ≡ Self.limit arena };

    ghost capacity_inserted_at: { (arena : Self) (p : Pointer) (value : T)
        → Self.capacity (inserted_at arena p value) ≡ Self.capacity arena };
}

/// What can be done with a place under a pointer of the caller's choice.
pub trait ArenaDirectInsertEntryTrait<'a, P, T> {
    // the pointer has a place in the arena
    ghost has_place: { Self → Type 0 };

    /// Whether the entry has its place, as each entry that an arena gives has.
    fn has_place(&self) -> bool
        ensures { IsTrue result ↔ has_place self.now };

    /// Inserts `t` under the pointer that the entry was asked for, and gives the value in the arena.
    /// It takes no memory, and has no refusal.
    ///
    /// The entry must have its place, as each entry that an arena gives has: by `variant` and
    /// `arena` of `direct_insert_within_capacity`. [`Self::has_place`] tells it of any other. The
    /// arena is as after an insertion of what was last written through the reference.
    fn insert(self, t: T) -> &'a mut T
        requires { has_place self }
        ensures value { result.now ≡ t };
}
