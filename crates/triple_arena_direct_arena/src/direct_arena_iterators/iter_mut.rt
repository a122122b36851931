//! The iterators that lend each value of an arena for writing.

ghost use Rattle.std.specs.Prelude.{◌≡◌, ◌<◌, ◌^◌, length};
ghost use Rattle.std.specs.Borrow.{sem};
ghost use Rattle.std.specs.Iterator.{YieldsFirstBy, item_count};
ghost use Rattle.triple_arena_direct_arena.specs.DirectState.{direct_len};
ghost use Rattle.triple_arena_traits.specs.Walks.{entries, values};
ghost use Rattle.triple_arena_traits.specs.Lent.{lent_rest, lent_name, lends_values};
ghost use Rattle.triple_arena_direct_arena.specs.DirectValues.{direct_with_values_of, DirectKeepsPointers};

use crate::direct_arena::DirectArena;
use crate::slot::DirectSlot;
use std::marker::Model;
use std::num::NonZeroUsize;
use triple_arena_ptr::{Ptr, PtrGen, PtrInx};
use triple_arena_stack::NonZeroInxGenericStack;
use triple_arena_traits::{ArenaTrait, LendingArena, LentSlots};

/// The entries of a direct arena in the order of their indexes, each as its pointer and its value,
/// which is lent for writing.
///
/// A clause sees it as the entries that are left, each after its pointer, and the name of its loan.
#[derive(Drop)]
pub struct IterMut<'a, P: Ptr, T> {
    slots: LentSlots<'a, P, T, DirectSlot<P, T>>,
    // How many slots are left.
    left: usize,
    // The index of the first of them.
    next: NonZeroUsize,
    // How many entries are left.
    entries_left: usize,
}

impl<'a, P: Ptr, T> Model for IterMut<'a, P, T> {
    ghost use Rattle.std.specs.Prelude.{◌≡◌, ◌≤◌, ◌+◌, List, length, map};
    ghost use Rattle.std.specs.Borrow.{GName};
    ghost use Rattle.std.specs.Int.NonZero.{non_zero_usize_get};
    ghost use Rattle.triple_arena_ptr.specs.Numbers.{greatest_index};
    ghost use Rattle.triple_arena_ptr.specs.Pointers.{Pointer};
    ghost use Rattle.triple_arena_traits.specs.Walks.{entries_from};
    ghost use Rattle.triple_arena_direct_arena.specs.DirectSlot.{direct_slot_entry};

    ghost Value = { List (Pointer × T) × GName };

    ghost view = { λ s. (
      entries_from (non_zero_usize_get s.next)
          (map (direct_slot_entry P.Gen.number) s.slots.now),
      s.slots.tie,
    ) };

    // as many slots and as many entries are left, and the indexes are of the index type
    ghost invariant = { λ s. (s.left ≡ length s.slots.now)
        × (non_zero_usize_get s.next + s.left ≤ greatest_index P.Inx.greatest + 1)
        × (s.entries_left ≡ length (entries_from (non_zero_usize_get s.next)
        (map (direct_slot_entry P.Gen.number) s.slots.now))) };
}

impl<'a, P: Ptr, T: 'a> Iterator for IterMut<'a, P, T> {
    type Item = (P, &'a mut T);

    ghost next_gives = { YieldsFirstBy (λ item. (P.numbers item.0, item.1.now)) lent_rest };

    ghost remaining = { item_count lent_rest };

    fn size_hint(&self) -> (usize, Option<usize>) {
        (self.entries_left, Some(self.entries_left))
    }

    #[inline(always)]
    fn next(&mut self) -> Option<(P, &'a mut T)> {
        'slots: while self.left > 0 {
            let inx = self.next;
            self.left -= 1;
            self.next = inx.saturating_add(1);
            let generation = self.slots.generation();
            if let Some(value) = self.slots.pass() {
                let inx = P::Inx::try_from_usize(inx).unwrap();
                let p = P::_from_raw(inx, generation.unwrap());
                self.entries_left -= 1;
                return Some((p, value));
            }
        }
        None
    }
}

impl<'a, P: Ptr, T: 'a> ExactSizeIterator for IterMut<'a, P, T> {
    fn len(&self) -> usize {
        self.entries_left
    }
}

/// The values of a direct arena in the order of their indexes, each lent for writing.
///
/// A clause sees it as the values that are left, and the name of its loan.
#[derive(Drop)]
pub struct ValsMut<'a, P: Ptr, T> {
    entries: IterMut<'a, P, T>,
}

impl<'a, P: Ptr, T> Model for ValsMut<'a, P, T> {
    ghost use Rattle.std.specs.Prelude.{List, map};
    ghost use Rattle.std.specs.Borrow.{GName};

    ghost Value = { List T × GName };

    ghost view = { λ s. (map (λ e. e.1) s.entries.0, s.entries.1) };
}

impl<'a, P: Ptr, T: 'a> Iterator for ValsMut<'a, P, T> {
    type Item = &'a mut T;

    ghost next_gives = { YieldsFirstBy (λ value. value.now) lent_rest };

    ghost remaining = { item_count lent_rest };

    fn size_hint(&self) -> (usize, Option<usize>) {
        self.entries.size_hint()
    }

    #[inline(always)]
    fn next(&mut self) -> Option<&'a mut T> {
        let (_p, value) = self.entries.next()?;
        Some(value)
    }
}

impl<'a, P: Ptr, T: 'a> ExactSizeIterator for ValsMut<'a, P, T> {
    fn len(&self) -> usize {
        self.entries.len()
    }
}

impl<P: Ptr, T, S: NonZeroInxGenericStack<DirectSlot<P, T>>> DirectArena<P, T, S> {
    /// The entries in the order of their indexes, each as its pointer and its value, for writing.
    ///
    /// Once the loan ends, the arena has other values, and all else is as it was: each pointer is
    /// valid that was, and slots, room and limit stay. It takes no memory, and going over all entries
    /// touches each slot once.
    ///
    /// In a loop write `for (p, value) in &mut arena`.
    pub fn iter_mut(&mut self) -> IterMut<'_, P, T>
        ensures* writes_back { sem 𝓛 (lends_values ⟦<DirectArena<P, T, S> as LendingArena>⟧.arena_row
            self.entry (lent_name result) (direct_with_values_of self.old)) }
        ensures keeps { DirectKeepsPointers self.old }
        ensures rest { lent_rest result ≡ entries self.old.slots }
        ensures len { length (lent_rest result) ≡ direct_len self.old }
        ensures fits { direct_len self.old < 2 ^ 64 }
    {
        let left = self.slot_count();
        let entries_left = self.len();
        IterMut {
            slots: self.lend_slots(),
            left,
            next: NonZeroUsize::MIN,
            entries_left,
        }
    }

    /// The values in the order of their indexes, for writing; the rest is as for
    /// [`Self::iter_mut`].
    pub fn vals_mut(&mut self) -> ValsMut<'_, P, T>
        ensures* writes_back { sem 𝓛 (lends_values ⟦<DirectArena<P, T, S> as LendingArena>⟧.arena_row
            self.entry (lent_name result) (direct_with_values_of self.old)) }
        ensures keeps { DirectKeepsPointers self.old }
        ensures rest { lent_rest result ≡ values self.old.slots }
        ensures len { length (lent_rest result) ≡ direct_len self.old }
        ensures fits { direct_len self.old < 2 ^ 64 }
    {
        ValsMut {
            entries: self.iter_mut(),
        }
    }
}

impl<'a, P: Ptr, T, S: NonZeroInxGenericStack<DirectSlot<P, T>>> IntoIterator
    for &'a mut DirectArena<P, T, S> {
    type Item = (P, &'a mut T);

    type IntoIter = IterMut<'a, P, T>;

    ghost into_iter_gives = { λ arena it. lent_rest it ≡ entries arena.now.slots };

    /// As [`DirectArena::iter_mut`].
    fn into_iter(self) -> IterMut<'a, P, T>
        ensures* writes_back { sem 𝓛 (lends_values ⟦<DirectArena<P, T, S> as LendingArena>⟧.arena_row
            self.entry (lent_name result) (direct_with_values_of self.old)) }
        ensures keeps { DirectKeepsPointers self.old }
        ensures into_iter_gives { lent_rest result ≡ entries self.old.slots }
        ensures len { length (lent_rest result) ≡ direct_len self.old }
        ensures fits { direct_len self.old < 2 ^ 64 }
    {
        self.iter_mut()
    }
}
