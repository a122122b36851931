//! The slots of an arena: what is lent of them, and what changes many of them at once.

ghost use Rattle.std.specs.Prelude.{◌≡◌, ◌≤◌, ℕ, List, [], map, length, None};
ghost use Rattle.std.specs.Borrow.{sem};
ghost use Rattle.std.specs.Int.NonZero.{non_zero_usize_get};
ghost use Rattle.std.specs.Option.{option_map};
ghost use Rattle.triple_arena_ptr.specs.Numbers.{greatest_index};
ghost use Rattle.triple_arena_stack.specs.Capacity.{stack_capacity};
ghost use Rattle.triple_arena_traits.specs.ArenaState.{ArenaState};
ghost use Rattle.triple_arena_traits.specs.Entries.{entry_count};
ghost use Rattle.triple_arena_traits.specs.FreeList.{last_index, gaps, tidied};
ghost use Rattle.triple_arena_traits.specs.Walks.{entries};
ghost use Rattle.triple_arena_traits.specs.Compression.{compressed, rank};
ghost use Rattle.triple_arena_traits.specs.Moves.{Moves};
ghost use Rattle.triple_arena_traits.specs.Copying.{Copies};
ghost use Rattle.triple_arena_traits.specs.Transfers.{Transfers};
ghost use Rattle.triple_arena_slots.specs.Slot.{entry_of};
ghost use Rattle.triple_arena_slots.specs.Layout.{IsLinked};

use crate::slot::ArenaSlot;
use crate::slot_stack::SlotStack;
use std::num::NonZeroUsize;
use triple_arena_base::InvalidationOption;
use triple_arena_ptr::{Ptr, PtrGen, PtrInx};
use triple_arena_stack::NonZeroInxGenericStack;
use triple_arena_traits::entry_slots::shorten;
use triple_arena_traits::{CompactArenaTrait, close_up};

/// The slots of an arena. Each free one links to the next and to the one before, beginning at the
/// root.
///
/// Only through `SlotStack` does it reach a slot. What this file's calls lend, or do to many slots, isn't
/// counted, but for the links that `copy` and `tidy` set; the calls of `entries.rt` and `free_list.rt` count
/// each touch.
///
/// The clauses speak of the arena states that the slots show, together with the number of entries,
/// which the arena counts.
#[derive(Drop)]
pub struct Slots<P: Ptr, T, S: NonZeroInxGenericStack<ArenaSlot<P, T>>> {
    /// The slots in their stack.
    pub slots: SlotStack<P, T, ArenaSlot<P, T>, S>,
    // The first free slot, if there is one.
    pub(crate) root: Option<NonZeroUsize>,
}

impl<P: Ptr, T, S: NonZeroInxGenericStack<ArenaSlot<P, T>>> Slots<P, T, S> {
    ghost use Rattle.triple_arena_slots.specs.Lends.{lends_slots};
    ghost use Rattle.triple_arena_slots.specs.Shown.{SlotsShow};

    /// The slots of a stack that has none.
    pub fn over(stack: S) -> Self
        ensures stack { result.slots.stack ≡ stack }
        ensures root { result.root ≡ None }
        ensures steps { result.slots.steps.count ≡ 0 }
    {
        Slots {
            slots: SlotStack::over(stack),
            root: None,
        }
    }

    /// The slots, for writing.
    pub fn as_mut_slice(&mut self) -> &mut [ArenaSlot<P, T>]
        ensures* writes_back { sem 𝓛 (lends_slots P.row T.row S.row P.Inx.row P.Gen.row
            P.Inx.PtrInx.own P.Inx.Debug P.Inx.Hash.own P.Inx.PartialEq P.Inx.PartialOrd.own
            P.Inx.Ord.own S.items S.with_items self.entry result) }
        ensures value { result.now ≡ S.items self.old.slots.stack }
    {
        self.slots.uncounted_as_mut_slice()
    }

    /// Drops all slots.
    pub fn clear(&mut self)
    where
        T: Drop,
        ensures items { S.items self.new.slots.stack ≡ [] }
        ensures root { self.new.root ≡ None }
        ensures room { S.room self.new.slots.stack ≡ S.room self.old.slots.stack }
        ensures limit { S.limit self.new.slots.stack ≡ S.limit self.old.slots.stack }
        ensures steps { self.new.slots.steps.count ≡ self.old.slots.steps.count }
    {
        self.slots.uncounted_stack_mut().clear();
        self.root = None;
    }

    /// Pops the free slots at the end, and links the others in rising order.
    pub fn tidy(&mut self)
        requires { length (S.items self.old.slots.stack) ≤ greatest_index P.Inx.greatest }
        ensures shows { (s : ArenaState T) (len : ℕ)
            → SlotsShow P.Gen.number S.items self.old len s
            → SlotsShow P.Gen.number S.items self.new len (tidied s) }
        ensures room { S.room self.new.slots.stack ≡ S.room self.old.slots.stack }
        ensures limit { S.limit self.new.slots.stack ≡ S.limit self.old.slots.stack }
        ensures steps { self.old.slots.steps.count ≤ self.new.slots.steps.count }
    {
        // They leave no link behind: all are set anew.
        shorten::<P, T, ArenaSlot<P, T>, S>(self.slots.uncounted_stack_mut(), 0);
        self.relink();
    }

    /// Moves the entries to the first slots, in their order, under this generation, with the values
    /// that the closure gives back for them, and leaves no other slot.
    pub fn close_up<F: FnMut(P, T, P) -> T>(&mut self, generation: P::Gen, f: F)
        requires callable { F.IsAlwaysCallable f }
        requires indexed { length (S.items self.old.slots.stack) ≤ greatest_index P.Inx.greatest }
        ensures moved { (s : ArenaState T) (len : ℕ)
            → SlotsShow P.Gen.number S.items self.old len s
            → (values : List T) × Moves P.numbers F.step (rank s (P.Gen.number generation)) f
            (entries s.slots) values
            × SlotsShow P.Gen.number S.items self.new len
            (compressed s (P.Gen.number generation) values) }
        ensures room { S.room self.new.slots.stack ≡ S.room self.old.slots.stack }
        ensures limit { S.limit self.new.slots.stack ≡ S.limit self.old.slots.stack }
        ensures steps { self.new.slots.steps.count ≡ self.old.slots.steps.count }
    {
        self.root = None;
        close_up::<P, T, ArenaSlot<P, T>, S, F>(
            self.slots.uncounted_stack_mut(),
            Some(generation),
            f,
        );
    }

    /// Holds the entries of an arena alone, under the same pointers, each mapped by the closure, up to
    /// its first refusal, and links the gaps in rising order. Gives the number of entries.
    pub fn copy<U, E, A: CompactArenaTrait<P, U>, M: FnMut(P, &U) -> Result<T, E>>(
        &mut self,
        source: &A,
        f: M,
    ) -> (usize, Result<(), E>)
    where
        T: Drop,
        requires callable { M.IsAlwaysCallable f }
        requires indexed { last_index (A.slots source.now) ≤ greatest_index P.Inx.greatest }
        requires fits { last_index (A.slots source.now)
            ≤ stack_capacity (S.room self.old.slots.stack) (S.limit self.old.slots.stack) }
        ensures copied { Copies P.numbers M.step f (entries (A.slots source.now)) result.1
            (map (entry_of P.Gen.number) (S.items self.new.slots.stack)) }
        ensures ends { length (S.items self.new.slots.stack) ≤ last_index (A.slots source.now) }
        ensures linked { IsLinked (S.items self.new.slots.stack)
            (option_map non_zero_usize_get self.new.root)
            (gaps 1 (map (entry_of P.Gen.number) (S.items self.new.slots.stack))) }
        ensures count { result.0
            ≡ entry_count (map (entry_of P.Gen.number) (S.items self.new.slots.stack)) }
        ensures room { S.room self.new.slots.stack ≡ S.room self.old.slots.stack }
        ensures limit { S.limit self.new.slots.stack ≡ S.limit self.old.slots.stack }
        ensures steps { self.old.slots.steps.count ≤ self.new.slots.steps.count }
    {
        self.clear();
        let (count, answer) = self.slots.uncounted_copy(source, f);
        // Where each slot has an entry, there is no link to set.
        if count < self.slots.len() {
            self.relink();
        }
        (count, answer)
    }

    /// Takes the entries of an arena out, one by one in order, and holds them alone, from index 1 on,
    /// each mapped by the closure, under this generation. Gives their number.
    pub fn take_over<
        Q: Ptr,
        U,
        A: CompactArenaTrait<Q, U>,
        M: FnMut(Q, InvalidationOption<U>, P) -> T,
    >(&mut self, generation: P::Gen, source: &mut A, f: M) -> usize
    where
        T: Drop,
        requires callable { M.IsAlwaysCallable f }
        requires fits { entry_count (A.slots source.old)
            ≤ stack_capacity (S.room self.old.slots.stack) (S.limit self.old.slots.stack) }
        requires indexed { entry_count (A.slots source.old) ≤ greatest_index P.Inx.greatest }
        ensures transferred { Transfers Q.numbers P.numbers M.step A.slots A.fits A.removes
            A.ending_wraps Q.Gen.generations (P.Gen.number generation) f source.old source.new
            (map (entry_of P.Gen.number) (S.items self.new.slots.stack)) }
        ensures emptied { entry_count (A.slots source.new) ≡ 0 }
        ensures count { result ≡ entry_count (A.slots source.old) }
        ensures many { length (S.items self.new.slots.stack) ≡ entry_count (A.slots source.old) }
        ensures root { self.new.root ≡ None }
        ensures room { S.room self.new.slots.stack ≡ S.room self.old.slots.stack }
        ensures limit { S.limit self.new.slots.stack ≡ S.limit self.old.slots.stack }
        ensures steps { self.new.slots.steps.count ≡ self.old.slots.steps.count }
    {
        self.clear();
        self.slots.uncounted_take_over(generation, source, f)
    }
}
