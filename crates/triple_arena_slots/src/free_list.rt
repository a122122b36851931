//! The free list that runs through the slots. Each touch of a slot is counted here.

ghost use Rattle.std.specs.Prelude.{◌≡◌, ◌≢◌, ◌≤◌, ◌+◌, ◌*◌, ◌-◌, ◌==◌, ℕ, cond, count_by, map, length, Some, None, IsSome};
ghost use Rattle.std.specs.Int.NonZero.{non_zero_usize_get};
ghost use Rattle.std.specs.Option.{option_map};
ghost use Rattle.triple_arena_ptr.specs.Numbers.{greatest_index};
ghost use Rattle.triple_arena_traits.specs.Items.{item};
ghost use Rattle.triple_arena_traits.specs.ArenaState.{ArenaState, is_free};
ghost use Rattle.triple_arena_traits.specs.FreeList.{gaps, without_free_end};
ghost use Rattle.triple_arena_traits.specs.Places.{number_or_zero};
ghost use Rattle.triple_arena_slots.specs.Slot.{entry_of, next_in, previous_in, touch_if};
ghost use Rattle.triple_arena_slots.specs.Layout.{IsLinked, LeadsTo, Begins, CanLeave, Leaves, without_last};
ghost use Rattle.triple_arena_traits.specs.SlotSteps.{RisesByAtMost};

use crate::slot::{ArenaSlot, FreeLink};
use crate::slots::Slots;
use std::num::NonZeroUsize;
use triple_arena_ptr::{Ptr, PtrGen, PtrInx};
use triple_arena_stack::NonZeroInxGenericStack;
use triple_arena_traits::EntrySlot;

impl<P: Ptr, T, S: NonZeroInxGenericStack<ArenaSlot<P, T>>> Slots<P, T, S> {
    ghost use Rattle.triple_arena_slots.specs.Shown.{SlotsShow, IsShown};

    /// The first free index, if there is one.
    pub fn root(&self) -> Option<NonZeroUsize>
        ensures { result ≡ self.now.root }
    {
        self.root
    }

    /// Pops the free slots at the end, and takes them out of the free list. The rest of it keeps its
    /// order. It touches at most 4 slots for each that goes, and one more.
    pub fn remove_free_end(&mut self)
        requires indexed { length (S.items self.old.slots.stack) ≤ greatest_index P.Inx.greatest }
        requires shown { IsShown P.Gen.number S.items self.old }
        ensures shows { (s : ArenaState T) (len : ℕ)
            → SlotsShow P.Gen.number S.items self.old len s
            → SlotsShow P.Gen.number S.items self.new len (without_free_end s) }
        ensures room { S.room self.new.slots.stack ≡ S.room self.old.slots.stack }
        ensures limit { S.limit self.new.slots.stack ≡ S.limit self.old.slots.stack }
        ensures bounded { RisesByAtMost (4 * (length (S.items self.old.slots.stack)
            - length (S.items self.new.slots.stack)) + 1)
            self.old.slots.steps.count self.new.slots.steps.count }
        ensures fewer { length (S.items self.new.slots.stack)
            ≤ length (S.items self.old.slots.stack) }
    {
        'pops: while self.ends_free() {
            self.pop_free();
        }
    }

    // Links the free slots in rising order.
    pub(crate) fn relink(&mut self)
        requires { length (S.items self.old.slots.stack) ≤ greatest_index P.Inx.greatest }
        ensures slots { map (entry_of P.Gen.number) (S.items self.new.slots.stack)
            ≡ map (entry_of P.Gen.number) (S.items self.old.slots.stack) }
        ensures linked { IsLinked (S.items self.new.slots.stack)
            (option_map non_zero_usize_get self.new.root)
            (gaps 1 (map (entry_of P.Gen.number) (S.items self.old.slots.stack))) }
        ensures room { S.room self.new.slots.stack ≡ S.room self.old.slots.stack }
        ensures limit { S.limit self.new.slots.stack ≡ S.limit self.old.slots.stack }
        ensures steps { self.old.slots.steps.count ≤ self.new.slots.steps.count }
    {
        self.root = None;
        let mut next = index_of(self.slots.len());
        'links: while let Some(inx) = next {
            if !self.slots.has_entry(inx) {
                self.free(inx).discard();
            }
            next = index_of(inx.get() - 1);
        }
    }

    /// Links the free slots in this order, which has the index of each once.
    pub fn link(&mut self, free: &[NonZeroUsize])
        requires indexed { length (S.items self.old.slots.stack) ≤ greatest_index P.Inx.greatest }
        requires once { (i : ℕ) → count_by (λ j. j == i) (map non_zero_usize_get free.now)
            ≡ cond (is_free (item (map (entry_of P.Gen.number) (S.items self.old.slots.stack)) i))
            1 0 }
        ensures slots { map (entry_of P.Gen.number) (S.items self.new.slots.stack)
            ≡ map (entry_of P.Gen.number) (S.items self.old.slots.stack) }
        ensures linked { IsLinked (S.items self.new.slots.stack)
            (option_map non_zero_usize_get self.new.root) (map non_zero_usize_get free.now) }
        ensures room { S.room self.new.slots.stack ≡ S.room self.old.slots.stack }
        ensures limit { S.limit self.new.slots.stack ≡ S.limit self.old.slots.stack }
        ensures steps { self.old.slots.steps.count ≤ self.new.slots.steps.count }
    {
        self.root = None;
        let mut at = free.len();
        'links: while at > 0 {
            at -= 1;
            self.free(free[at]).discard();
        }
    }

    // Puts a free slot at an index, as the first of the free list, and gives the slot that it
    // replaces. What was first is told as it is known in each case, so that the compiler branches on
    // it: a choice between two indexes would make each removal wait for the insertion before it. It is
    // inlined, so that the slot isn't copied through memory.
    #[inline(always)]
    pub(crate) fn free(&mut self, inx: NonZeroUsize) -> ArenaSlot<P, T>
        requires indexed { length (S.items self.old.slots.stack) ≤ greatest_index P.Inx.greatest }
        requires there { IsSome (item (S.items self.old.slots.stack) (non_zero_usize_get inx)) }
        requires other { option_map non_zero_usize_get self.old.root
            ≢ Some (non_zero_usize_get inx) }
        requires root_free { (j : ℕ) → option_map non_zero_usize_get self.old.root ≡ Some j
            → item (map (entry_of P.Gen.number) (S.items self.old.slots.stack)) j ≡ Some None }
        ensures slot { item (S.items self.old.slots.stack) (non_zero_usize_get inx) ≡ Some result }
        ensures begins { Begins P.Gen.number (S.items self.old.slots.stack)
            (S.items self.new.slots.stack)
            (option_map non_zero_usize_get self.old.root) (non_zero_usize_get inx) }
        ensures root { self.new.root ≡ Some inx }
        ensures room { S.room self.new.slots.stack ≡ S.room self.old.slots.stack }
        ensures limit { S.limit self.new.slots.stack ≡ S.limit self.old.slots.stack }
        ensures bounded { RisesByAtMost 2 self.old.slots.steps.count self.new.slots.steps.count }
    {
        match self.root {
            None => self.free_before(None, inx),
            Some(next) => self.free_before(Some(next), inx),
        }
    }

    // Puts a free slot at an index, as the first of the free list, before this one, if there is one.
    #[inline(always)]
    fn free_before(&mut self, next: Option<NonZeroUsize>, inx: NonZeroUsize) -> ArenaSlot<P, T>
        requires indexed { length (S.items self.old.slots.stack) ≤ greatest_index P.Inx.greatest }
        requires there { IsSome (item (S.items self.old.slots.stack) (non_zero_usize_get inx)) }
        requires other { option_map non_zero_usize_get next ≢ Some (non_zero_usize_get inx) }
        requires next_free { (j : ℕ) → option_map non_zero_usize_get next ≡ Some j
            → item (map (entry_of P.Gen.number) (S.items self.old.slots.stack)) j ≡ Some None }
        ensures slot { item (S.items self.old.slots.stack) (non_zero_usize_get inx) ≡ Some result }
        ensures begins { Begins P.Gen.number (S.items self.old.slots.stack)
            (S.items self.new.slots.stack)
            (option_map non_zero_usize_get next) (non_zero_usize_get inx) }
        ensures root { self.new.root ≡ Some inx }
        ensures room { S.room self.new.slots.stack ≡ S.room self.old.slots.stack }
        ensures limit { S.limit self.new.slots.stack ≡ S.limit self.old.slots.stack }
        ensures bounded { RisesByAtMost 2 self.old.slots.steps.count self.new.slots.steps.count }
    {
        let slot = ArenaSlot::Free(FreeLink::first(next, inx));
        self.root = Some(inx);
        let old = self.slots.put(inx, slot);
        self.link_back(next, Some(inx));
        old
    }

    // Pops the last slot, which is free, and takes it out of the free list where it stands.
    fn pop_free(&mut self)
        requires indexed { length (S.items self.old.slots.stack) ≤ greatest_index P.Inx.greatest }
        requires free { item (map (entry_of P.Gen.number) (S.items self.old.slots.stack))
            (length (S.items self.old.slots.stack)) ≡ Some None }
        requires shown { IsShown P.Gen.number S.items self.old }
        ensures shows { (s : ArenaState T) (len : ℕ)
            → SlotsShow P.Gen.number S.items self.old len s
            → SlotsShow P.Gen.number S.items self.new len (without_last s) }
        ensures popped { length (S.items self.new.slots.stack) + 1
            ≡ length (S.items self.old.slots.stack) }
        ensures room { S.room self.new.slots.stack ≡ S.room self.old.slots.stack }
        ensures limit { S.limit self.new.slots.stack ≡ S.limit self.old.slots.stack }
        ensures bounded { RisesByAtMost 3 self.old.slots.steps.count self.new.slots.steps.count }
    {
        let inx = index_of(self.slots.len()).unwrap();
        let link = self.slots.pop().into_link();
        self.unlink(link.before(inx), link.after(inx));
    }

    // Takes a free slot that stood between these two, where there are any, out of the free list: they
    // lead to each other. It is inlined, so that insertion, whose slot is the first, has no test.
    #[inline(always)]
    pub(crate) fn unlink(&mut self, previous: Option<NonZeroUsize>, next: Option<NonZeroUsize>)
        requires indexed { length (S.items self.old.slots.stack) ≤ greatest_index P.Inx.greatest }
        requires can_leave { CanLeave P.Gen.number (S.items self.old.slots.stack)
            (option_map non_zero_usize_get next) (option_map non_zero_usize_get previous) }
        ensures leaves { Leaves P.Gen.number (S.items self.old.slots.stack)
            (S.items self.new.slots.stack)
            (option_map non_zero_usize_get self.old.root)
            (option_map non_zero_usize_get self.new.root)
            (option_map non_zero_usize_get next) (option_map non_zero_usize_get previous) }
        ensures room { S.room self.new.slots.stack ≡ S.room self.old.slots.stack }
        ensures limit { S.limit self.new.slots.stack ≡ S.limit self.old.slots.stack }
        ensures steps { self.new.slots.steps.count ≡ self.old.slots.steps.count
            + (touch_if (option_map non_zero_usize_get previous)
            + touch_if (option_map non_zero_usize_get next)) }
    {
        self.root = if previous.is_none() { next } else { self.root };
        self.link_on(previous, next);
        self.link_back(next, previous);
    }

    // Links the free slot at an index, if there is one, on to another, or makes it the last.
    fn link_on(&mut self, from: Option<NonZeroUsize>, next: Option<NonZeroUsize>)
        requires free { (j : ℕ) → option_map non_zero_usize_get from ≡ Some j
            → item (map (entry_of P.Gen.number) (S.items self.old.slots.stack)) j ≡ Some None }
        requires other { (j : ℕ) → option_map non_zero_usize_get from ≡ Some j
            → option_map non_zero_usize_get next ≢ Some j }
        requires indexed { length (S.items self.old.slots.stack) ≤ greatest_index P.Inx.greatest }
        requires next_indexed { (j : ℕ) → option_map non_zero_usize_get next ≡ Some j
            → j ≤ greatest_index P.Inx.greatest }
        ensures links { LeadsTo next_in previous_in P.Gen.number (S.items self.old.slots.stack)
            (S.items self.new.slots.stack)
            (option_map non_zero_usize_get from) (option_map non_zero_usize_get next) }
        ensures root { self.new.root ≡ self.old.root }
        ensures room { S.room self.new.slots.stack ≡ S.room self.old.slots.stack }
        ensures limit { S.limit self.new.slots.stack ≡ S.limit self.old.slots.stack }
        ensures steps { self.new.slots.steps.count
            ≡ self.old.slots.steps.count + touch_if (option_map non_zero_usize_get from) }
    {
        if let Some(inx) = from {
            self.slots.touch(inx).link_on(next, inx);
        }
    }

    // Links the free slot at an index, if there is one, back to another, or makes it the first.
    fn link_back(&mut self, to: Option<NonZeroUsize>, previous: Option<NonZeroUsize>)
        requires free { (j : ℕ) → option_map non_zero_usize_get to ≡ Some j
            → item (map (entry_of P.Gen.number) (S.items self.old.slots.stack)) j ≡ Some None }
        requires other { (j : ℕ) → option_map non_zero_usize_get to ≡ Some j
            → option_map non_zero_usize_get previous ≢ Some j }
        requires indexed { length (S.items self.old.slots.stack) ≤ greatest_index P.Inx.greatest }
        requires previous_indexed { (j : ℕ) → option_map non_zero_usize_get previous ≡ Some j
            → j ≤ greatest_index P.Inx.greatest }
        ensures links { LeadsTo previous_in next_in P.Gen.number (S.items self.old.slots.stack)
            (S.items self.new.slots.stack)
            (option_map non_zero_usize_get to) (option_map non_zero_usize_get previous) }
        ensures root { self.new.root ≡ self.old.root }
        ensures room { S.room self.new.slots.stack ≡ S.room self.old.slots.stack }
        ensures limit { S.limit self.new.slots.stack ≡ S.limit self.old.slots.stack }
        ensures steps { self.new.slots.steps.count
            ≡ self.old.slots.steps.count + touch_if (option_map non_zero_usize_get to) }
    {
        if let Some(inx) = to {
            self.slots.touch(inx).link_back(previous, inx);
        }
    }

    // Whether the last slot is free.
    fn ends_free(&mut self) -> bool
        ensures value { result ≡ is_free (item (map (entry_of P.Gen.number)
            (S.items self.old.slots.stack)) (length (S.items self.old.slots.stack))) }
        ensures stack { self.new.slots.stack ≡ self.old.slots.stack }
        ensures root { self.new.root ≡ self.old.root }
        ensures bounded { RisesByAtMost 1 self.old.slots.steps.count self.new.slots.steps.count }
    {
        match index_of(self.slots.len()) {
            Some(inx) => !self.slots.has_entry(inx),
            None => false,
        }
    }
}

// The index of that number, if it is not 0.
fn index_of(number: usize) -> Option<NonZeroUsize>
    ensures { number_or_zero result ≡ number }
{
    NonZeroUsize::new(number)
}
