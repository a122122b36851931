//! The entries of the slots: the place of one, and how one is put in, taken out, and given another generation.
//! Each touch of a slot is counted here.

ghost use Rattle.std.specs.Prelude.{◌≡◌, ◌<◌, ◌≤◌, ◌+◌, ◌-◌, ◌^◌, ℕ, length, Some, None, IsSome};
ghost use Rattle.std.specs.Int.NonZero.{non_zero_usize_get};
ghost use Rattle.triple_arena_ptr.specs.Numbers.{greatest_index};
ghost use Rattle.triple_arena_stack.specs.Capacity.{stack_capacity};
ghost use Rattle.triple_arena_traits.specs.ArenaState.{ArenaState, arena_len, capacity};
ghost use Rattle.triple_arena_traits.specs.Insertion.{place, inserted};
ghost use Rattle.triple_arena_traits.specs.Ending.{removed};
ghost use Rattle.triple_arena_traits.specs.Entries.{with_generation_in};
ghost use Rattle.triple_arena_slots.specs.Layout.{entry_at};
ghost use Rattle.triple_arena_traits.specs.SlotSteps.{RisesByAtMost, insertion_steps};

use crate::slot::ArenaSlot;
use crate::slots::Slots;
use std::num::NonZeroUsize;
use triple_arena_ptr::{Ptr, PtrGen, PtrInx};
use triple_arena_stack::NonZeroInxGenericStack;
use triple_arena_traits::EntrySlot;

impl<P: Ptr, T, S: NonZeroInxGenericStack<ArenaSlot<P, T>>> Slots<P, T, S> {
    ghost use Rattle.triple_arena_slots.specs.Shown.{SlotsShow, IsShown};

    /// The index that an insertion takes: the root, or one past the last slot.
    pub fn place(&self) -> NonZeroUsize
        requires { self.now.root ≡ None → length (S.items self.now.slots.stack) < 2 ^ 64 - 1 }
        ensures { (s : ArenaState T) (len : ℕ)
            → SlotsShow P.Gen.number S.items self.now len s
            → non_zero_usize_get result ≡ place s }
    {
        match self.root {
            Some(inx) => inx,
            None => NonZeroUsize::MIN.saturating_add(self.slots.len()),
        }
    }

    /// Puts an entry at the place of an insertion, where there is one. It touches one slot, or two
    /// where two are free.
    #[inline(always)]
    pub fn occupy(&mut self, generation: P::Gen, value: T)
        requires indexed { length (S.items self.old.slots.stack) ≤ greatest_index P.Inx.greatest }
        requires shown { (s : ArenaState T) × (len : ℕ)
            × SlotsShow P.Gen.number S.items self.old len s
            × (arena_len s < stack_capacity (S.room self.old.slots.stack)
            (S.limit self.old.slots.stack)) }
        ensures shows { (s : ArenaState T) (len : ℕ)
            → SlotsShow P.Gen.number S.items self.old len s
            → arena_len s < capacity s → P.Gen.number generation ≡ s.counter
            → SlotsShow P.Gen.number S.items self.new (len + 1) (inserted s value) }
        ensures room { S.room self.new.slots.stack ≡ S.room self.old.slots.stack }
        ensures limit { S.limit self.new.slots.stack ≡ S.limit self.old.slots.stack }
        ensures steps { (s : ArenaState T) (len : ℕ)
            → SlotsShow P.Gen.number S.items self.old len s
            → self.new.slots.steps.count ≡ self.old.slots.steps.count + insertion_steps s }
    {
        let slot = ArenaSlot::Allocated(generation, value);
        match self.root {
            None => self.slots.push(slot),
            Some(inx) => {
                let link = self.slots.put(inx, slot).into_link();
                // It is the first, so none comes before it.
                self.unlink(None, link.after(inx));
            }
        }
    }

    /// Takes out the entry at an index: the last slot goes, and any other becomes the first free
    /// one. It touches at most two slots.
    #[inline(always)]
    pub fn vacate(&mut self, inx: NonZeroUsize) -> (P::Gen, T)
        requires indexed { length (S.items self.old.slots.stack) ≤ greatest_index P.Inx.greatest }
        requires live { IsSome (entry_at P.Gen.number (S.items self.old.slots.stack)
            (non_zero_usize_get inx)) }
        requires shown { IsShown P.Gen.number S.items self.old }
        ensures entry { entry_at P.Gen.number (S.items self.old.slots.stack)
            (non_zero_usize_get inx)
            ≡ Some (P.Gen.number result.0, result.1) }
        ensures shows { (raise : ℕ → ℕ) (s : ArenaState T) (len : ℕ)
            → SlotsShow P.Gen.number S.items self.old len s
            → SlotsShow P.Gen.number S.items self.new (len - 1)
            (removed raise s (non_zero_usize_get inx)) }
        ensures room { S.room self.new.slots.stack ≡ S.room self.old.slots.stack }
        ensures limit { S.limit self.new.slots.stack ≡ S.limit self.old.slots.stack }
        ensures bounded { RisesByAtMost 2 self.old.slots.steps.count self.new.slots.steps.count }
    {
        if inx.get() == self.slots.len() {
            return self.slots.pop().into_entry();
        }
        self.free(inx).into_entry()
    }

    /// Puts another generation on the entry at an index. It touches one slot.
    pub fn restamp(&mut self, inx: NonZeroUsize, generation: P::Gen)
        requires { IsSome (entry_at P.Gen.number (S.items self.old.slots.stack)
            (non_zero_usize_get inx)) }
        ensures shows { (s : ArenaState T) (len : ℕ)
            → SlotsShow P.Gen.number S.items self.old len s
            → SlotsShow P.Gen.number S.items self.new len
            (record s {
              slots = with_generation_in s.slots (non_zero_usize_get inx) (P.Gen.number generation);
            }) }
        ensures room { S.room self.new.slots.stack ≡ S.room self.old.slots.stack }
        ensures limit { S.limit self.new.slots.stack ≡ S.limit self.old.slots.stack }
        ensures steps { self.new.slots.steps.count ≡ self.old.slots.steps.count + 1 }
    {
        self.slots.touch(inx).set_generation(generation);
    }
}
