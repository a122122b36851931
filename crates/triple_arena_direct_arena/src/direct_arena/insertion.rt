//! Insertion into a direct arena.

ghost use Rattle.std.specs.Prelude.{◌≡◌, ◌≢◌, ◌≤◌, ◌↔◌, map, IsTrue, Some, None};
ghost use Rattle.std.specs.Int.NonZero.{non_zero_usize_get};
ghost use Rattle.triple_arena_ptr.specs.Pointers.{Pointer};
ghost use Rattle.triple_arena_stack.specs.Capacity.{stack_capacity};
ghost use Rattle.triple_arena_traits.specs.Items.{with_item};
ghost use Rattle.triple_arena_traits.specs.Entries.{entry_in, look_up};
ghost use Rattle.triple_arena_traits.specs.FreeEnd.{extended};
ghost use Rattle.triple_arena_traits.specs.DirectInsertion.{IsVacant, DirectInsertAnswer};
ghost use Rattle.triple_arena_direct_arena.specs.DirectSlot.{direct_slot_entry};
ghost use Rattle.triple_arena_direct_arena.specs.DirectState.{direct_capacity, inserted_at};

use crate::direct_arena::DirectArena;
use crate::slot::DirectSlot;
use std::num::NonZeroUsize;
use triple_arena_base::DirectInsertionError;
use triple_arena_ptr::{Ptr, PtrGen, PtrInx};
use triple_arena_slots::SlotStack;
use triple_arena_stack::NonZeroInxGenericStack;
use triple_arena_traits::entry_slots::extend;
use triple_arena_traits::{ArenaDirectInsertTrait, ArenaTrait, EntrySlot};

impl<P: Ptr, T, S: NonZeroInxGenericStack<DirectSlot<P, T>>> ArenaDirectInsertTrait<P, T>
    for DirectArena<P, T, S> {
    ghost use Rattle.std.specs.Prelude.{refl};
    ghost use Rattle.triple_arena_direct_arena.specs.laws.DirectInsertionLaws.{slots-inserted_at, len-inserted_at};

    // the value stands at the index, under the generation, and the slots that were missing below
    // are free
    ghost inserted_at = { inserted_at };

    fn direct_insert_reserved(&mut self, p: P, t: T)
        requires { IsVacant self.old.slots (direct_capacity self.old) (P.numbers p).0 }
        ensures inserted { self.new ≡ inserted_at self.old (P.numbers p) t }
        ensures found { look_up self.new.slots (P.numbers p) ≡ Some t }
        ensures others { (q : Pointer) → q ≢ P.numbers p
            → look_up self.new.slots q ≡ look_up self.old.slots q }
        ensures limit { self.new.limit ≡ self.old.limit }
        ensures capacity { direct_capacity self.new ≡ direct_capacity self.old }
    {
        // The capacity is at most the greatest index.
        let _capacity = self.capacity();
        let inx = P::Inx::try_into_usize(p.inx()).unwrap();
        self.put(inx, p.generation(), t);
    }

    fn check_direct_insert(&self, p: P) -> Result<(), DirectInsertionError>
        ensures { DirectInsertAnswer self.now.slots (direct_capacity self.now) (P.numbers p).0 result }
    {
        let capacity = self.capacity();
        match P::Inx::try_into_usize(p.inx()) {
            Some(inx) if inx.get() <= capacity => {}
            _ => return Err(DirectInsertionError::NotWithinCapacity),
        }
        match self.generation_at(p.inx()) {
            Some(_generation) => Err(DirectInsertionError::ExistingElementAtIndex),
            None => Ok(()),
        }
    }

    fn can_direct_insert(&self, p: P) -> bool
        ensures { IsTrue result
            ↔ IsVacant self.now.slots (direct_capacity self.now) (P.numbers p).0 }
    {
        self.check_direct_insert(p).is_ok()
    }

    ghost slots_inserted_at = { slots-inserted_at };

    ghost len_inserted_at = { len-inserted_at };

    ghost limit_inserted_at = { λ _ _ _. refl };

    ghost capacity_inserted_at = { λ _ _ _. refl };
}

impl<P: Ptr, T, S: NonZeroInxGenericStack<DirectSlot<P, T>>> DirectArena<P, T, S> {
    // Puts an entry at an index where none stands.
    fn put(&mut self, inx: NonZeroUsize, generation: P::Gen, value: T)
        requires { IsVacant self.old.slots (direct_capacity self.old) (non_zero_usize_get inx) }
        ensures { self.new ≡ inserted_at self.old
            (non_zero_usize_get inx, P.Gen.number generation) value }
    {
        occupy(
            &mut self.slots,
            inx,
            DirectSlot::Allocated(generation, value),
        );
        self.len += 1;
    }
}

// Puts a slot at an index where no entry stands; the slots that are missing below it are free.
fn occupy<P: Ptr, T, S: NonZeroInxGenericStack<DirectSlot<P, T>>>(
    slots: &mut SlotStack<P, T, DirectSlot<P, T>, S>,
    inx: NonZeroUsize,
    slot: DirectSlot<P, T>,
)
    requires within { non_zero_usize_get inx
        ≤ stack_capacity (S.room slots.old.stack) (S.limit slots.old.stack) }
    requires free { entry_in (map (direct_slot_entry P.Gen.number) (S.items slots.old.stack))
        (non_zero_usize_get inx) ≡ None }
    ensures slots { map (direct_slot_entry P.Gen.number) (S.items slots.new.stack) ≡ with_item
        (extended (map (direct_slot_entry P.Gen.number) (S.items slots.old.stack))
        (non_zero_usize_get inx)) (non_zero_usize_get inx) (direct_slot_entry P.Gen.number slot) }
    ensures room { S.room slots.new.stack ≡ S.room slots.old.stack }
    ensures limit { S.limit slots.new.stack ≡ S.limit slots.old.stack }
{
    // Right past the last slot it is pushed.
    if slots.len() == inx.get() - 1 {
        slots.push(slot);
        return;
    }
    extend::<P, T, DirectSlot<P, T>, S>(slots.uncounted_stack_mut(), inx.get());
    slots.put(inx, slot).discard();
}
