//! Direct arenas of pointers as recasters, and the items that a direct arena holds.

ghost use Rattle.std.specs.Prelude.{◌≡◌};
ghost use Rattle.triple_arena_base.specs.Held.{recast_items, recast_answer};
ghost use Rattle.triple_arena_traits.specs.Entries.{look_up};
ghost use Rattle.triple_arena_traits.specs.HeldSlots.{held_slots, refill_slots};

use crate::direct_arena::DirectArena;
use crate::slot::DirectSlot;
use triple_arena_base::{Recast, Recaster};
use triple_arena_ptr::Ptr;
use triple_arena_stack::NonZeroInxGenericStack;
use triple_arena_traits::{ArenaTrait, recast_entries};

/// The image of a pointer is the one that is stored under it.
impl<P: Ptr, S: NonZeroInxGenericStack<DirectSlot<P, P>>> Recaster for DirectArena<P, P, S> {
    type Item = P;

    ghost image = { λ s p. look_up s.slots (P.numbers p) };

    fn recast_item(&self, item: &mut P) -> Result<(), P> {
        match self.get(*item) {
            Some(image) => {
                *item = *image;
                Ok(())
            }
            None => Err(*item),
        }
    }
}

/// Holds what its values hold, in the order of the indexes of the entries.
impl<I, P: Ptr, T: Recast<I>, S: NonZeroInxGenericStack<DirectSlot<P, T>>> Recast<I>
    for DirectArena<P, T, S> {
    ghost use Rattle.std.proofs.Common.{ap};
    ghost use Rattle.triple_arena_traits.specs.HeldSlots.{slots_held_refill, slots_refill_held, slots_refill_refill};

    ghost held = { λ s. held_slots T.held T.refill s.slots };

    // nothing but the held items changes
    ghost refill = { λ s l. record s { slots = refill_slots T.held T.refill s.slots l } };

    // The trait's clauses are written out, since inheriting them makes each call dearer to prove.
    fn recast<R: Recaster<Item = I>>(&mut self, recaster: &R) -> Result<(), I>
        ensures after { self.new ≡ record self.old {
          slots = refill_slots T.held T.refill
              self.old.slots (recast_items (R.image recaster.now)
              (held_slots T.held T.refill self.old.slots));
        } }
        ensures answer { result ≡ recast_answer (R.image recaster.now)
            (held_slots T.held T.refill self.old.slots) }
    {
        recast_entries(self, recaster)
    }

    ghost held_refill = { λ s l h. slots_held_refill T.held T.refill T.held_refill s.slots l h };

    ghost refill_held = { λ s. ap (λ slots. record s { slots = slots })
        (slots_refill_held T.held T.refill T.refill_held s.slots) };

    ghost refill_refill = { λ s l m h k. ap (λ slots. record s { slots = slots })
        (slots_refill_refill T.held T.refill T.held_refill T.refill_refill s.slots l m h k) };
}
