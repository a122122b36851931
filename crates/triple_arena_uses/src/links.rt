//! A type of one's own that holds pointers, and follows them where they are renamed.

ghost use Rattle.std.specs.Prelude.{◌≡◌, []};
ghost use Rattle.std.proofs.Common.{ap};
ghost use Rattle.triple_arena_base.specs.Held.{held_itself, refill_itself, held_option, refill_option, recast_items, recast_answer};
ghost use Rattle.triple_arena_base.specs.laws.HeldLaws.{itself_held_refill, itself_refill_held, itself_refill_refill, option_held_refill, option_refill_held, option_refill_refill};
ghost use Rattle.triple_arena.specs.HeldSlots.{held_slots, refill_slots};
ghost use Rattle.triple_arena.specs.Histories.{Fits, Continues};

use triple_arena::Arena;
use triple_arena::laws::recasts_are_fresh;
use triple_arena_base::{Recast, Recaster};
use triple_arena_ptr::P0;

/// A link with a weight, which may lead nowhere.
#[derive(Clone, Copy, PartialEq, Eq, Debug)]
pub struct Link {
    pub weight: u32,
    pub target: Option<P0>,
}

/// Holds its target.
impl Recast<P0> for Link {
    ghost held = { λ link. held_option held_itself link.target };

    ghost refill = { λ link l. record link { target = refill_option refill_itself link.target l } };

    fn recast<R: Recaster<Item = P0>>(&mut self, recaster: &R) -> Result<(), P0> {
        self.target.recast(recaster)
    }

    ghost held_refill = { λ link. option_held_refill held_itself refill_itself
        itself_held_refill link.target };

    ghost refill_held = { λ link. ap (λ target. record link { target = target })
        (option_refill_held held_itself refill_itself itself_refill_held link.target) };

    ghost refill_refill = { λ link l m h k. ap (λ target. record link { target = target })
        (option_refill_refill held_itself refill_itself itself_refill_refill link.target l m h k) };
}

/// Renames what the links of an arena lead to, by any recaster, in the order of their indexes.
/// Refuses with the first pointer that has no image: those before it are renamed then, and it and
/// all behind it stay. Even then no pointer of the arena itself is given or ended: what a history
/// says of it goes on to hold.
pub fn lead_elsewhere<R: Recaster<Item = P0>>(
    links: &mut Arena<P0, Link>,
    recaster: &R,
) -> Result<(), P0>
    ensures after { links.new ≡ record links.old {
      slots = refill_slots
          ⟦<Link as Recast<P0>>⟧.held ⟦<Link as Recast<P0>>⟧.refill links.old.slots
          (recast_items (R.image recaster.now) (held_slots
          ⟦<Link as Recast<P0>>⟧.held ⟦<Link as Recast<P0>>⟧.refill links.old.slots));
    } }
    ensures answer { result ≡ recast_answer (R.image recaster.now) (held_slots
        ⟦<Link as Recast<P0>>⟧.held ⟦<Link as Recast<P0>>⟧.refill links.old.slots) }
    ensures history { Continues Fits links.old [] links.new }
{
    recasts_are_fresh::<P0, Link>();
    links.recast(recaster)
}
