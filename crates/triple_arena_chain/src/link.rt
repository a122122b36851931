//! What a chain keeps under a pointer.

ghost use Rattle.std.proofs.Common.{ap};
ghost use Rattle.triple_arena_base.specs.Held.{held_option, refill_option};
ghost use Rattle.triple_arena_base.specs.HeldPairs.{both_held_refill, both_refill_held, both_refill_refill};
ghost use Rattle.triple_arena_base.specs.laws.HeldLaws.{option_held_refill, option_refill_held, option_refill_refill};
ghost use Rattle.triple_arena_chain.specs.Links.{link_held, link_refill};

use triple_arena_base::{Recast, Recaster, recast_both};

/// A value, and the pointers of the entries before it and after it in its chain, if there are any.
#[derive(Drop)]
pub struct Link<P, T> {
    pub(crate) value: T,
    pub(crate) before: Option<P>,
    pub(crate) after: Option<P>,
}

/// Holds what the two pointers hold, the one before first; the value stays, and may be of any type.
impl<I, P: Recast<I>, T> Recast<I> for Link<P, T> {
    ghost held = { link_held P.held P.refill };

    ghost refill = { link_refill P.held P.refill };

    fn recast<R: Recaster<Item = I>>(&mut self, recaster: &R) -> Result<(), I> {
        recast_both(&mut self.before, &mut self.after, recaster)
    }

    ghost held_refill = { λ link. both_held_refill
        (held_option P.held) (refill_option P.refill) (held_option P.held) (refill_option P.refill)
        (option_held_refill P.held P.refill P.held_refill)
        (option_held_refill P.held P.refill P.held_refill) (link.before, link.after) };

    ghost refill_held = { λ link. ap (λ ends. record link { before = ends.0; after = ends.1 })
        (both_refill_held
        (held_option P.held) (refill_option P.refill) (held_option P.held) (refill_option P.refill)
        (option_refill_held P.held P.refill P.refill_held)
        (option_refill_held P.held P.refill P.refill_held) (link.before, link.after)) };

    ghost refill_refill = { λ link l m h k. ap (λ ends.
        record link { before = ends.0; after = ends.1 })
        (both_refill_refill
        (held_option P.held) (refill_option P.refill) (held_option P.held) (refill_option P.refill)
        (option_held_refill P.held P.refill P.held_refill)
        (option_refill_refill P.held P.refill P.refill_refill)
        (option_refill_refill P.held P.refill P.refill_refill)
        (link.before, link.after) l m h k) };
}
