//! A type of one's own that holds pointers in two places.

ghost use Rattle.std.specs.Prelude.{◌≡◌};
ghost use Rattle.std.proofs.Common.{ap};
ghost use Rattle.triple_arena_base.specs.Held.{held_option, refill_option};
ghost use Rattle.triple_arena_base.specs.laws.HeldLaws.{option_held_refill, option_refill_held, option_refill_refill};
ghost use Rattle.triple_arena_base.specs.HeldVecs.{held_vec, refill_vec, vec_held_refill, vec_refill_held, vec_refill_refill};
ghost use Rattle.triple_arena_base.specs.HeldPairs.{held_both, refill_both, both_held_refill, both_refill_held, both_refill_refill};

use triple_arena_base::{Recast, Recaster, recast_both};

/// A gate: those that feed it, and the one that it drives, if it drives one.
#[derive(Drop)]
pub struct Gate<P> {
    pub inputs: Vec<P>,
    pub output: Option<P>,
}

/// Holds what its inputs hold, in their order, and then what its output holds.
impl<I, P: Recast<I>> Recast<I> for Gate<P> {
    ghost held = { λ gate. held_both (held_vec P.held P.refill) (refill_vec P.held P.refill)
        (held_option P.held) (refill_option P.refill) (gate.inputs, gate.output) };

    ghost refill = { λ gate l. let parts = refill_both
        (held_vec P.held P.refill) (refill_vec P.held P.refill)
        (held_option P.held) (refill_option P.refill) (gate.inputs, gate.output) l in
        record gate { inputs = parts.0; output = parts.1 } };

    fn recast<R: Recaster<Item = I>>(&mut self, recaster: &R) -> Result<(), I> {
        recast_both(&mut self.inputs, &mut self.output, recaster)
    }

    ghost held_refill = { λ gate. both_held_refill
        (held_vec P.held P.refill) (refill_vec P.held P.refill)
        (held_option P.held) (refill_option P.refill)
        (vec_held_refill P.held P.refill P.held_refill)
        (option_held_refill P.held P.refill P.held_refill) (gate.inputs, gate.output) };

    ghost refill_held = { λ gate. ap (λ parts. record gate { inputs = parts.0; output = parts.1 })
        (both_refill_held (held_vec P.held P.refill) (refill_vec P.held P.refill)
        (held_option P.held) (refill_option P.refill)
        (vec_refill_held P.held P.refill P.refill_held)
        (option_refill_held P.held P.refill P.refill_held) (gate.inputs, gate.output)) };

    ghost refill_refill = { λ gate l m h k. ap (λ parts.
        record gate { inputs = parts.0; output = parts.1 })
        (both_refill_refill (held_vec P.held P.refill) (refill_vec P.held P.refill)
        (held_option P.held) (refill_option P.refill)
        (vec_held_refill P.held P.refill P.held_refill)
        (vec_refill_refill P.held P.refill P.held_refill P.refill_refill)
        (option_refill_refill P.held P.refill P.refill_refill)
        (gate.inputs, gate.output) l m h k) };
}
