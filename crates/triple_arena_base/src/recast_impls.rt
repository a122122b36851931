//! Optional values, vectors and pairs hold what their parts hold.

ghost use Rattle.std.specs.Prelude.{◌≡◌};
ghost use Rattle.std.proofs.Common.{ap};
ghost use Rattle.triple_arena_base.specs.Held.{held_option, refill_option, held_all, refill_all, recast_items, recast_answer};
ghost use Rattle.triple_arena_base.specs.laws.HeldLaws.{option_held_refill, option_refill_held, option_refill_refill};
ghost use Rattle.triple_arena_base.specs.HeldVecs.{held_vec, refill_vec, vec_held_refill, vec_refill_held, vec_refill_refill};

use crate::recast::{Recast, Recaster};

/// Holds what its `Some` holds.
impl<I, T: Recast<I>> Recast<I> for Option<T> {
    ghost held = { held_option T.held };

    ghost refill = { refill_option T.refill };

    fn recast<R: Recaster<Item = I>>(&mut self, recaster: &R) -> Result<(), I> {
        match self {
            Some(t) => t.recast(recaster),
            None => Ok(()),
        }
    }

    ghost held_refill = { option_held_refill T.held T.refill T.held_refill };

    ghost refill_held = { option_refill_held T.held T.refill T.refill_held };

    ghost refill_refill = { option_refill_refill T.held T.refill T.refill_refill };
}

/// Holds what its elements hold, in order.
impl<I, T: Recast<I>> Recast<I> for Vec<T> {
    ghost held = { held_vec T.held T.refill };

    ghost refill = { refill_vec T.held T.refill };

    fn recast<R: Recaster<Item = I>>(&mut self, recaster: &R) -> Result<(), I> {
        recast_slice(self.as_mut_slice(), recaster)
    }

    ghost held_refill = { vec_held_refill T.held T.refill T.held_refill };

    ghost refill_held = { vec_refill_held T.held T.refill T.refill_held };

    ghost refill_refill = { vec_refill_refill T.held T.refill T.held_refill T.refill_refill };
}

/// Holds what its second part holds; the number stays.
impl<I, T: Recast<I>> Recast<I> for (u64, T) {
    ghost held = { λ p. T.held p.1 };

    ghost refill = { λ p l. (p.0, T.refill p.1 l) };

    fn recast<R: Recaster<Item = I>>(&mut self, recaster: &R) -> Result<(), I> {
        self.1.recast(recaster)
    }

    ghost held_refill = { λ p l h. T.held_refill p.1 l h };

    ghost refill_held = { λ p. ap (λ t. (p.0, t)) (T.refill_held p.1) };

    ghost refill_refill = { λ p l m h k. ap (λ t. (p.0, t)) (T.refill_refill p.1 l m h k) };
}

/// Recasts the elements in order, up to the first refusal.
fn recast_slice<I, T: Recast<I>, R: Recaster<Item = I>>(
    items: &mut [T],
    recaster: &R,
) -> Result<(), I>
    ensures after { items.new ≡ refill_all T.held T.refill items.old
        (recast_items (R.image recaster.now) (held_all T.held items.old)) }
    ensures answer { result ≡ recast_answer (R.image recaster.now) (held_all T.held items.old) }
{
    for x in items.iter_mut() {
        x.recast(recaster)?;
    }
    Ok(())
}
