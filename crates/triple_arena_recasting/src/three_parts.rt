//! Recasting of a value with three parts that hold.

ghost use Rattle.std.specs.Prelude.{◌≡◌};
ghost use Rattle.triple_arena_base.specs.Held.{recast_items, recast_answer};
ghost use Rattle.triple_arena_recasting.specs.HeldThree.{held_three, refill_three};

use triple_arena_base::{Recast, Recaster, recast_both};

/// Recasts three parts of a value, such as the fields of a struct, in order: as one value that holds
/// what the first holds, then what the second holds, and then what the third holds. Refuses with the
/// first item that has no image: what stands before it is replaced then, and the rest stays.
pub fn recast_three<I, A: Recast<I>, B: Recast<I>, C: Recast<I>, R: Recaster<Item = I>>(
    first: &mut A,
    second: &mut B,
    third: &mut C,
    recaster: &R,
) -> Result<(), I>
    ensures first { first.new ≡ (refill_three
        A.held A.refill B.held B.refill C.held C.refill (first.old, (second.old, third.old))
        (recast_items (R.image recaster.now) (held_three
        A.held A.refill B.held B.refill C.held C.refill (first.old, (second.old, third.old))))).0 }
    ensures second { second.new ≡ (refill_three
        A.held A.refill B.held B.refill C.held C.refill (first.old, (second.old, third.old))
        (recast_items (R.image recaster.now) (held_three
        A.held A.refill B.held B.refill C.held C.refill (first.old, (second.old, third.old))))).1.0 }
    ensures third { third.new ≡ (refill_three
        A.held A.refill B.held B.refill C.held C.refill (first.old, (second.old, third.old))
        (recast_items (R.image recaster.now) (held_three
        A.held A.refill B.held B.refill C.held C.refill (first.old, (second.old, third.old))))).1.1 }
    ensures answer { result ≡ recast_answer (R.image recaster.now) (held_three
        A.held A.refill B.held B.refill C.held C.refill (first.old, (second.old, third.old))) }
{
    first.recast(recaster)?;
    recast_both(second, third, recaster)
}
