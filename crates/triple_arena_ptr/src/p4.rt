//! The pointer without a generation.

ghost use Rattle.std.specs.Prelude.{◌≡◌, ◌^◌, ◌-◌, Some, false, suc, codes};
ghost use Rattle.std.proofs.Common.{refl};
ghost use Rattle.triple_arena_base.specs.Held.{held_itself, refill_itself};
ghost use Rattle.triple_arena_base.specs.laws.HeldLaws.{itself_held_refill, itself_refill_held, itself_refill_refill};
ghost use Rattle.triple_arena_ptr.specs.NonZeroValues.{usize_after, usize_after_cancels};
ghost use Rattle.triple_arena_ptr.specs.PointerText.{pointer_text};

use crate::inx::PtrInx;
use crate::non_zero::non_zero_usize;
use crate::ptr::Ptr;
use crate::text::fmt_pointer;
use std::fmt;
use std::marker::Model;
use std::num::NonZeroUsize;
use triple_arena_base::{Recast, Recaster};

/// A `usize` index, and no generation.
#[derive(Hash, Clone, Copy, PartialEq, Eq, PartialOrd, Ord)]
pub struct P4 {
    _internal_inx: usize,
    _internal_gen: (),
}

impl Model for P4 {
    ghost use Rattle.std.specs.Prelude.{ℕ, suc, ◌-◌, ◌<◌};
    ghost use Rattle.std.proofs.Common.{ap};
    ghost use Rattle.triple_arena_ptr.specs.NonZeroValues.{suc_before};

    // The number before its index, which is not 0.
    ghost Value = { ℕ };

    ghost view = { λ p. p._internal_inx - 1 };

    ghost invariant = { λ p. 0 < p._internal_inx };

    ghost inverse = { λ i. record { _internal_inx = suc i; _internal_gen = tt } };

    ghost inverse_ok = { λ p h. ap (λ i. record { _internal_inx = i; _internal_gen = tt })
        (suc_before p._internal_inx h) };
}

impl Ptr for P4 {
    type Inx = NonZeroUsize;

    type Gen = ();

    ghost index_of = { λ p. usize_after p };

    ghost generation_of = { λ _. tt };

    ghost numbers = { λ p. (suc p, 1) };

    ghost type_name = { codes "P4" };

    fn name() -> &'static str {
        "P4"
    }

    fn invalid() -> Self {
        P4::_from_raw(PtrInx::best_effort_invalid(), ())
    }

    #[tactic(auto, using(crate::specs::NonZeroValues::usize_is_after))]
    fn inx(self) -> NonZeroUsize {
        non_zero_usize(self._internal_inx)
    }

    fn generation(self) {}

    #[tactic(auto, using(crate::specs::NonZeroValues::usize_after_before))]
    fn _from_raw(inx: NonZeroUsize, generation: ()) -> Self {
        P4 {
            _internal_inx: inx.get(),
            _internal_gen: generation,
        }
    }

    ghost numbers_of = { λ _. refl };

    ghost distinct = { λ p q i _. usize_after_cancels p q i };

    ghost equates = { λ _ _. refl };

    ghost orders = { λ _ _. refl };

    ghost holds_itself = { λ _. refl };

    ghost refills = { λ _ _. refl };

    ghost clones = { λ _ _ e. e };

    ghost clones_always = { λ _. tt };
}

impl Default for P4 {
    ghost is_default = { λ p. suc p ≡ 2 ^ 64 - 1 };

    fn default() -> Self {
        P4::invalid()
    }
}

impl fmt::Debug for P4 {
    ghost debug_output = { λ p. Some (pointer_text (codes "P4") (suc p) false 1) };

    fn fmt<W: fmt::Write>(&self, f: &mut fmt::Formatter<W>) -> fmt::Result {
        fmt_pointer("P4", self.inx(), (), f)
    }
}

impl fmt::Display for P4 {
    ghost output = { λ p. Some (pointer_text (codes "P4") (suc p) false 1) };

    fn fmt<W: fmt::Write>(&self, f: &mut fmt::Formatter<W>) -> fmt::Result {
        fmt_pointer("P4", self.inx(), (), f)
    }
}

impl Recast<P4> for P4 {
    ghost held = { held_itself };

    ghost refill = { refill_itself };

    fn recast<R: Recaster<Item = P4>>(&mut self, recaster: &R) -> Result<(), P4> {
        recaster.recast_item(self)
    }

    ghost held_refill = { itself_held_refill };

    ghost refill_held = { itself_refill_held };

    ghost refill_refill = { itself_refill_refill };
}
