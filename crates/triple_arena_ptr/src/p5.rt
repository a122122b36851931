//! The smallest pointer.

ghost use Rattle.std.specs.Prelude.{◌≡◌, ◌^◌, ◌-◌, Some, false, suc, codes};
ghost use Rattle.std.proofs.Common.{refl};
ghost use Rattle.triple_arena_base.specs.Held.{held_itself, refill_itself};
ghost use Rattle.triple_arena_base.specs.laws.HeldLaws.{itself_held_refill, itself_refill_held, itself_refill_refill};
ghost use Rattle.triple_arena_ptr.specs.NonZeroValues.{u8_after, u8_after_cancels};
ghost use Rattle.triple_arena_ptr.specs.PointerText.{pointer_text};

use crate::inx::PtrInx;
use crate::non_zero::non_zero_u8;
use crate::ptr::Ptr;
use crate::text::fmt_pointer;
use std::fmt;
use std::marker::Model;
use std::num::NonZeroU8;
use triple_arena_base::{Recast, Recaster};

/// A byte index, and no generation.
#[derive(Hash, Clone, Copy, PartialEq, Eq, PartialOrd, Ord)]
pub struct P5 {
    _internal_inx: u8,
    _internal_gen: (),
}

impl Model for P5 {
    ghost use Rattle.std.specs.Prelude.{ℕ, suc, ◌-◌, ◌<◌};
    ghost use Rattle.std.proofs.Common.{ap};
    ghost use Rattle.triple_arena_ptr.specs.NonZeroValues.{suc_before};

    // The number before its index, which is not 0.
    ghost Value = { ℕ };

    ghost view = { λ p. p._internal_inx - 1 };

    ghost invariant = { λ p. 0 < p._internal_inx };

    ghost inverse = { λ i. record { _internal_inx = suc i; _internal_gen = tt } };

    ghost inverse_ok = { λ p h. ap (λ i. record { _internal_inx = i; _internal_gen = tt })
        (suc_before p._internal_inx h) };
}

impl Ptr for P5 {
    type Inx = NonZeroU8;

    type Gen = ();

    ghost index_of = { λ p. u8_after p };

    ghost generation_of = { λ _. tt };

    ghost numbers = { λ p. (suc p, 1) };

    ghost type_name = { codes "P5" };

    fn name() -> &'static str {
        "P5"
    }

    fn invalid() -> Self {
        P5::_from_raw(PtrInx::best_effort_invalid(), ())
    }

    #[tactic(auto, using(crate::specs::NonZeroValues::u8_is_after))]
    fn inx(self) -> NonZeroU8 {
        non_zero_u8(self._internal_inx)
    }

    fn generation(self) {}

    #[tactic(auto, using(crate::specs::NonZeroValues::u8_after_before))]
    fn _from_raw(inx: NonZeroU8, generation: ()) -> Self {
        P5 {
            _internal_inx: inx.get(),
            _internal_gen: generation,
        }
    }

    ghost numbers_of = { λ _. refl };

    ghost distinct = { λ p q i _. u8_after_cancels p q i };

    ghost equates = { λ _ _. refl };

    ghost orders = { λ _ _. refl };

    ghost holds_itself = { λ _. refl };

    ghost refills = { λ _ _. refl };

    ghost clones = { λ _ _ e. e };

    ghost clones_always = { λ _. tt };
}

impl Default for P5 {
    ghost is_default = { λ p. suc p ≡ 2 ^ 8 - 1 };

    fn default() -> Self {
        P5::invalid()
    }
}

impl fmt::Debug for P5 {
    ghost debug_output = { λ p. Some (pointer_text (codes "P5") (suc p) false 1) };

    fn fmt<W: fmt::Write>(&self, f: &mut fmt::Formatter<W>) -> fmt::Result {
        fmt_pointer("P5", self.inx(), (), f)
    }
}

impl fmt::Display for P5 {
    ghost output = { λ p. Some (pointer_text (codes "P5") (suc p) false 1) };

    fn fmt<W: fmt::Write>(&self, f: &mut fmt::Formatter<W>) -> fmt::Result {
        fmt_pointer("P5", self.inx(), (), f)
    }
}

impl Recast<P5> for P5 {
    ghost held = { held_itself };

    ghost refill = { refill_itself };

    fn recast<R: Recaster<Item = P5>>(&mut self, recaster: &R) -> Result<(), P5> {
        recaster.recast_item(self)
    }

    ghost held_refill = { itself_held_refill };

    ghost refill_held = { itself_refill_held };

    ghost refill_refill = { itself_refill_refill };
}
