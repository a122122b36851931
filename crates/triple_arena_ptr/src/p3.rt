//! The pointer of a short index and a short generation.

ghost use Rattle.std.specs.Prelude.{◌≡◌, ◌^◌, ◌-◌, Some, true, suc, codes};
ghost use Rattle.std.proofs.Common.{refl};
ghost use Rattle.triple_arena_base.specs.Held.{held_itself, refill_itself};
ghost use Rattle.triple_arena_base.specs.laws.HeldLaws.{itself_held_refill, itself_refill_held, itself_refill_refill};
ghost use Rattle.triple_arena_ptr.specs.NonZeroValues.{same_pair, u16_after, u16_after_cancels};
ghost use Rattle.triple_arena_ptr.specs.PointerText.{pointer_text};

use crate::generation::PtrGen;
use crate::inx::PtrInx;
use crate::non_zero::non_zero_u16;
use crate::ptr::Ptr;
use crate::text::fmt_pointer;
use std::fmt;
use std::marker::Model;
use std::num::NonZeroU16;
use triple_arena_base::{Recast, Recaster};

/// A 16-bit index and a 16-bit generation.
#[derive(Hash, Clone, Copy, PartialEq, Eq, PartialOrd, Ord)]
pub struct P3 {
    // In this order the derived order goes by index first.
    _internal_inx: u16,
    _internal_gen: u16,
}

impl Model for P3 {
    ghost use Rattle.std.specs.Prelude.{ℕ, suc, ◌-◌, ◌<◌};
    ghost use Rattle.triple_arena_ptr.specs.NonZeroValues.{remade};

    // The numbers before its two, neither of which is 0.
    ghost Value = { ℕ × ℕ };

    ghost view = { λ p. (p._internal_inx - 1, p._internal_gen - 1) };

    ghost invariant = { λ p. (0 < p._internal_inx) × (0 < p._internal_gen) };

    ghost inverse = { λ v. record { _internal_inx = suc v.0; _internal_gen = suc v.1 } };

    ghost inverse_ok = { λ p h. remade (λ i g. record { _internal_inx = i; _internal_gen = g })
        p._internal_inx p._internal_gen h.0 h.1 };
}

impl Ptr for P3 {
    type Inx = NonZeroU16;

    type Gen = NonZeroU16;

    ghost index_of = { λ p. u16_after p.0 };

    ghost generation_of = { λ p. u16_after p.1 };

    ghost numbers = { λ p. (suc p.0, suc p.1) };

    ghost type_name = { codes "P3" };

    fn name() -> &'static str {
        "P3"
    }

    fn invalid() -> Self {
        P3::_from_raw(PtrInx::best_effort_invalid(), PtrGen::one())
    }

    #[tactic(auto, using(crate::specs::NonZeroValues::u16_is_after))]
    fn inx(self) -> NonZeroU16 {
        non_zero_u16(self._internal_inx)
    }

    #[tactic(auto, using(crate::specs::NonZeroValues::u16_is_after))]
    fn generation(self) -> NonZeroU16 {
        non_zero_u16(self._internal_gen)
    }

    #[tactic(auto, using(crate::specs::NonZeroValues::u16_after_before))]
    fn _from_raw(inx: NonZeroU16, generation: NonZeroU16) -> Self {
        P3 {
            _internal_inx: inx.get(),
            _internal_gen: generation.get(),
        }
    }

    ghost numbers_of = { λ _. refl };

    ghost distinct = { λ p q i g. same_pair p q
        (u16_after_cancels p.0 q.0 i) (u16_after_cancels p.1 q.1 g) };

    ghost equates = { λ _ _. refl };

    ghost orders = { λ _ _. refl };

    ghost holds_itself = { λ _. refl };

    ghost refills = { λ _ _. refl };

    ghost clones = { λ _ _ e. e };

    ghost clones_always = { λ _. tt };
}

impl Default for P3 {
    ghost is_default = { λ p. (suc p.0 ≡ 2 ^ 16 - 1) × (suc p.1 ≡ 1) };

    fn default() -> Self {
        P3::invalid()
    }
}

impl fmt::Debug for P3 {
    ghost debug_output = { λ p. Some (pointer_text (codes "P3") (suc p.0) true (suc p.1)) };

    fn fmt<W: fmt::Write>(&self, f: &mut fmt::Formatter<W>) -> fmt::Result {
        fmt_pointer("P3", self.inx(), self.generation(), f)
    }
}

impl fmt::Display for P3 {
    ghost output = { λ p. Some (pointer_text (codes "P3") (suc p.0) true (suc p.1)) };

    fn fmt<W: fmt::Write>(&self, f: &mut fmt::Formatter<W>) -> fmt::Result {
        fmt_pointer("P3", self.inx(), self.generation(), f)
    }
}

impl Recast<P3> for P3 {
    ghost held = { held_itself };

    ghost refill = { refill_itself };

    fn recast<R: Recaster<Item = P3>>(&mut self, recaster: &R) -> Result<(), P3> {
        recaster.recast_item(self)
    }

    ghost held_refill = { itself_held_refill };

    ghost refill_held = { itself_refill_held };

    ghost refill_refill = { itself_refill_refill };
}
