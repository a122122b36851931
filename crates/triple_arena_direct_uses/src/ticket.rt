//! The ticket of a lease: an own pointer, of a 32-bit index and a byte generation.

ghost use Rattle.std.specs.Prelude.{◌≡◌, ◌^◌, ◌-◌, Some, true, suc, codes};
ghost use Rattle.std.proofs.Common.{refl};
ghost use Rattle.triple_arena_base.specs.Held.{held_itself, refill_itself};
ghost use Rattle.triple_arena_base.specs.laws.HeldLaws.{itself_held_refill, itself_refill_held, itself_refill_refill};
ghost use Rattle.triple_arena_ptr.specs.NonZeroValues.{same_pair, u8_after, u8_after_cancels, u32_after, u32_after_cancels};
ghost use Rattle.triple_arena_ptr.specs.PointerText.{pointer_text};

use std::fmt;
use std::marker::Model;
use std::num::{NonZeroU8, NonZeroU32};
use triple_arena_base::{Recast, Recaster};
use triple_arena_ptr::{Ptr, PtrGen, PtrInx, fmt_pointer, non_zero_u8, non_zero_u32};

/// The ticket of a lease, in 8 bytes. Its generations are used up after 253 revocations.
#[derive(Hash, Clone, Copy, PartialEq, Eq, PartialOrd, Ord)]
pub struct Ticket {
    // In this order the derived order goes by index first.
    _internal_inx: u32,
    _internal_gen: u8,
}

impl Model for Ticket {
    ghost use Rattle.std.specs.Prelude.{ℕ, suc, ◌-◌, ◌<◌};
    ghost use Rattle.triple_arena_ptr.specs.NonZeroValues.{remade};

    // The numbers before its two, neither of which is 0.
    ghost Value = { ℕ × ℕ };

    ghost view = { λ p. (p._internal_inx - 1, p._internal_gen - 1) };

    ghost invariant = { λ p. (0 < p._internal_inx) × (0 < p._internal_gen) };

    ghost inverse = { λ v. record { _internal_inx = suc v.0; _internal_gen = suc v.1 } };

    ghost inverse_ok = { λ p h. remade (λ i g. record { _internal_inx = i; _internal_gen = g })
        p._internal_inx p._internal_gen h.0 h.1 };
}

impl Ptr for Ticket {
    type Inx = NonZeroU32;

    type Gen = NonZeroU8;

    ghost index_of = { λ p. u32_after p.0 };

    ghost generation_of = { λ p. u8_after p.1 };

    ghost numbers = { λ p. (suc p.0, suc p.1) };

    ghost type_name = { codes "Ticket" };

    fn name() -> &'static str {
        "Ticket"
    }

    fn invalid() -> Self {
        Ticket::_from_raw(PtrInx::best_effort_invalid(), PtrGen::one())
    }

    #[tactic(auto, using(triple_arena_ptr::specs::NonZeroValues::u32_is_after))]
    fn inx(self) -> NonZeroU32 {
        non_zero_u32(self._internal_inx)
    }

    #[tactic(auto, using(triple_arena_ptr::specs::NonZeroValues::u8_is_after))]
    fn generation(self) -> NonZeroU8 {
        non_zero_u8(self._internal_gen)
    }

    #[tactic(auto, using(triple_arena_ptr::specs::NonZeroValues::u32_after_before, triple_arena_ptr::specs::NonZeroValues::u8_after_before))]
    fn _from_raw(inx: NonZeroU32, generation: NonZeroU8) -> Self {
        Ticket {
            _internal_inx: inx.get(),
            _internal_gen: generation.get(),
        }
    }

    ghost numbers_of = { λ _. refl };

    ghost distinct = { λ p q i g. same_pair p q
        (u32_after_cancels p.0 q.0 i) (u8_after_cancels p.1 q.1 g) };

    ghost equates = { λ _ _. refl };

    ghost orders = { λ _ _. refl };

    ghost holds_itself = { λ _. refl };

    ghost refills = { λ _ _. refl };

    ghost clones = { λ _ _ e. e };

    ghost clones_always = { λ _. tt };
}

impl Default for Ticket {
    ghost is_default = { λ p. (suc p.0 ≡ 2 ^ 32 - 1) × (suc p.1 ≡ 1) };

    fn default() -> Self {
        Ticket::invalid()
    }
}

impl fmt::Debug for Ticket {
    ghost debug_output = { λ p. Some (pointer_text (codes "Ticket") (suc p.0) true (suc p.1)) };

    fn fmt<W: fmt::Write>(&self, f: &mut fmt::Formatter<W>) -> fmt::Result {
        fmt_pointer("Ticket", self.inx(), self.generation(), f)
    }
}

impl fmt::Display for Ticket {
    ghost output = { λ p. Some (pointer_text (codes "Ticket") (suc p.0) true (suc p.1)) };

    fn fmt<W: fmt::Write>(&self, f: &mut fmt::Formatter<W>) -> fmt::Result {
        fmt_pointer("Ticket", self.inx(), self.generation(), f)
    }
}

impl Recast<Ticket> for Ticket {
    ghost held = { held_itself };

    ghost refill = { refill_itself };

    fn recast<R: Recaster<Item = Ticket>>(&mut self, recaster: &R) -> Result<(), Ticket> {
        recaster.recast_item(self)
    }

    ghost held_refill = { itself_held_refill };

    ghost refill_held = { itself_refill_held };

    ghost refill_refill = { itself_refill_refill };
}
