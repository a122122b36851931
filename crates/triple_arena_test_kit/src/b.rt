//! The pointer whose generations alone end soon.

ghost use Rattle.std.specs.Prelude.{◌≡◌, Some, true, codes};
ghost use Rattle.std.specs.Int.NonZero.{non_zero_u8_get, non_zero_usize_get};
ghost use Rattle.std.proofs.Common.{refl, ap, ◌∙◌};
ghost use Rattle.triple_arena_base.specs.Held.{held_itself, refill_itself};
ghost use Rattle.triple_arena_base.specs.laws.HeldLaws.{itself_held_refill, itself_refill_held, itself_refill_refill};
ghost use Rattle.triple_arena_ptr.specs.PointerText.{pointer_text};

use std::fmt;
use std::marker::Model;
use std::num::{NonZeroU8, NonZeroUsize};
use triple_arena_base::{Recast, Recaster};
use triple_arena_ptr::{Ptr, PtrGen, PtrInx, fmt_pointer};

/// A pointer of a `usize` index and a byte generation: a counter wraps after 254 raises.
#[derive(Hash, Clone, Copy, PartialEq, Eq, PartialOrd, Ord)]
pub struct B {
    // In this order the derived order goes by index first.
    _internal_inx: NonZeroUsize,
    _internal_gen: NonZeroU8,
}

impl Model for B {
    ghost use Rattle.std.specs.declared.num.NonZeroU8.{NonZeroU8};
    ghost use Rattle.std.specs.declared.num.NonZeroUsize.{NonZeroUsize};

    // Its index and its generation.
    ghost Value = { NonZeroUsize × NonZeroU8 };

    ghost view = { λ p. (p._internal_inx, p._internal_gen) };

    ghost inverse = { λ v. record { _internal_inx = v.0; _internal_gen = v.1 } };
}

impl Ptr for B {
    type Inx = NonZeroUsize;

    type Gen = NonZeroU8;

    ghost index_of = { λ p. p.0 };

    ghost generation_of = { λ p. p.1 };

    ghost numbers = { λ p. (non_zero_usize_get p.0, non_zero_u8_get p.1) };

    ghost type_name = { codes "B" };

    fn name() -> &'static str {
        "B"
    }

    fn invalid() -> Self {
        B::_from_raw(PtrInx::best_effort_invalid(), PtrGen::one())
    }

    fn inx(self) -> NonZeroUsize {
        self._internal_inx
    }

    fn generation(self) -> NonZeroU8 {
        self._internal_gen
    }

    fn _from_raw(inx: NonZeroUsize, generation: NonZeroU8) -> Self {
        B {
            _internal_inx: inx,
            _internal_gen: generation,
        }
    }

    ghost numbers_of = { λ _. refl };

    ghost distinct = { λ p q i g. ap (λ j. (j, p.1)) i ∙ ap (λ h. (q.0, h)) g };

    ghost equates = { λ _ _. refl };

    ghost orders = { λ _ _. refl };

    ghost holds_itself = { λ _. refl };

    ghost refills = { λ _ _. refl };

    ghost clones = { λ _ _ e. e };

    ghost clones_always = { λ _. tt };
}

impl fmt::Debug for B {
    ghost debug_output = { λ p. Some
        (pointer_text (codes "B") (non_zero_usize_get p.0) true (non_zero_u8_get p.1)) };

    fn fmt<W: fmt::Write>(&self, f: &mut fmt::Formatter<W>) -> fmt::Result {
        fmt_pointer("B", self._internal_inx, self._internal_gen, f)
    }
}

impl Recast<B> for B {
    ghost held = { held_itself };

    ghost refill = { refill_itself };

    fn recast<R: Recaster<Item = B>>(&mut self, recaster: &R) -> Result<(), B> {
        recaster.recast_item(self)
    }

    ghost held_refill = { itself_held_refill };

    ghost refill_held = { itself_refill_held };

    ghost refill_refill = { itself_refill_refill };
}
