//! A pointer without its generation.

ghost use Rattle.std.specs.Prelude.{◌≡◌, Some, false};
ghost use Rattle.std.proofs.Common.{refl};
ghost use Rattle.triple_arena_base.specs.Held.{held_itself, refill_itself};
ghost use Rattle.triple_arena_base.specs.laws.HeldLaws.{itself_held_refill, itself_refill_held, itself_refill_refill};
ghost use Rattle.triple_arena_ptr.specs.PointerText.{pointer_text};

use crate::inx::PtrInx;
use crate::ptr::Ptr;
use crate::text::fmt_pointer;
use std::alloc::AllocError;
use std::fmt;
use std::marker::{Model, PhantomData};
use triple_arena_base::{Recast, Recaster};

/// The pointer of `P`'s name and index type that has no generation. `PtrNoGen<P0>` is written
/// without the second parameter, which stands for the index type.
#[derive(Hash, Copy, PartialEq, Eq, PartialOrd, Ord)]
pub struct PtrNoGen<P: Ptr, I = <P as Ptr>::Inx> {
    _internal_inx: I,
    _internal_gen: (),
    of: PhantomData<P>,
}

impl<P: Ptr, I: Copy> Clone for PtrNoGen<P, I> {
    ghost use Rattle.std.specs.Prelude.{⊤};

    ghost is_clone = { λ p q. q ≡ p };

    ghost is_infallible = { λ _. ⊤ };

    fn clone(&self) -> Result<PtrNoGen<P, I>, AllocError> {
        Ok(*self)
    }
}

impl<P: Ptr, I> Model for PtrNoGen<P, I> {
    // Its index.
    ghost Value = { I };

    ghost view = { λ p. p._internal_inx };

    ghost inverse = { λ i. record { _internal_inx = i; _internal_gen = tt; of = record {} } };
}

impl<I: PtrInx, P: Ptr<Inx = I>> Ptr for PtrNoGen<P, I> {
    type Inx = I;

    type Gen = ();

    ghost index_of = { λ p. p };

    ghost generation_of = { λ _. tt };

    ghost numbers = { λ p. (I.number p, 1) };

    ghost type_name = { P.type_name };

    fn name() -> &'static str {
        P::name()
    }

    fn invalid() -> Self {
        PtrNoGen::_from_raw(PtrInx::best_effort_invalid(), ())
    }

    fn inx(self) -> I {
        self._internal_inx
    }

    fn generation(self) {}

    fn _from_raw(inx: I, generation: ()) -> Self {
        PtrNoGen {
            _internal_inx: inx,
            _internal_gen: generation,
            of: PhantomData,
        }
    }

    ghost numbers_of = { λ _. refl };

    ghost distinct = { λ _ _ i _. i };

    ghost equates = { λ _ _. refl };

    ghost orders = { λ _ _. refl };

    ghost holds_itself = { λ _. refl };

    ghost refills = { λ _ _. refl };

    ghost clones = { λ _ _ e. e };

    ghost clones_always = { λ _. tt };
}

impl<I: PtrInx, P: Ptr<Inx = I>> Default for PtrNoGen<P, I> {
    ghost is_default = { λ p. I.number p ≡ I.greatest };

    fn default() -> Self {
        PtrNoGen::invalid()
    }
}

impl<I: PtrInx, P: Ptr<Inx = I>> fmt::Debug for PtrNoGen<P, I> {
    ghost debug_output = { λ p. Some (pointer_text P.type_name (I.number p) false 1) };

    fn fmt<W: fmt::Write>(&self, f: &mut fmt::Formatter<W>) -> fmt::Result {
        fmt_pointer(P::name(), self._internal_inx, self._internal_gen, f)
    }
}

impl<I: PtrInx, P: Ptr<Inx = I>> fmt::Display for PtrNoGen<P, I> {
    ghost output = { λ p. Some (pointer_text P.type_name (I.number p) false 1) };

    fn fmt<W: fmt::Write>(&self, f: &mut fmt::Formatter<W>) -> fmt::Result {
        fmt_pointer(P::name(), self._internal_inx, self._internal_gen, f)
    }
}

impl<I: PtrInx, P: Ptr<Inx = I>> Recast<PtrNoGen<P, I>> for PtrNoGen<P, I> {
    ghost held = { held_itself };

    ghost refill = { refill_itself };

    fn recast<R: Recaster<Item = PtrNoGen<P, I>>>(
        &mut self,
        recaster: &R,
    ) -> Result<(), PtrNoGen<P, I>> {
        recaster.recast_item(self)
    }

    ghost held_refill = { itself_held_refill };

    ghost refill_held = { itself_refill_held };

    ghost refill_refill = { itself_refill_refill };
}
