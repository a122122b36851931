//! Pointers of a name: one type for all that differ in their numbers and their name alone.

ghost use Rattle.std.specs.Prelude.{◌≡◌, List, ℕ, Some};
ghost use Rattle.std.proofs.Common.{refl};
ghost use Rattle.triple_arena_base.specs.Held.{held_itself, refill_itself};
ghost use Rattle.triple_arena_base.specs.laws.HeldLaws.{itself_held_refill, itself_refill_held, itself_refill_refill};
ghost use Rattle.triple_arena_ptr.specs.NonZeroValues.{same_pair_of};
ghost use Rattle.triple_arena_ptr.specs.PointerText.{pointer_text};
ghost use Rattle.triple_arena_ptr.specs.PairComparisons.{pairs_equal, pairs_in_order};

use crate::generation::PtrGen;
use crate::inx::PtrInx;
use crate::plain::Plain;
use crate::ptr::Ptr;
use crate::text::fmt_pointer;
use std::alloc::AllocError;
use std::fmt;
use std::hash::Hash;
use std::marker::{Model, PhantomData};
use triple_arena_base::{Recast, Recaster};

/// The name of a pointer type, a type without fields of its own.
pub trait PtrName: Hash + Clone + Copy + PartialEq + Eq + PartialOrd + Ord + 'static {
    /// The name in texts.
    ghost type_name: { List ℕ };

    /// The name in texts.
    fn name() -> &'static str
        ensures { result.now ≡ type_name };
}

/// The pointer of the name `N` whose index is kept as an `I` and whose generation as a `G`, plain
/// numbers both, or `()` for no generation.
///
/// A pointer type of one's own is this one with a name of one's own, as `B`, of a byte index and a
/// byte generation:
///
/// ```text
/// ghost use Rattle.std.specs.Prelude.{codes};
///
/// use triple_arena_ptr::{NamedPtr, PtrName};
///
/// /// The name of `B`.
/// #[derive(Hash, Clone, Copy, PartialEq, Eq, PartialOrd, Ord)]
/// pub struct BName;
///
/// impl PtrName for BName {
///     ghost type_name = { codes "B" };
///
///     fn name() -> &'static str {
///         "B"
///     }
/// }
///
/// /// A byte index and a byte generation.
/// pub type B = NamedPtr<BName, u8, u8>;
/// ```
///
/// Its model is the pair of the numbers before its two: in a clause `(suc p.0, suc p.1)` are the numbers of
/// a `p` that has a generation.
#[derive(Hash, Copy, PartialEq, Eq, PartialOrd, Ord)]
pub struct NamedPtr<N: PtrName, I: Plain, G: Plain> {
    // In this order the derived order goes by index first.
    _internal_inx: I,
    _internal_gen: G,
    of: PhantomData<N>,
}

impl<N: PtrName, I: Plain, G: Plain> Clone for NamedPtr<N, I, G> {
    ghost use Rattle.std.specs.Prelude.{⊤};

    ghost is_clone = { λ p q. q ≡ p };

    ghost is_infallible = { λ _. ⊤ };

    fn clone(&self) -> Result<NamedPtr<N, I, G>, AllocError> {
        Ok(*self)
    }
}

impl<N: PtrName, I: Plain, G: Plain> Model for NamedPtr<N, I, G> {
    ghost use Rattle.triple_arena_ptr.specs.NonZeroValues.{same_whole};

    // The numbers before its two, neither of which is 0.
    ghost Value = { I × G };

    ghost view = { λ p. (I.before p._internal_inx, G.before p._internal_gen) };

    ghost invariant = { λ p. I.is_after p._internal_inx × G.is_after p._internal_gen };

    ghost inverse = { λ v. record {
      _internal_inx = I.after v.0;
      _internal_gen = G.after v.1;
      of = record {};
    } };

    ghost inverse_ok = { λ p h. same_whole
        (λ i g. record { _internal_inx = i; _internal_gen = g; of = record {} })
        (I.after (I.before p._internal_inx)) p._internal_inx
        (G.after (G.before p._internal_gen)) p._internal_gen
        (I.after_before p._internal_inx h.0) (G.after_before p._internal_gen h.1) };
}

impl<N: PtrName, I: Plain, G: Plain> Ptr for NamedPtr<N, I, G>
where
    I::NonZero: PtrInx,
    G::NonZero: PtrGen,
{
    type Inx = I::NonZero;

    type Gen = G::NonZero;

    ghost index_of = { λ p. I.value_after p.0 };

    ghost generation_of = { λ p. G.value_after p.1 };

    ghost numbers = { λ p. (I.NonZero.number (I.value_after p.0), G.NonZero.number (G.value_after p.1)) };

    ghost type_name = { N.type_name };

    fn name() -> &'static str {
        N::name()
    }

    fn invalid() -> Self {
        NamedPtr::_from_raw(PtrInx::best_effort_invalid(), PtrGen::one())
    }

    fn inx(self) -> I::NonZero {
        self._internal_inx.value()
    }

    fn generation(self) -> G::NonZero {
        self._internal_gen.value()
    }

    fn _from_raw(inx: I::NonZero, generation: G::NonZero) -> Self {
        NamedPtr {
            _internal_inx: I::of(inx),
            _internal_gen: G::of(generation),
            of: PhantomData,
        }
    }

    ghost numbers_of = { λ _. refl };

    ghost distinct = { λ p q i g. same_pair_of p q (I.distinct p.0 q.0 i) (G.distinct p.1 q.1 g) };

    ghost equates = { λ p q. pairs_equal
        (I.eq (I.after p.0) (I.after q.0)) (I.NonZero.eq (I.value_after p.0) (I.value_after q.0))
        (G.eq (G.after p.1) (G.after q.1)) (G.NonZero.eq (G.value_after p.1) (G.value_after q.1))
        (I.equates p.0 q.0) (G.equates p.1 q.1) };

    ghost orders = { λ p q. pairs_in_order
        (I.cmp (I.after p.0) (I.after q.0)) (I.NonZero.cmp (I.value_after p.0) (I.value_after q.0))
        (G.cmp (G.after p.1) (G.after q.1)) (G.NonZero.cmp (G.value_after p.1) (G.value_after q.1))
        (I.orders p.0 q.0) (G.orders p.1 q.1) };

    ghost holds_itself = { λ _. refl };

    ghost refills = { λ _ _. refl };

    ghost clones = { λ _ _ e. e };

    ghost clones_always = { λ _. tt };
}

impl<N: PtrName, I: Plain, G: Plain> Default for NamedPtr<N, I, G>
where
    I::NonZero: PtrInx,
    G::NonZero: PtrGen,
{
    ghost is_default = { λ p. (I.NonZero.number (I.value_after p.0) ≡ I.NonZero.greatest)
        × (G.NonZero.number (G.value_after p.1) ≡ 1) };

    fn default() -> Self {
        NamedPtr::invalid()
    }
}

impl<N: PtrName, I: Plain, G: Plain> fmt::Debug for NamedPtr<N, I, G>
where
    I::NonZero: PtrInx,
    G::NonZero: PtrGen,
{
    ghost debug_output = { λ p. Some (pointer_text N.type_name (I.NonZero.number (I.value_after p.0))
        G.NonZero.generations.counting (G.NonZero.number (G.value_after p.1))) };

    fn fmt<W: fmt::Write>(&self, f: &mut fmt::Formatter<W>) -> fmt::Result {
        fmt_pointer(
            N::name(),
            self._internal_inx.value(),
            self._internal_gen.value(),
            f,
        )
    }
}

impl<N: PtrName, I: Plain, G: Plain> fmt::Display for NamedPtr<N, I, G>
where
    I::NonZero: PtrInx,
    G::NonZero: PtrGen,
{
    ghost output = { λ p. Some (pointer_text N.type_name (I.NonZero.number (I.value_after p.0))
        G.NonZero.generations.counting (G.NonZero.number (G.value_after p.1))) };

    fn fmt<W: fmt::Write>(&self, f: &mut fmt::Formatter<W>) -> fmt::Result {
        fmt_pointer(
            N::name(),
            self._internal_inx.value(),
            self._internal_gen.value(),
            f,
        )
    }
}

impl<N: PtrName, I: Plain, G: Plain> Recast<NamedPtr<N, I, G>> for NamedPtr<N, I, G> {
    ghost held = { held_itself };

    ghost refill = { refill_itself };

    fn recast<R: Recaster<Item = NamedPtr<N, I, G>>>(
        &mut self,
        recaster: &R,
    ) -> Result<(), NamedPtr<N, I, G>> {
        recaster.recast_item(self)
    }

    ghost held_refill = { itself_held_refill };

    ghost refill_held = { itself_refill_held };

    ghost refill_refill = { itself_refill_refill };
}
