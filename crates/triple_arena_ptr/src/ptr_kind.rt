//! Pointer types of one form, for arenas that point at each other.

ghost use Rattle.std.specs.Prelude.{◌≡◌, Some};
ghost use Rattle.std.proofs.Common.{refl};
ghost use Rattle.triple_arena_base.specs.Held.{held_itself, refill_itself};
ghost use Rattle.triple_arena_base.specs.laws.HeldLaws.{itself_held_refill, itself_refill_held, itself_refill_refill};
ghost use Rattle.triple_arena_ptr.specs.PointerText.{pointer_text};

use crate::ptr::Ptr;
use crate::text::fmt_pointer;
use std::alloc::AllocError;
use std::fmt;
use std::marker::Model;
use triple_arena_base::{Recast, Recaster};

/// A pointer of the index, the generation and the text of `P`, in a type of its own for each number
/// `KIND`: so that a pointer of one arena doesn't compile as that of another, and the kinds of pointers
/// that a value holds stand apart. Each is given a name of its own:
///
/// ```text
/// type CellPtr = PtrKind<P0, 1>;
/// type NetPtr = PtrKind<P0, 2>;
/// ```
///
/// The arenas are an `Arena<CellPtr, Cell>` and an `Arena<NetPtr, Net>` then. Clauses see the pointer
/// of `P`, so that its numbers are those of that.
#[derive(Hash, Copy, PartialEq, Eq, PartialOrd, Ord)]
pub struct PtrKind<P, const KIND: usize> {
    ptr: P,
}

impl<P: Copy, const KIND: usize> Clone for PtrKind<P, KIND> {
    ghost use Rattle.std.specs.Prelude.{⊤};

    ghost is_clone = { λ p q. q ≡ p };

    ghost is_infallible = { λ _. ⊤ };

    fn clone(&self) -> Result<PtrKind<P, KIND>, AllocError> {
        Ok(*self)
    }
}

impl<P, const KIND: usize> Model for PtrKind<P, KIND> {
    // The pointer of `P`.
    ghost Value = { P };

    ghost view = { λ p. p.ptr };

    ghost inverse = { λ p. record { ptr = p } };
}

impl<P, const KIND: usize> PtrKind<P, KIND> {
    /// The pointer of this kind whose index and generation `ptr` has.
    pub fn of(ptr: P) -> Self
        ensures { result ≡ ptr }
    {
        PtrKind { ptr }
    }

    /// The pointer of `P` that has its index and generation.
    pub fn ptr(self) -> P
        ensures { result ≡ self }
    {
        self.ptr
    }
}

impl<P: Ptr, const KIND: usize> Ptr for PtrKind<P, KIND> {
    type Inx = P::Inx;

    type Gen = P::Gen;

    ghost index_of = { P.index_of };

    ghost generation_of = { P.generation_of };

    ghost numbers = { P.numbers };

    ghost type_name = { P.type_name };

    fn name() -> &'static str {
        P::name()
    }

    fn invalid() -> Self {
        PtrKind { ptr: P::invalid() }
    }

    fn inx(self) -> P::Inx {
        self.ptr.inx()
    }

    fn generation(self) -> P::Gen {
        self.ptr.generation()
    }

    fn _from_raw(inx: P::Inx, generation: P::Gen) -> Self {
        PtrKind {
            ptr: P::_from_raw(inx, generation),
        }
    }

    ghost numbers_of = { P.numbers_of };

    ghost distinct = { P.distinct };

    ghost equates = { P.equates };

    ghost orders = { P.orders };

    ghost holds_itself = { λ _. refl };

    ghost refills = { λ _ _. refl };

    ghost clones = { λ _ _ e. e };

    ghost clones_always = { λ _. tt };
}

impl<P: Ptr, const KIND: usize> Default for PtrKind<P, KIND> {
    ghost is_default = { λ p. P.numbers p ≡ (P.Inx.greatest, 1) };

    fn default() -> Self {
        PtrKind::invalid()
    }
}

impl<P: Ptr, const KIND: usize> fmt::Debug for PtrKind<P, KIND> {
    ghost debug_output = { λ p. Some (pointer_text P.type_name (P.numbers p).0
        P.Gen.generations.counting (P.numbers p).1) };

    fn fmt<W: fmt::Write>(&self, f: &mut fmt::Formatter<W>) -> fmt::Result {
        fmt_pointer(P::name(), self.ptr.inx(), self.ptr.generation(), f)
    }
}

impl<P: Ptr, const KIND: usize> fmt::Display for PtrKind<P, KIND> {
    ghost output = { λ p. Some (pointer_text P.type_name (P.numbers p).0
        P.Gen.generations.counting (P.numbers p).1) };

    fn fmt<W: fmt::Write>(&self, f: &mut fmt::Formatter<W>) -> fmt::Result {
        fmt_pointer(P::name(), self.ptr.inx(), self.ptr.generation(), f)
    }
}

impl<P: Ptr, const KIND: usize> Recast<PtrKind<P, KIND>> for PtrKind<P, KIND> {
    ghost held = { held_itself };

    ghost refill = { refill_itself };

    fn recast<R: Recaster<Item = PtrKind<P, KIND>>>(
        &mut self,
        recaster: &R,
    ) -> Result<(), PtrKind<P, KIND>> {
        recaster.recast_item(self)
    }

    ghost held_refill = { itself_held_refill };

    ghost refill_held = { itself_refill_held };

    ghost refill_refill = { itself_refill_refill };
}
