//! Pointers as bytes: the index and then the generation, each in the width of its type.

ghost use Rattle.std.specs.Prelude.{◌≡◌, ◌++◌, ℕ, suc, ◌^◌, OnOk, ◌∷◌, [], false, IfErr};
ghost use Rattle.std.specs.Int.{w16, w32, w64};
ghost use Rattle.triple_arena_ptr.specs.Pointers.{Pointer};
ghost use Rattle.triple_arena_snapshot.specs.Coding.{Gives, MayFail};
ghost use Rattle.triple_arena_snapshot.specs.Layouts.{byte, number, both, pointer, bare_pointer};
ghost use Rattle.triple_arena_snapshot.specs.laws.CodingLaws.{wide16, wide32, wide64};

use crate::codec::Codec;
use crate::fault::DecodeError;
use crate::generations::GenerationCodec;
use crate::shapes::{shape_alone, shape_over};
use std::alloc::Global;
use std::num::{NonZeroU8, NonZeroU16, NonZeroU32, NonZeroU64, NonZeroUsize};
use triple_arena_base::AllocError;
use triple_arena_ptr::{
    NamedPtr, P0, P1, P2, P3, P4, P5, Plain, Ptr, PtrInx, PtrKind, PtrName, PtrNoGen, Q2, SmallPtr,
};

/// Sixteen bytes.
impl Codec for P0 {
    ghost Content = { Pointer };

    ghost content = { λ p. (suc p.0, suc p.1) };

    ghost coding = { pointer (number w64 (2 ^ 64) wide64) (number w64 (2 ^ 64) wide64) };

    ghost shape = { 25 ∷ [] };

    ghost asks = { false };

    fn shape_at(at: usize) -> Result<u8, usize> {
        shape_alone(25, at)
    }

    fn encode(&self, out: &mut Vec<u8>) -> Result<(), AllocError> {
        self.inx().encode(out)?;
        self.generation().encode(out)
    }

    fn decode(alloc: Global, bytes: &[u8]) -> Result<(Self, &[u8]), DecodeError> {
        let (inx, rest) = NonZeroUsize::decode(alloc, bytes)?;
        let (generation, rest) = NonZeroU64::decode(alloc, rest)?;
        Ok((P0::_from_raw(inx, generation), rest))
    }
}

/// Sixteen bytes.
impl Codec for Q2 {
    ghost Content = { Pointer };

    ghost content = { λ p. (suc p.0, suc p.1) };

    ghost coding = { pointer (number w64 (2 ^ 64) wide64) (number w64 (2 ^ 64) wide64) };

    ghost shape = { 26 ∷ [] };

    ghost asks = { false };

    fn shape_at(at: usize) -> Result<u8, usize> {
        shape_alone(26, at)
    }

    fn encode(&self, out: &mut Vec<u8>) -> Result<(), AllocError> {
        self.inx().encode(out)?;
        self.generation().encode(out)
    }

    fn decode(alloc: Global, bytes: &[u8]) -> Result<(Self, &[u8]), DecodeError> {
        let (inx, rest) = NonZeroUsize::decode(alloc, bytes)?;
        let (generation, rest) = NonZeroU64::decode(alloc, rest)?;
        Ok((Q2::_from_raw(inx, generation), rest))
    }
}

/// Ten bytes.
impl Codec for P1 {
    ghost Content = { Pointer };

    ghost content = { λ p. (suc p.0, suc p.1) };

    ghost coding = { pointer (number w16 (2 ^ 16) wide16) (number w64 (2 ^ 64) wide64) };

    ghost shape = { 27 ∷ [] };

    ghost asks = { false };

    fn shape_at(at: usize) -> Result<u8, usize> {
        shape_alone(27, at)
    }

    fn encode(&self, out: &mut Vec<u8>) -> Result<(), AllocError> {
        self.inx().encode(out)?;
        self.generation().encode(out)
    }

    fn decode(alloc: Global, bytes: &[u8]) -> Result<(Self, &[u8]), DecodeError> {
        let (inx, rest) = NonZeroU16::decode(alloc, bytes)?;
        let (generation, rest) = NonZeroU64::decode(alloc, rest)?;
        Ok((P1::_from_raw(inx, generation), rest))
    }
}

/// Ten bytes.
impl Codec for P2 {
    ghost Content = { Pointer };

    ghost content = { λ p. (suc p.0, suc p.1) };

    ghost coding = { pointer (number w64 (2 ^ 64) wide64) (number w16 (2 ^ 16) wide16) };

    ghost shape = { 28 ∷ [] };

    ghost asks = { false };

    fn shape_at(at: usize) -> Result<u8, usize> {
        shape_alone(28, at)
    }

    fn encode(&self, out: &mut Vec<u8>) -> Result<(), AllocError> {
        self.inx().encode(out)?;
        self.generation().encode(out)
    }

    fn decode(alloc: Global, bytes: &[u8]) -> Result<(Self, &[u8]), DecodeError> {
        let (inx, rest) = NonZeroUsize::decode(alloc, bytes)?;
        let (generation, rest) = NonZeroU16::decode(alloc, rest)?;
        Ok((P2::_from_raw(inx, generation), rest))
    }
}

/// Four bytes.
impl Codec for P3 {
    ghost Content = { Pointer };

    ghost content = { λ p. (suc p.0, suc p.1) };

    ghost coding = { pointer (number w16 (2 ^ 16) wide16) (number w16 (2 ^ 16) wide16) };

    ghost shape = { 29 ∷ [] };

    ghost asks = { false };

    fn shape_at(at: usize) -> Result<u8, usize> {
        shape_alone(29, at)
    }

    fn encode(&self, out: &mut Vec<u8>) -> Result<(), AllocError> {
        self.inx().encode(out)?;
        self.generation().encode(out)
    }

    fn decode(alloc: Global, bytes: &[u8]) -> Result<(Self, &[u8]), DecodeError> {
        let (inx, rest) = NonZeroU16::decode(alloc, bytes)?;
        let (generation, rest) = NonZeroU16::decode(alloc, rest)?;
        Ok((P3::_from_raw(inx, generation), rest))
    }
}

/// Eight bytes.
impl Codec for SmallPtr {
    ghost Content = { Pointer };

    ghost content = { λ p. (suc p.0, suc p.1) };

    ghost coding = { pointer (number w32 (2 ^ 32) wide32) (number w32 (2 ^ 32) wide32) };

    ghost shape = { 30 ∷ [] };

    ghost asks = { false };

    fn shape_at(at: usize) -> Result<u8, usize> {
        shape_alone(30, at)
    }

    fn encode(&self, out: &mut Vec<u8>) -> Result<(), AllocError> {
        self.inx().encode(out)?;
        self.generation().encode(out)
    }

    fn decode(alloc: Global, bytes: &[u8]) -> Result<(Self, &[u8]), DecodeError> {
        let (inx, rest) = NonZeroU32::decode(alloc, bytes)?;
        let (generation, rest) = NonZeroU32::decode(alloc, rest)?;
        Ok((SmallPtr::_from_raw(inx, generation), rest))
    }
}

/// Eight bytes.
impl Codec for P4 {
    ghost Content = { Pointer };

    ghost content = { λ p. (suc p, 1) };

    ghost coding = { bare_pointer (number w64 (2 ^ 64) wide64) };

    ghost shape = { 31 ∷ [] };

    ghost asks = { false };

    fn shape_at(at: usize) -> Result<u8, usize> {
        shape_alone(31, at)
    }

    fn encode(&self, out: &mut Vec<u8>) -> Result<(), AllocError> {
        self.inx().encode(out)
    }

    fn decode(alloc: Global, bytes: &[u8]) -> Result<(Self, &[u8]), DecodeError> {
        let (inx, rest) = NonZeroUsize::decode(alloc, bytes)?;
        Ok((P4::_from_raw(inx, ()), rest))
    }
}

/// One byte.
impl Codec for P5 {
    ghost Content = { Pointer };

    ghost content = { λ p. (suc p, 1) };

    ghost coding = { bare_pointer byte };

    ghost shape = { 32 ∷ [] };

    ghost asks = { false };

    fn shape_at(at: usize) -> Result<u8, usize> {
        shape_alone(32, at)
    }

    fn encode(&self, out: &mut Vec<u8>) -> Result<(), AllocError> {
        self.inx().encode(out)
    }

    fn decode(alloc: Global, bytes: &[u8]) -> Result<(Self, &[u8]), DecodeError> {
        let (inx, rest) = NonZeroU8::decode(alloc, bytes)?;
        Ok((P5::_from_raw(inx, ()), rest))
    }
}

/// The index as its type has it, and the generation in its bytes.
impl<N: PtrName, I: Plain, G: Plain> Codec for NamedPtr<N, I, G>
where
    I::NonZero: PtrInx + Codec,
    G::NonZero: GenerationCodec,
{
    ghost Content = { I.NonZero.Content × ℕ };

    ghost content = { λ p. (I.NonZero.content (I.value_after p.0), G.NonZero.number (G.value_after p.1)) };

    ghost coding = { both I.NonZero.coding G.NonZero.numbered };

    ghost shape = { 33 ∷ G.NonZero.width ∷ I.NonZero.shape };

    ghost asks = { I.NonZero.asks };

    fn shape_at(at: usize) -> Result<u8, usize> {
        if at == 0 {
            return Ok(33);
        }
        shape_over::<I::NonZero>(G::NonZero::width(), at - 1)
    }

    // The trait's clauses are written out here and below, since inheriting them makes each call dearer to
    // prove.
    fn encode(&self, out: &mut Vec<u8>) -> Result<(), AllocError>
        ensures written { OnOk result (out.new.items ≡ out.old.items
            ++ (both I.NonZero.coding G.NonZero.numbered).encoding
            (I.NonZero.content (I.value_after self.now.0), G.NonZero.number (G.value_after self.now.1))) }
        ensures fits { OnOk result ((both I.NonZero.coding G.NonZero.numbered).fits
            (I.NonZero.content (I.value_after self.now.0), G.NonZero.number (G.value_after self.now.1))) }
    {
        self.inx().encode(out)?;
        self.generation().encode_generation(out)
    }

    fn decode(alloc: Global, bytes: &[u8]) -> Result<(Self, &[u8]), DecodeError>
        ensures read { Gives (λ x. (
          (
            I.NonZero.content (I.value_after x.0.0),
            G.NonZero.number (G.value_after x.0.1),
          ),
          x.1.now,
        )) result
            ((both I.NonZero.coding G.NonZero.numbered).decoding bytes.now) }
        ensures memory { IfErr result (λ e. MayFail I.NonZero.asks e) }
    {
        let (inx, rest) = I::NonZero::decode(alloc, bytes)?;
        let (generation, rest) = G::NonZero::decode_generation(alloc, rest)?;
        Ok((NamedPtr::_from_raw(inx, generation), rest))
    }
}

/// The index, as its type has it.
impl<I: PtrInx + Codec, P: Ptr<Inx = I>> Codec for PtrNoGen<P, I> {
    ghost Content = { I.Content };

    ghost content = { λ p. I.content p };

    ghost coding = { I.coding };

    ghost shape = { 34 ∷ I.shape };

    ghost asks = { I.asks };

    fn shape_at(at: usize) -> Result<u8, usize> {
        shape_over::<I>(34, at)
    }

    fn encode(&self, out: &mut Vec<u8>) -> Result<(), AllocError>
        ensures written { OnOk result
            (out.new.items ≡ out.old.items ++ I.coding.encoding (I.content self.now)) }
        ensures fits { OnOk result (I.coding.fits (I.content self.now)) }
    {
        self.inx().encode(out)
    }

    fn decode(alloc: Global, bytes: &[u8]) -> Result<(Self, &[u8]), DecodeError>
        ensures read { Gives (λ x. (I.content x.0, x.1.now)) result (I.coding.decoding bytes.now) }
        ensures memory { IfErr result (λ e. MayFail I.asks e) }
    {
        let (inx, rest) = I::decode(alloc, bytes)?;
        Ok((PtrNoGen::_from_raw(inx, ()), rest))
    }
}

/// The bytes of `P`.
impl<P: Ptr + Codec, const KIND: usize> Codec for PtrKind<P, KIND> {
    ghost Content = { P.Content };

    ghost content = { P.content };

    ghost coding = { P.coding };

    ghost shape = { 35 ∷ P.shape };

    ghost asks = { P.asks };

    fn shape_at(at: usize) -> Result<u8, usize> {
        shape_over::<P>(35, at)
    }

    fn encode(&self, out: &mut Vec<u8>) -> Result<(), AllocError> {
        self.ptr().encode(out)
    }

    fn decode(alloc: Global, bytes: &[u8]) -> Result<(Self, &[u8]), DecodeError> {
        let (ptr, rest) = P::decode(alloc, bytes)?;
        Ok((PtrKind::of(ptr), rest))
    }
}
