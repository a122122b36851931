//! Signed numbers as bytes, in two's complement.

ghost use Rattle.std.specs.Prelude.{◌≡◌, ℤ, ◌^◌, ◌∷◌, [], false};
ghost use Rattle.std.specs.Int.{w8, w16, w32, w64, w128, cast_unsigned, cast_signed};
ghost use Rattle.triple_arena_snapshot.specs.Layouts.{byte, through, signed, signed_long_number};
ghost use Rattle.triple_arena_snapshot.specs.laws.CodingLaws.{wide16, wide32, wide64};

use crate::codec::Codec;
use crate::fault::DecodeError;
use crate::shapes::shape_alone;
use std::alloc::Global;
use triple_arena_base::AllocError;

/// As `u8`.
impl Codec for i8 {
    ghost Content = { ℤ };

    ghost content = { λ n. n };

    ghost coding = { through (cast_unsigned w8) (cast_signed w8) byte };

    ghost shape = { 7 ∷ [] };

    ghost asks = { false };

    fn shape_at(at: usize) -> Result<u8, usize> {
        shape_alone(7, at)
    }

    fn encode(&self, out: &mut Vec<u8>) -> Result<(), AllocError> {
        self.cast_unsigned().encode(out)
    }

    fn decode(alloc: Global, bytes: &[u8]) -> Result<(Self, &[u8]), DecodeError> {
        let (number, rest) = u8::decode(alloc, bytes)?;
        Ok((number.cast_signed(), rest))
    }
}

/// As `u16`.
impl Codec for i16 {
    ghost Content = { ℤ };

    ghost content = { λ n. n };

    ghost coding = { signed w16 (2 ^ 16) wide16 };

    ghost shape = { 8 ∷ [] };

    ghost asks = { false };

    fn shape_at(at: usize) -> Result<u8, usize> {
        shape_alone(8, at)
    }

    fn encode(&self, out: &mut Vec<u8>) -> Result<(), AllocError> {
        self.cast_unsigned().encode(out)
    }

    fn decode(alloc: Global, bytes: &[u8]) -> Result<(Self, &[u8]), DecodeError> {
        let (number, rest) = u16::decode(alloc, bytes)?;
        Ok((number.cast_signed(), rest))
    }
}

/// As `u32`.
impl Codec for i32 {
    ghost Content = { ℤ };

    ghost content = { λ n. n };

    ghost coding = { signed w32 (2 ^ 32) wide32 };

    ghost shape = { 9 ∷ [] };

    ghost asks = { false };

    fn shape_at(at: usize) -> Result<u8, usize> {
        shape_alone(9, at)
    }

    fn encode(&self, out: &mut Vec<u8>) -> Result<(), AllocError> {
        self.cast_unsigned().encode(out)
    }

    fn decode(alloc: Global, bytes: &[u8]) -> Result<(Self, &[u8]), DecodeError> {
        let (number, rest) = u32::decode(alloc, bytes)?;
        Ok((number.cast_signed(), rest))
    }
}

/// As `u64`.
impl Codec for i64 {
    ghost Content = { ℤ };

    ghost content = { λ n. n };

    ghost coding = { signed w64 (2 ^ 64) wide64 };

    ghost shape = { 10 ∷ [] };

    ghost asks = { false };

    fn shape_at(at: usize) -> Result<u8, usize> {
        shape_alone(10, at)
    }

    fn encode(&self, out: &mut Vec<u8>) -> Result<(), AllocError> {
        self.cast_unsigned().encode(out)
    }

    fn decode(alloc: Global, bytes: &[u8]) -> Result<(Self, &[u8]), DecodeError> {
        let (number, rest) = u64::decode(alloc, bytes)?;
        Ok((number.cast_signed(), rest))
    }
}

/// As `u128`.
impl Codec for i128 {
    ghost Content = { ℤ };

    ghost content = { λ n. n };

    ghost coding = { signed_long_number };

    ghost shape = { 11 ∷ [] };

    ghost asks = { false };

    fn shape_at(at: usize) -> Result<u8, usize> {
        shape_alone(11, at)
    }

    fn encode(&self, out: &mut Vec<u8>) -> Result<(), AllocError> {
        self.cast_unsigned().encode(out)
    }

    fn decode(alloc: Global, bytes: &[u8]) -> Result<(Self, &[u8]), DecodeError> {
        let (number, rest) = u128::decode(alloc, bytes)?;
        Ok((number.cast_signed(), rest))
    }
}

/// As `i64`.
impl Codec for isize {
    ghost Content = { ℤ };

    ghost content = { λ n. n };

    ghost coding = { signed w64 (2 ^ 64) wide64 };

    ghost shape = { 12 ∷ [] };

    ghost asks = { false };

    fn shape_at(at: usize) -> Result<u8, usize> {
        shape_alone(12, at)
    }

    fn encode(&self, out: &mut Vec<u8>) -> Result<(), AllocError> {
        self.cast_unsigned().encode(out)
    }

    fn decode(alloc: Global, bytes: &[u8]) -> Result<(Self, &[u8]), DecodeError> {
        let (number, rest) = usize::decode(alloc, bytes)?;
        Ok((number.cast_signed(), rest))
    }
}
