//! Floats as bytes, by their bits.

ghost use Rattle.std.specs.Prelude.{◌≡◌, ◌∷◌, [], false, T, Float};
ghost use lib.Ieee.{binary32, binary64, fits, to_bits};
ghost use Rattle.triple_arena_snapshot.specs.Floats.{float32, float64};

use crate::codec::Codec;
use crate::fault::{DecodeError, Fault};
use crate::shapes::shape_alone;
use std::alloc::Global;
use std::num::{
    f32_from_bits_with_nan, f32_to_bits_with_nan, f64_from_bits_with_nan, f64_to_bits_with_nan,
};
use triple_arena_base::AllocError;

/// As the `u32` of its bits. A NaN is written as 0x7fc00000, and no other pattern of a NaN is read.
impl Codec for f32 {
    ghost Content = { Float };

    ghost content = { λ x. x };

    ghost coding = { float32 };

    ghost shape = { 43 ∷ [] };

    ghost asks = { false };

    fn shape_at(at: usize) -> Result<u8, usize> {
        shape_alone(43, at)
    }

    fn encode(&self, out: &mut Vec<u8>) -> Result<(), AllocError> {
        bits_of_f32(*self).encode(out)
    }

    fn decode(alloc: Global, bytes: &[u8]) -> Result<(Self, &[u8]), DecodeError> {
        let (bits, rest) = u32::decode(alloc, bytes)?;
        let float = f32_from_bits_with_nan(bits);
        if bits_of_f32(float) != bits {
            return Err(DecodeError::Malformed(Fault::Nan, bytes.len()));
        }
        Ok((float, rest))
    }
}

/// As the `u64` of its bits. A NaN is written as 0x7ff8000000000000, and no other pattern of a NaN is
/// read.
impl Codec for f64 {
    ghost Content = { Float };

    ghost content = { λ x. x };

    ghost coding = { float64 };

    ghost shape = { 44 ∷ [] };

    ghost asks = { false };

    fn shape_at(at: usize) -> Result<u8, usize> {
        shape_alone(44, at)
    }

    fn encode(&self, out: &mut Vec<u8>) -> Result<(), AllocError> {
        bits_of_f64(*self).encode(out)
    }

    fn decode(alloc: Global, bytes: &[u8]) -> Result<(Self, &[u8]), DecodeError> {
        let (bits, rest) = u64::decode(alloc, bytes)?;
        let float = f64_from_bits_with_nan(bits);
        if bits_of_f64(float) != bits {
            return Err(DecodeError::Malformed(Fault::Nan, bytes.len()));
        }
        Ok((float, rest))
    }
}

// The bits of a float; of a NaN one pattern.
fn bits_of_f32(float: f32) -> u32
    ensures bits { result ≡ to_bits binary32 float }
    ensures fits { T (fits binary32 float) }
{
    f32_to_bits_with_nan(float)
}

fn bits_of_f64(float: f64) -> u64
    ensures bits { result ≡ to_bits binary64 float }
    ensures fits { T (fits binary64 float) }
{
    f64_to_bits_with_nan(float)
}
