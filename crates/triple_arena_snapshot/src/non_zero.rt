//! Numbers that aren't 0, as bytes.

ghost use Rattle.std.specs.Prelude.{◌≡◌, ℕ, ◌^◌, ◌∷◌, [], false};
ghost use Rattle.std.specs.Int.{w16, w32, w64};
ghost use Rattle.std.specs.Int.NonZero.{non_zero_u8_get, non_zero_u16_get, non_zero_u32_get, non_zero_u64_get, non_zero_u128_get, non_zero_usize_get};
ghost use Rattle.triple_arena_snapshot.specs.Layouts.{byte, number, positive, long_number};
ghost use Rattle.triple_arena_snapshot.specs.laws.CodingLaws.{wide16, wide32, wide64};

use crate::codec::Codec;
use crate::fault::{DecodeError, Fault};
use crate::shapes::shape_alone;
use std::alloc::Global;
use std::num::{NonZeroU8, NonZeroU16, NonZeroU32, NonZeroU64, NonZeroU128, NonZeroUsize};
use triple_arena_base::AllocError;

/// As `u8`.
impl Codec for NonZeroU8 {
    ghost Content = { ℕ };

    ghost content = { non_zero_u8_get };

    ghost coding = { positive byte };

    ghost shape = { 13 ∷ [] };

    ghost asks = { false };

    fn shape_at(at: usize) -> Result<u8, usize> {
        shape_alone(13, at)
    }

    fn encode(&self, out: &mut Vec<u8>) -> Result<(), AllocError> {
        self.get().encode(out)
    }

    fn decode(alloc: Global, bytes: &[u8]) -> Result<(Self, &[u8]), DecodeError> {
        let (number, rest) = u8::decode(alloc, bytes)?;
        match NonZeroU8::new(number) {
            Some(number) => Ok((number, rest)),
            None => Err(DecodeError::Malformed(Fault::Zero, bytes.len())),
        }
    }
}

/// As `u16`.
impl Codec for NonZeroU16 {
    ghost Content = { ℕ };

    ghost content = { non_zero_u16_get };

    ghost coding = { positive (number w16 (2 ^ 16) wide16) };

    ghost shape = { 14 ∷ [] };

    ghost asks = { false };

    fn shape_at(at: usize) -> Result<u8, usize> {
        shape_alone(14, at)
    }

    fn encode(&self, out: &mut Vec<u8>) -> Result<(), AllocError> {
        self.get().encode(out)
    }

    fn decode(alloc: Global, bytes: &[u8]) -> Result<(Self, &[u8]), DecodeError> {
        let (number, rest) = u16::decode(alloc, bytes)?;
        match NonZeroU16::new(number) {
            Some(number) => Ok((number, rest)),
            None => Err(DecodeError::Malformed(Fault::Zero, bytes.len())),
        }
    }
}

/// As `u32`.
impl Codec for NonZeroU32 {
    ghost Content = { ℕ };

    ghost content = { non_zero_u32_get };

    ghost coding = { positive (number w32 (2 ^ 32) wide32) };

    ghost shape = { 15 ∷ [] };

    ghost asks = { false };

    fn shape_at(at: usize) -> Result<u8, usize> {
        shape_alone(15, at)
    }

    fn encode(&self, out: &mut Vec<u8>) -> Result<(), AllocError> {
        self.get().encode(out)
    }

    fn decode(alloc: Global, bytes: &[u8]) -> Result<(Self, &[u8]), DecodeError> {
        let (number, rest) = u32::decode(alloc, bytes)?;
        match NonZeroU32::new(number) {
            Some(number) => Ok((number, rest)),
            None => Err(DecodeError::Malformed(Fault::Zero, bytes.len())),
        }
    }
}

/// As `u64`.
impl Codec for NonZeroU64 {
    ghost Content = { ℕ };

    ghost content = { non_zero_u64_get };

    ghost coding = { positive (number w64 (2 ^ 64) wide64) };

    ghost shape = { 16 ∷ [] };

    ghost asks = { false };

    fn shape_at(at: usize) -> Result<u8, usize> {
        shape_alone(16, at)
    }

    fn encode(&self, out: &mut Vec<u8>) -> Result<(), AllocError> {
        self.get().encode(out)
    }

    fn decode(alloc: Global, bytes: &[u8]) -> Result<(Self, &[u8]), DecodeError> {
        let (number, rest) = u64::decode(alloc, bytes)?;
        match NonZeroU64::new(number) {
            Some(number) => Ok((number, rest)),
            None => Err(DecodeError::Malformed(Fault::Zero, bytes.len())),
        }
    }
}

/// As `u128`.
impl Codec for NonZeroU128 {
    ghost Content = { ℕ };

    ghost content = { non_zero_u128_get };

    ghost coding = { positive long_number };

    ghost shape = { 17 ∷ [] };

    ghost asks = { false };

    fn shape_at(at: usize) -> Result<u8, usize> {
        shape_alone(17, at)
    }

    fn encode(&self, out: &mut Vec<u8>) -> Result<(), AllocError> {
        self.get().encode(out)
    }

    fn decode(alloc: Global, bytes: &[u8]) -> Result<(Self, &[u8]), DecodeError> {
        let (number, rest) = u128::decode(alloc, bytes)?;
        match NonZeroU128::new(number) {
            Some(number) => Ok((number, rest)),
            None => Err(DecodeError::Malformed(Fault::Zero, bytes.len())),
        }
    }
}

/// As `usize`.
impl Codec for NonZeroUsize {
    ghost Content = { ℕ };

    ghost content = { non_zero_usize_get };

    ghost coding = { positive (number w64 (2 ^ 64) wide64) };

    ghost shape = { 18 ∷ [] };

    ghost asks = { false };

    fn shape_at(at: usize) -> Result<u8, usize> {
        shape_alone(18, at)
    }

    fn encode(&self, out: &mut Vec<u8>) -> Result<(), AllocError> {
        self.get().encode(out)
    }

    fn decode(alloc: Global, bytes: &[u8]) -> Result<(Self, &[u8]), DecodeError> {
        let (number, rest) = usize::decode(alloc, bytes)?;
        match NonZeroUsize::new(number) {
            Some(number) => Ok((number, rest)),
            None => Err(DecodeError::Malformed(Fault::Zero, bytes.len())),
        }
    }
}
