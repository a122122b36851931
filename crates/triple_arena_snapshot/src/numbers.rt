//! Numbers as bytes, the lowest first.

ghost use Rattle.std.specs.Prelude.{◌≡◌, ℕ, ◌^◌, ◌∷◌, [], false};
ghost use Rattle.std.specs.Int.{w16, w32, w64};
ghost use Rattle.triple_arena_snapshot.specs.Coding.{Gives};
ghost use Rattle.triple_arena_snapshot.specs.Codings.{number_at_front};
ghost use Rattle.triple_arena_snapshot.specs.Layouts.{byte, number, long_number};
ghost use Rattle.triple_arena_snapshot.specs.laws.CodingLaws.{wide16, wide32, wide64};

use crate::codec::Codec;
use crate::fault::{DecodeError, Fault};
use crate::shapes::shape_alone;
use std::alloc::Global;
use triple_arena_base::AllocError;

/// One byte.
impl Codec for u8 {
    ghost Content = { ℕ };

    ghost content = { λ n. n };

    ghost coding = { byte };

    ghost shape = { 1 ∷ [] };

    ghost asks = { false };

    fn shape_at(at: usize) -> Result<u8, usize> {
        shape_alone(1, at)
    }

    fn encode(&self, out: &mut Vec<u8>) -> Result<(), AllocError> {
        Ok(out.extend_from_slice(&[*self])?)
    }

    fn decode(_alloc: Global, bytes: &[u8]) -> Result<(Self, &[u8]), DecodeError> {
        match bytes {
            [] => Err(DecodeError::Malformed(Fault::Cut, 0)),
            [byte, rest @ ..] => Ok((*byte, rest)),
        }
    }
}

/// Two bytes, the lowest first.
impl Codec for u16 {
    ghost Content = { ℕ };

    ghost content = { λ n. n };

    ghost coding = { number w16 (2 ^ 16) wide16 };

    ghost shape = { 2 ∷ [] };

    ghost asks = { false };

    fn shape_at(at: usize) -> Result<u8, usize> {
        shape_alone(2, at)
    }

    fn encode(&self, out: &mut Vec<u8>) -> Result<(), AllocError> {
        Ok(out.extend_from_slice(&self.to_le_bytes())?)
    }

    fn decode(_alloc: Global, bytes: &[u8]) -> Result<(Self, &[u8]), DecodeError> {
        if bytes.len() < 2 {
            return Err(DecodeError::Malformed(Fault::Cut, bytes.len()));
        }
        let (front, rest) = bytes.split_at(2);
        let number = u16::from_le_bytes([front[0], front[1]]);
        Ok((number, rest))
    }
}

/// Four bytes, the lowest first.
impl Codec for u32 {
    ghost Content = { ℕ };

    ghost content = { λ n. n };

    ghost coding = { number w32 (2 ^ 32) wide32 };

    ghost shape = { 3 ∷ [] };

    ghost asks = { false };

    fn shape_at(at: usize) -> Result<u8, usize> {
        shape_alone(3, at)
    }

    fn encode(&self, out: &mut Vec<u8>) -> Result<(), AllocError> {
        Ok(out.extend_from_slice(&self.to_le_bytes())?)
    }

    fn decode(_alloc: Global, bytes: &[u8]) -> Result<(Self, &[u8]), DecodeError> {
        if bytes.len() < 4 {
            return Err(DecodeError::Malformed(Fault::Cut, bytes.len()));
        }
        let (front, rest) = bytes.split_at(4);
        let number = u32::from_le_bytes([front[0], front[1], front[2], front[3]]);
        Ok((number, rest))
    }
}

/// Eight bytes, the lowest first.
impl Codec for u64 {
    ghost Content = { ℕ };

    ghost content = { λ n. n };

    ghost coding = { number w64 (2 ^ 64) wide64 };

    ghost shape = { 4 ∷ [] };

    ghost asks = { false };

    fn shape_at(at: usize) -> Result<u8, usize> {
        shape_alone(4, at)
    }

    fn encode(&self, out: &mut Vec<u8>) -> Result<(), AllocError> {
        Ok(out.extend_from_slice(&self.to_le_bytes())?)
    }

    fn decode(_alloc: Global, bytes: &[u8]) -> Result<(Self, &[u8]), DecodeError> {
        if bytes.len() < 8 {
            return Err(DecodeError::Malformed(Fault::Cut, bytes.len()));
        }
        let (front, rest) = bytes.split_at(8);
        let number = u64::from_le_bytes([
            front[0], front[1], front[2], front[3], front[4], front[5], front[6], front[7],
        ]);
        Ok((number, rest))
    }
}

/// Sixteen bytes, the lowest first.
impl Codec for u128 {
    ghost Content = { ℕ };

    ghost content = { λ n. n };

    ghost coding = { long_number };

    ghost shape = { 5 ∷ [] };

    ghost asks = { false };

    fn shape_at(at: usize) -> Result<u8, usize> {
        shape_alone(5, at)
    }

    fn encode(&self, out: &mut Vec<u8>) -> Result<(), AllocError> {
        ((*self % (1 << 64)) as u64).encode(out)?;
        ((*self / (1 << 64)) as u64).encode(out)
    }

    fn decode(alloc: Global, bytes: &[u8]) -> Result<(Self, &[u8]), DecodeError> {
        let (low, rest) = u64::decode(alloc, bytes)?;
        let (high, rest) = u64::decode(alloc, rest)?;
        Ok((((high as u128) << 64) | low as u128, rest))
    }
}

/// As `u64`.
impl Codec for usize {
    ghost Content = { ℕ };

    ghost content = { λ n. n };

    ghost coding = { number w64 (2 ^ 64) wide64 };

    ghost shape = { 6 ∷ [] };

    ghost asks = { false };

    fn shape_at(at: usize) -> Result<u8, usize> {
        shape_alone(6, at)
    }

    fn encode(&self, out: &mut Vec<u8>) -> Result<(), AllocError> {
        (*self as u64).encode(out)
    }

    fn decode(alloc: Global, bytes: &[u8]) -> Result<(Self, &[u8]), DecodeError> {
        let (number, rest) = u64::decode(alloc, bytes)?;
        Ok((number as usize, rest))
    }
}
