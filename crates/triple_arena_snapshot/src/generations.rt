//! Generations as bytes, by their numbers.

ghost use Rattle.std.specs.Prelude.{◌≡◌, ◌++◌, ℕ, ◌^◌, length, OnOk, IfErr, false};
ghost use Rattle.std.proofs.Common.{refl};
ghost use Rattle.std.specs.Int.{w16, w32, w64};
ghost use Rattle.triple_arena_snapshot.specs.Coding.{Coding, Gives, MayFail};
ghost use Rattle.triple_arena_snapshot.specs.Layouts.{byte, number, positive, long_number, nothing};
ghost use Rattle.triple_arena_snapshot.specs.laws.CodingLaws.{wide16, wide32, wide64};

use crate::codec::Codec;
use crate::fault::DecodeError;
use std::alloc::Global;
use std::num::{NonZeroU8, NonZeroU16, NonZeroU32, NonZeroU64, NonZeroU128};
use triple_arena_base::AllocError;
use triple_arena_ptr::PtrGen;

/// A generation that can be written as bytes and read back.
pub trait GenerationCodec: PtrGen {
    // how its number stands as bytes, and in how many
    ghost numbered: { Coding ℕ };

    ghost width: { ℕ };

    ghost widths: { (n : ℕ) → numbered.fits n → length (numbered.encoding n) ≡ width };

    /// How many bytes each takes.
    fn width() -> u8
        ensures { result ≡ width };

    /// Writes the generation's number at the end of `out`. Where memory is refused, nothing is said of
    /// what stands there.
    fn encode_generation(self, out: &mut Vec<u8>) -> Result<(), AllocError>
        ensures written { OnOk result
            (out.new.items ≡ out.old.items ++ numbered.encoding (Self.number self)) }
        ensures fits { OnOk result (numbered.fits (Self.number self)) };

    /// The generation whose number stands at the front of the bytes, and the bytes behind it; or the
    /// first fault. It asks for no memory.
    fn decode_generation(alloc: Global, bytes: &[u8]) -> Result<(Self, &[u8]), DecodeError>
        ensures read { Gives (λ x. (Self.number x.0, x.1.now)) result (numbered.decoding bytes.now) }
        ensures memory { IfErr result (λ e. MayFail false e) };
}

/// One byte.
impl GenerationCodec for NonZeroU8 {
    ghost numbered = { positive byte };

    ghost width = { 1 };

    ghost widths = { λ _ _. refl };

    fn width() -> u8 {
        1
    }

    fn encode_generation(self, out: &mut Vec<u8>) -> Result<(), AllocError> {
        self.encode(out)
    }

    fn decode_generation(alloc: Global, bytes: &[u8]) -> Result<(Self, &[u8]), DecodeError> {
        NonZeroU8::decode(alloc, bytes)
    }
}

/// Two bytes, the lowest first.
impl GenerationCodec for NonZeroU16 {
    ghost numbered = { positive (number w16 (2 ^ 16) wide16) };

    ghost width = { 2 };

    ghost widths = { λ n _. wide16.long n };

    fn width() -> u8 {
        2
    }

    fn encode_generation(self, out: &mut Vec<u8>) -> Result<(), AllocError> {
        self.encode(out)
    }

    fn decode_generation(alloc: Global, bytes: &[u8]) -> Result<(Self, &[u8]), DecodeError> {
        NonZeroU16::decode(alloc, bytes)
    }
}

/// Four bytes, the lowest first.
impl GenerationCodec for NonZeroU32 {
    ghost numbered = { positive (number w32 (2 ^ 32) wide32) };

    ghost width = { 4 };

    ghost widths = { λ n _. wide32.long n };

    fn width() -> u8 {
        4
    }

    fn encode_generation(self, out: &mut Vec<u8>) -> Result<(), AllocError> {
        self.encode(out)
    }

    fn decode_generation(alloc: Global, bytes: &[u8]) -> Result<(Self, &[u8]), DecodeError> {
        NonZeroU32::decode(alloc, bytes)
    }
}

/// Eight bytes, the lowest first.
impl GenerationCodec for NonZeroU64 {
    ghost numbered = { positive (number w64 (2 ^ 64) wide64) };

    ghost width = { 8 };

    ghost widths = { λ n _. wide64.long n };

    fn width() -> u8 {
        8
    }

    fn encode_generation(self, out: &mut Vec<u8>) -> Result<(), AllocError> {
        self.encode(out)
    }

    fn decode_generation(alloc: Global, bytes: &[u8]) -> Result<(Self, &[u8]), DecodeError> {
        NonZeroU64::decode(alloc, bytes)
    }
}

/// Sixteen bytes, the lowest first.
impl GenerationCodec for NonZeroU128 {
    ghost numbered = { positive long_number };

    ghost width = { 16 };

    ghost widths = { λ _ _. refl };

    fn width() -> u8 {
        16
    }

    fn encode_generation(self, out: &mut Vec<u8>) -> Result<(), AllocError> {
        self.encode(out)
    }

    fn decode_generation(alloc: Global, bytes: &[u8]) -> Result<(Self, &[u8]), DecodeError> {
        NonZeroU128::decode(alloc, bytes)
    }
}

/// No byte: its number is 1.
impl GenerationCodec for () {
    ghost numbered = { nothing 1 };

    ghost width = { 0 };

    ghost widths = { λ _ _. refl };

    fn width() -> u8 {
        0
    }

    fn encode_generation(self, _out: &mut Vec<u8>) -> Result<(), AllocError> {
        Ok(())
    }

    fn decode_generation(_alloc: Global, bytes: &[u8]) -> Result<(Self, &[u8]), DecodeError> {
        Ok(((), bytes))
    }
}
