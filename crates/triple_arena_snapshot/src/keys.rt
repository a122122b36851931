//! Keys of maps as bytes: what is written of a key tells its order.

ghost use Rattle.std.specs.Prelude.{◌≡◌, ◌++◌, ℕ, suc, ℤ, ◌^◌, Bool, List, OnOk};
ghost use Rattle.std.specs.declared.cmp.Ordering.{Ordering};
ghost use Rattle.std.specs.Ordering.{nat_cmp, int_cmp, bool_cmp, ordering_then};
ghost use Rattle.std.specs.Cmp.Lexicographic.{slice_cmp};
ghost use Rattle.std.specs.Int.{w8, w16, w32, w64, cast_unsigned, cast_signed};
ghost use Rattle.std.specs.String.{string_bytes};
ghost use Rattle.std.proofs.Common.{refl};
ghost use Rattle.triple_arena_ptr.specs.Pointers.{Pointer};
ghost use Rattle.triple_arena_snapshot.specs.Coding.{Coding, Gives};
ghost use Rattle.triple_arena_snapshot.specs.Layouts.{byte, bool, both, number, pointer, bare_pointer, long_number, through, signed, signed_long_number, text};
ghost use Rattle.triple_arena_snapshot.specs.laws.CodingLaws.{wide16, wide32, wide64};

use crate::codec::Codec;
use crate::fault::DecodeError;
use std::alloc::Global;
use triple_arena_base::AllocError;
use triple_arena_ptr::{P0, P1, P2, P3, P4, P5, Q2, SmallPtr};

/// A value that can be a key of a map that is written as bytes and read back: its order is that of what
/// is written of it.
pub trait KeyCodec: Codec + Ord {
    // what is written of a key, how that stands as bytes, and its order: its content and coding, of which no
    // member here can speak
    ghost Key: { Type 0 };

    ghost key: { Self → Key };

    ghost keyed: { Coding Key };

    ghost order: { Key → Key → Ordering };

    /// Writes the key, by `keyed`, at the end of `out`, as `encode` does. Where memory is refused, nothing is
    /// said of what stands there.
    fn encode_key(&self, out: &mut Vec<u8>) -> Result<(), AllocError>
        ensures written { OnOk result (out.new.items ≡ out.old.items ++ keyed.encoding (key self.now)) }
        ensures fits { OnOk result (keyed.fits (key self.now)) };

    /// The key at the front of the bytes, by `keyed`, as `decode` reads it, and the bytes behind it; or the
    /// first fault, or `Memory`.
    fn decode_key(alloc: Global, bytes: &[u8]) -> Result<(Self, &[u8]), DecodeError>
        ensures read { Gives (λ x. (key x.0, x.1.now)) result (keyed.decoding bytes.now) };

    // keys are compared as what is written of them
    ghost orders: { (a b : Self) → Self.cmp a b ≡ order (key a) (key b) };
}

impl KeyCodec for u8 {
    ghost Key = { ℕ };

    ghost key = { λ n. n };

    ghost keyed = { byte };

    ghost order = { nat_cmp };

    ghost orders = { λ _ _. refl };

    fn encode_key(&self, out: &mut Vec<u8>) -> Result<(), AllocError> {
        self.encode(out)
    }

    fn decode_key(alloc: Global, bytes: &[u8]) -> Result<(Self, &[u8]), DecodeError> {
        u8::decode(alloc, bytes)
    }
}

impl KeyCodec for u16 {
    ghost Key = { ℕ };

    ghost key = { λ n. n };

    ghost keyed = { number w16 (2 ^ 16) wide16 };

    ghost order = { nat_cmp };

    ghost orders = { λ _ _. refl };

    fn encode_key(&self, out: &mut Vec<u8>) -> Result<(), AllocError> {
        self.encode(out)
    }

    fn decode_key(alloc: Global, bytes: &[u8]) -> Result<(Self, &[u8]), DecodeError> {
        u16::decode(alloc, bytes)
    }
}

impl KeyCodec for u32 {
    ghost Key = { ℕ };

    ghost key = { λ n. n };

    ghost keyed = { number w32 (2 ^ 32) wide32 };

    ghost order = { nat_cmp };

    ghost orders = { λ _ _. refl };

    fn encode_key(&self, out: &mut Vec<u8>) -> Result<(), AllocError> {
        self.encode(out)
    }

    fn decode_key(alloc: Global, bytes: &[u8]) -> Result<(Self, &[u8]), DecodeError> {
        u32::decode(alloc, bytes)
    }
}

impl KeyCodec for u64 {
    ghost Key = { ℕ };

    ghost key = { λ n. n };

    ghost keyed = { number w64 (2 ^ 64) wide64 };

    ghost order = { nat_cmp };

    ghost orders = { λ _ _. refl };

    fn encode_key(&self, out: &mut Vec<u8>) -> Result<(), AllocError> {
        self.encode(out)
    }

    fn decode_key(alloc: Global, bytes: &[u8]) -> Result<(Self, &[u8]), DecodeError> {
        u64::decode(alloc, bytes)
    }
}

impl KeyCodec for u128 {
    ghost Key = { ℕ };

    ghost key = { λ n. n };

    ghost keyed = { long_number };

    ghost order = { nat_cmp };

    ghost orders = { λ _ _. refl };

    fn encode_key(&self, out: &mut Vec<u8>) -> Result<(), AllocError> {
        self.encode(out)
    }

    fn decode_key(alloc: Global, bytes: &[u8]) -> Result<(Self, &[u8]), DecodeError> {
        u128::decode(alloc, bytes)
    }
}

impl KeyCodec for usize {
    ghost Key = { ℕ };

    ghost key = { λ n. n };

    ghost keyed = { number w64 (2 ^ 64) wide64 };

    ghost order = { nat_cmp };

    ghost orders = { λ _ _. refl };

    fn encode_key(&self, out: &mut Vec<u8>) -> Result<(), AllocError> {
        self.encode(out)
    }

    fn decode_key(alloc: Global, bytes: &[u8]) -> Result<(Self, &[u8]), DecodeError> {
        usize::decode(alloc, bytes)
    }
}

impl KeyCodec for i8 {
    ghost Key = { ℤ };

    ghost key = { λ n. n };

    ghost keyed = { through (cast_unsigned w8) (cast_signed w8) byte };

    ghost order = { int_cmp };

    ghost orders = { λ _ _. refl };

    fn encode_key(&self, out: &mut Vec<u8>) -> Result<(), AllocError> {
        self.encode(out)
    }

    fn decode_key(alloc: Global, bytes: &[u8]) -> Result<(Self, &[u8]), DecodeError> {
        i8::decode(alloc, bytes)
    }
}

impl KeyCodec for i16 {
    ghost Key = { ℤ };

    ghost key = { λ n. n };

    ghost keyed = { signed w16 (2 ^ 16) wide16 };

    ghost order = { int_cmp };

    ghost orders = { λ _ _. refl };

    fn encode_key(&self, out: &mut Vec<u8>) -> Result<(), AllocError> {
        self.encode(out)
    }

    fn decode_key(alloc: Global, bytes: &[u8]) -> Result<(Self, &[u8]), DecodeError> {
        i16::decode(alloc, bytes)
    }
}

impl KeyCodec for i32 {
    ghost Key = { ℤ };

    ghost key = { λ n. n };

    ghost keyed = { signed w32 (2 ^ 32) wide32 };

    ghost order = { int_cmp };

    ghost orders = { λ _ _. refl };

    fn encode_key(&self, out: &mut Vec<u8>) -> Result<(), AllocError> {
        self.encode(out)
    }

    fn decode_key(alloc: Global, bytes: &[u8]) -> Result<(Self, &[u8]), DecodeError> {
        i32::decode(alloc, bytes)
    }
}

impl KeyCodec for i64 {
    ghost Key = { ℤ };

    ghost key = { λ n. n };

    ghost keyed = { signed w64 (2 ^ 64) wide64 };

    ghost order = { int_cmp };

    ghost orders = { λ _ _. refl };

    fn encode_key(&self, out: &mut Vec<u8>) -> Result<(), AllocError> {
        self.encode(out)
    }

    fn decode_key(alloc: Global, bytes: &[u8]) -> Result<(Self, &[u8]), DecodeError> {
        i64::decode(alloc, bytes)
    }
}

impl KeyCodec for i128 {
    ghost Key = { ℤ };

    ghost key = { λ n. n };

    ghost keyed = { signed_long_number };

    ghost order = { int_cmp };

    ghost orders = { λ _ _. refl };

    fn encode_key(&self, out: &mut Vec<u8>) -> Result<(), AllocError> {
        self.encode(out)
    }

    fn decode_key(alloc: Global, bytes: &[u8]) -> Result<(Self, &[u8]), DecodeError> {
        i128::decode(alloc, bytes)
    }
}

impl KeyCodec for isize {
    ghost Key = { ℤ };

    ghost key = { λ n. n };

    ghost keyed = { signed w64 (2 ^ 64) wide64 };

    ghost order = { int_cmp };

    ghost orders = { λ _ _. refl };

    fn encode_key(&self, out: &mut Vec<u8>) -> Result<(), AllocError> {
        self.encode(out)
    }

    fn decode_key(alloc: Global, bytes: &[u8]) -> Result<(Self, &[u8]), DecodeError> {
        isize::decode(alloc, bytes)
    }
}

impl KeyCodec for bool {
    ghost Key = { Bool };

    ghost key = { λ b. b };

    ghost keyed = { bool };

    ghost order = { bool_cmp };

    ghost orders = { λ _ _. refl };

    fn encode_key(&self, out: &mut Vec<u8>) -> Result<(), AllocError> {
        self.encode(out)
    }

    fn decode_key(alloc: Global, bytes: &[u8]) -> Result<(Self, &[u8]), DecodeError> {
        bool::decode(alloc, bytes)
    }
}

impl KeyCodec for String {
    ghost Key = { List ℕ };

    ghost key = { string_bytes };

    ghost keyed = { text };

    ghost order = { slice_cmp nat_cmp };

    ghost orders = { λ _ _. refl };

    fn encode_key(&self, out: &mut Vec<u8>) -> Result<(), AllocError> {
        self.encode(out)
    }

    fn decode_key(alloc: Global, bytes: &[u8]) -> Result<(Self, &[u8]), DecodeError> {
        String::decode(alloc, bytes)
    }
}

impl KeyCodec for P0 {
    ghost Key = { Pointer };

    ghost key = { λ p. (suc p.0, suc p.1) };

    ghost keyed = { pointer (number w64 (2 ^ 64) wide64) (number w64 (2 ^ 64) wide64) };

    ghost order = { λ x y. ordering_then (nat_cmp x.0 y.0) (nat_cmp x.1 y.1) };

    ghost orders = { λ _ _. refl };

    fn encode_key(&self, out: &mut Vec<u8>) -> Result<(), AllocError> {
        self.encode(out)
    }

    fn decode_key(alloc: Global, bytes: &[u8]) -> Result<(Self, &[u8]), DecodeError> {
        P0::decode(alloc, bytes)
    }
}

impl KeyCodec for Q2 {
    ghost Key = { Pointer };

    ghost key = { λ p. (suc p.0, suc p.1) };

    ghost keyed = { pointer (number w64 (2 ^ 64) wide64) (number w64 (2 ^ 64) wide64) };

    ghost order = { λ x y. ordering_then (nat_cmp x.0 y.0) (nat_cmp x.1 y.1) };

    ghost orders = { λ _ _. refl };

    fn encode_key(&self, out: &mut Vec<u8>) -> Result<(), AllocError> {
        self.encode(out)
    }

    fn decode_key(alloc: Global, bytes: &[u8]) -> Result<(Self, &[u8]), DecodeError> {
        Q2::decode(alloc, bytes)
    }
}

impl KeyCodec for P1 {
    ghost Key = { Pointer };

    ghost key = { λ p. (suc p.0, suc p.1) };

    ghost keyed = { pointer (number w16 (2 ^ 16) wide16) (number w64 (2 ^ 64) wide64) };

    ghost order = { λ x y. ordering_then (nat_cmp x.0 y.0) (nat_cmp x.1 y.1) };

    ghost orders = { λ _ _. refl };

    fn encode_key(&self, out: &mut Vec<u8>) -> Result<(), AllocError> {
        self.encode(out)
    }

    fn decode_key(alloc: Global, bytes: &[u8]) -> Result<(Self, &[u8]), DecodeError> {
        P1::decode(alloc, bytes)
    }
}

impl KeyCodec for P2 {
    ghost Key = { Pointer };

    ghost key = { λ p. (suc p.0, suc p.1) };

    ghost keyed = { pointer (number w64 (2 ^ 64) wide64) (number w16 (2 ^ 16) wide16) };

    ghost order = { λ x y. ordering_then (nat_cmp x.0 y.0) (nat_cmp x.1 y.1) };

    ghost orders = { λ _ _. refl };

    fn encode_key(&self, out: &mut Vec<u8>) -> Result<(), AllocError> {
        self.encode(out)
    }

    fn decode_key(alloc: Global, bytes: &[u8]) -> Result<(Self, &[u8]), DecodeError> {
        P2::decode(alloc, bytes)
    }
}

impl KeyCodec for P3 {
    ghost Key = { Pointer };

    ghost key = { λ p. (suc p.0, suc p.1) };

    ghost keyed = { pointer (number w16 (2 ^ 16) wide16) (number w16 (2 ^ 16) wide16) };

    ghost order = { λ x y. ordering_then (nat_cmp x.0 y.0) (nat_cmp x.1 y.1) };

    ghost orders = { λ _ _. refl };

    fn encode_key(&self, out: &mut Vec<u8>) -> Result<(), AllocError> {
        self.encode(out)
    }

    fn decode_key(alloc: Global, bytes: &[u8]) -> Result<(Self, &[u8]), DecodeError> {
        P3::decode(alloc, bytes)
    }
}

impl KeyCodec for SmallPtr {
    ghost Key = { Pointer };

    ghost key = { λ p. (suc p.0, suc p.1) };

    ghost keyed = { pointer (number w32 (2 ^ 32) wide32) (number w32 (2 ^ 32) wide32) };

    ghost order = { λ x y. ordering_then (nat_cmp x.0 y.0) (nat_cmp x.1 y.1) };

    ghost orders = { λ _ _. refl };

    fn encode_key(&self, out: &mut Vec<u8>) -> Result<(), AllocError> {
        self.encode(out)
    }

    fn decode_key(alloc: Global, bytes: &[u8]) -> Result<(Self, &[u8]), DecodeError> {
        SmallPtr::decode(alloc, bytes)
    }
}

impl KeyCodec for P4 {
    ghost Key = { Pointer };

    ghost key = { λ p. (suc p, 1) };

    ghost keyed = { bare_pointer (number w64 (2 ^ 64) wide64) };

    ghost order = { λ x y. ordering_then (nat_cmp x.0 y.0) (nat_cmp x.1 y.1) };

    ghost orders = { λ _ _. refl };

    fn encode_key(&self, out: &mut Vec<u8>) -> Result<(), AllocError> {
        self.encode(out)
    }

    fn decode_key(alloc: Global, bytes: &[u8]) -> Result<(Self, &[u8]), DecodeError> {
        P4::decode(alloc, bytes)
    }
}

impl KeyCodec for P5 {
    ghost Key = { Pointer };

    ghost key = { λ p. (suc p, 1) };

    ghost keyed = { bare_pointer byte };

    ghost order = { λ x y. ordering_then (nat_cmp x.0 y.0) (nat_cmp x.1 y.1) };

    ghost orders = { λ _ _. refl };

    fn encode_key(&self, out: &mut Vec<u8>) -> Result<(), AllocError> {
        self.encode(out)
    }

    fn decode_key(alloc: Global, bytes: &[u8]) -> Result<(Self, &[u8]), DecodeError> {
        P5::decode(alloc, bytes)
    }
}

/// The first key decides, and where they are equal the second.
impl<A: KeyCodec + Drop, B: KeyCodec> KeyCodec for (A, B) {
    ghost Key = { A.Key × B.Key };

    ghost key = { λ p. (A.key p.0, B.key p.1) };

    ghost keyed = { both A.keyed B.keyed };

    ghost order = { λ x y. ordering_then (A.order x.0 y.0) (B.order x.1 y.1) };

    ghost orders = { λ p q i. ordering_then (A.orders p.0 q.0 i) (B.orders p.1 q.1 i) };

    fn encode_key(&self, out: &mut Vec<u8>) -> Result<(), AllocError> {
        self.0.encode_key(out)?;
        self.1.encode_key(out)
    }

    fn decode_key(alloc: Global, bytes: &[u8]) -> Result<(Self, &[u8]), DecodeError> {
        let (first, rest) = A::decode_key(alloc, bytes)?;
        let (second, rest) = B::decode_key(alloc, rest)?;
        Ok(((first, second), rest))
    }
}
