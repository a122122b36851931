//! Indexes of an arena's entries, counted from 1.

ghost use Rattle.std.specs.Prelude.{◌≡◌, ℕ, ◌≤◌, ◌<◌, ◌==◌, ◌^◌, ◌-◌, ◌↔◌, IsSome, IfSome, MatchOption};
ghost use Rattle.std.specs.Fmt.{WritesOnOk};
ghost use Rattle.std.specs.Ordering.{nat_cmp};
ghost use Rattle.std.specs.Int.NonZero.{non_zero_usize_get, non_zero_u8_get, non_zero_u16_get, non_zero_u32_get, non_zero_u64_get, non_zero_u128_get};
ghost use Rattle.std.proofs.Common.{refl, arith};
ghost use Rattle.triple_arena_ptr.specs.Numbers.{greatest_index};
ghost use Rattle.triple_arena_ptr.specs.PointerText.{hex};
ghost use Rattle.triple_arena_ptr.specs.NonZeroValues.{usize_distinct, u8_distinct, u16_distinct, u32_distinct, u64_distinct, u128_distinct};

use crate::hex::fmt_hex_wide;
use crate::non_zero::{
    non_zero_u8, non_zero_u16, non_zero_u32, non_zero_u64, non_zero_u128, non_zero_usize,
};
use std::fmt;
use std::fmt::Debug;
use std::hash::Hash;
use std::num::{NonZeroU8, NonZeroU16, NonZeroU32, NonZeroU64, NonZeroU128, NonZeroUsize};

/// An index: a number from 1 to the greatest of its type.
///
/// Contracts speak of its `number` and of the type's `greatest` number. Indexes are equal, and
/// ordered, as their numbers are. An arena uses those up to `max_index`, which convert to
/// `NonZeroUsize` and back.
pub trait PtrInx: Debug + Hash + Clone + Copy + PartialEq + Eq + PartialOrd + Ord + 'static {
    /// The number of an index.
    ghost number: { Self → ℕ };

    /// The greatest number of the type.
    ghost greatest: { ℕ };

    /// The index of that number; none exactly past `max_index`.
    fn try_from_usize(inx: NonZeroUsize) -> Option<Self>
        ensures variant { IsSome result ↔ (non_zero_usize_get inx ≤ greatest_index greatest) }
        ensures number { IfSome result (λ i. number i ≡ non_zero_usize_get inx) };

    /// The number of the index; none exactly past `max_index`.
    fn try_into_usize(this: Self) -> Option<NonZeroUsize>
        ensures within { number this ≤ greatest }
        ensures number { MatchOption result (greatest_index greatest < number this)
            (λ n. non_zero_usize_get n ≡ number this) };

    /// The greatest index of an arena: the smaller of the type's greatest number and `usize::MAX`.
    fn max_index() -> NonZeroUsize
        ensures { non_zero_usize_get result ≡ greatest_index greatest };

    /// The greatest index of the type, which an arena reaches last or never.
    fn best_effort_invalid() -> Self
        ensures { number result ≡ greatest };

    /// Writes the number in lower-case hexadecimal without prefix.
    fn fmt_hex<W: fmt::Write>(this: Self, f: &mut fmt::Formatter<W>) -> fmt::Result
        ensures { WritesOnOk W.write_str_gives f.old result (hex (number this)) f.new };

    /// Numbers begin at 1.
    ghost positive: { (i : Self) → 1 ≤ number i };

    /// The type has an index.
    ghost greatest_positive: { 1 ≤ greatest };

    /// Different indexes have different numbers.
    ghost distinct: { (i j : Self) → number i ≡ number j → i ≡ j };

    /// Indexes are equal exactly where their numbers are.
    ghost equates: { (i j : Self) → Self.eq i j ≡ (number i == number j) };

    /// Indexes are in the order of their numbers.
    ghost orders: { (i j : Self) → Self.cmp i j ≡ nat_cmp (number i) (number j) };
}

impl PtrInx for NonZeroUsize {
    ghost number = { non_zero_usize_get };

    ghost greatest = { 2 ^ 64 - 1 };

    fn try_from_usize(inx: NonZeroUsize) -> Option<Self> {
        Some(inx)
    }

    fn try_into_usize(this: Self) -> Option<NonZeroUsize> {
        Some(this)
    }

    fn max_index() -> NonZeroUsize {
        NonZeroUsize::MAX
    }

    fn best_effort_invalid() -> Self {
        NonZeroUsize::MAX
    }

    fn fmt_hex<W: fmt::Write>(this: Self, f: &mut fmt::Formatter<W>) -> fmt::Result {
        write!(f, "{this:x}")
    }

    ghost positive = { λ i. i.ok };

    ghost greatest_positive = { omega arith };

    ghost distinct = { usize_distinct };

    ghost equates = { λ _ _. refl };

    ghost orders = { λ _ _. refl };
}

impl PtrInx for NonZeroU8 {
    ghost number = { non_zero_u8_get };

    ghost greatest = { 2 ^ 8 - 1 };

    fn try_from_usize(inx: NonZeroUsize) -> Option<Self> {
        Some(non_zero_u8(u8::try_from(inx.get()).ok()?))
    }

    fn try_into_usize(this: Self) -> Option<NonZeroUsize> {
        Some(non_zero_usize(this.get() as usize))
    }

    fn max_index() -> NonZeroUsize {
        NonZeroUsize::new(u8::MAX as usize).unwrap()
    }

    fn best_effort_invalid() -> Self {
        NonZeroU8::MAX
    }

    fn fmt_hex<W: fmt::Write>(this: Self, f: &mut fmt::Formatter<W>) -> fmt::Result {
        write!(f, "{this:x}")
    }

    ghost positive = { λ i. i.ok };

    ghost greatest_positive = { omega arith };

    ghost distinct = { u8_distinct };

    ghost equates = { λ _ _. refl };

    ghost orders = { λ _ _. refl };
}

impl PtrInx for NonZeroU16 {
    ghost number = { non_zero_u16_get };

    ghost greatest = { 2 ^ 16 - 1 };

    fn try_from_usize(inx: NonZeroUsize) -> Option<Self> {
        Some(non_zero_u16(u16::try_from(inx.get()).ok()?))
    }

    fn try_into_usize(this: Self) -> Option<NonZeroUsize> {
        Some(non_zero_usize(this.get() as usize))
    }

    fn max_index() -> NonZeroUsize {
        NonZeroUsize::new(u16::MAX as usize).unwrap()
    }

    fn best_effort_invalid() -> Self {
        NonZeroU16::MAX
    }

    fn fmt_hex<W: fmt::Write>(this: Self, f: &mut fmt::Formatter<W>) -> fmt::Result {
        write!(f, "{this:x}")
    }

    ghost positive = { λ i. i.ok };

    ghost greatest_positive = { omega arith };

    ghost distinct = { u16_distinct };

    ghost equates = { λ _ _. refl };

    ghost orders = { λ _ _. refl };
}

impl PtrInx for NonZeroU32 {
    ghost number = { non_zero_u32_get };

    ghost greatest = { 2 ^ 32 - 1 };

    fn try_from_usize(inx: NonZeroUsize) -> Option<Self> {
        Some(non_zero_u32(u32::try_from(inx.get()).ok()?))
    }

    fn try_into_usize(this: Self) -> Option<NonZeroUsize> {
        Some(non_zero_usize(this.get() as usize))
    }

    fn max_index() -> NonZeroUsize {
        NonZeroUsize::new(u32::MAX as usize).unwrap()
    }

    fn best_effort_invalid() -> Self {
        NonZeroU32::MAX
    }

    fn fmt_hex<W: fmt::Write>(this: Self, f: &mut fmt::Formatter<W>) -> fmt::Result {
        write!(f, "{this:x}")
    }

    ghost positive = { λ i. i.ok };

    ghost greatest_positive = { omega arith };

    ghost distinct = { u32_distinct };

    ghost equates = { λ _ _. refl };

    ghost orders = { λ _ _. refl };
}

impl PtrInx for NonZeroU64 {
    ghost number = { non_zero_u64_get };

    ghost greatest = { 2 ^ 64 - 1 };

    fn try_from_usize(inx: NonZeroUsize) -> Option<Self> {
        Some(non_zero_u64(inx.get() as u64))
    }

    fn try_into_usize(this: Self) -> Option<NonZeroUsize> {
        Some(non_zero_usize(this.get() as usize))
    }

    fn max_index() -> NonZeroUsize {
        NonZeroUsize::MAX
    }

    fn best_effort_invalid() -> Self {
        NonZeroU64::MAX
    }

    fn fmt_hex<W: fmt::Write>(this: Self, f: &mut fmt::Formatter<W>) -> fmt::Result {
        write!(f, "{this:x}")
    }

    ghost positive = { λ i. i.ok };

    ghost greatest_positive = { omega arith };

    ghost distinct = { u64_distinct };

    ghost equates = { λ _ _. refl };

    ghost orders = { λ _ _. refl };
}

impl PtrInx for NonZeroU128 {
    ghost number = { non_zero_u128_get };

    ghost greatest = { 2 ^ 128 - 1 };

    fn try_from_usize(inx: NonZeroUsize) -> Option<Self> {
        Some(non_zero_u128(inx.get() as u128))
    }

    fn try_into_usize(this: Self) -> Option<NonZeroUsize> {
        Some(non_zero_usize(usize::try_from(this.get()).ok()?))
    }

    fn max_index() -> NonZeroUsize {
        NonZeroUsize::MAX
    }

    fn best_effort_invalid() -> Self {
        NonZeroU128::MAX
    }

    fn fmt_hex<W: fmt::Write>(this: Self, f: &mut fmt::Formatter<W>) -> fmt::Result {
        fmt_hex_wide(this.get(), f)
    }

    ghost positive = { λ i. i.ok };

    ghost greatest_positive = { omega arith };

    ghost distinct = { u128_distinct };

    ghost equates = { λ _ _. refl };

    ghost orders = { λ _ _. refl };
}
