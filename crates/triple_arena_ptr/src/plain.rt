//! Plain numbers, as which pointers keep their index and their generation.

ghost use Rattle.std.specs.Prelude.{◌≡◌, ◌<◌, ◌-◌, suc};
ghost use Rattle.std.proofs.Common.{refl};
ghost use Rattle.triple_arena_ptr.specs.NonZeroValues.{suc_before, u8_after, u8_after_cancels, u16_after, u16_after_cancels, u32_after, u32_after_cancels, u64_after, u64_after_cancels, u128_after, u128_after_cancels, usize_after, usize_after_cancels};

use crate::non_zero::{
    non_zero_u8, non_zero_u16, non_zero_u32, non_zero_u64, non_zero_u128, non_zero_usize,
};
use std::hash::Hash;
use std::num::{NonZeroU8, NonZeroU16, NonZeroU32, NonZeroU64, NonZeroU128, NonZeroUsize};

/// A plain number, as which a pointer keeps its index or its generation: `u8` to `u128` or `usize`,
/// and `()` where generations do not count.
///
/// A value of the `NonZero` type is kept as its number. So each value has the number `before` it, and
/// is that of the number `after` this.
pub trait Plain: Hash + Clone + Copy + PartialEq + Eq + PartialOrd + Ord + 'static {
    /// The type of what is kept.
    type NonZero: Clone + Copy + PartialEq + Eq + PartialOrd + Ord + 'static;

    /// The number before.
    ghost before: { Self → Self };

    /// The number after.
    ghost after: { Self → Self };

    /// Whether this comes after a number.
    ghost is_after: { Self → Type 0 };

    /// The value whose number comes after this.
    ghost value_after: { Self → Self.NonZero };

    /// What comes after the number before is the number itself.
    ghost after_before: { (n : Self) → is_after n → after (before n) ≡ n };

    /// The value of this number.
    fn value(self) -> Self::NonZero
        requires { is_after self }
        ensures { result ≡ value_after (before self) };

    /// The number of a value.
    fn of(value: Self::NonZero) -> Self
        ensures number { is_after result }
        ensures value { value_after (before result) ≡ value };

    /// Different numbers come before different values.
    ghost distinct: { (m n : Self) → value_after m ≡ value_after n → m ≡ n };

    /// Numbers are equal exactly where their values are.
    ghost equates: { (m n : Self) → Self.eq (after m) (after n)
        ≡ Self.NonZero.eq (value_after m) (value_after n) };

    /// Numbers are in the order of their values.
    ghost orders: { (m n : Self) → Self.cmp (after m) (after n)
        ≡ Self.NonZero.cmp (value_after m) (value_after n) };
}

impl Plain for u8 {
    type NonZero = NonZeroU8;

    ghost before = { λ n. n - 1 };

    ghost after = { suc };

    ghost is_after = { λ n. 0 < n };

    ghost value_after = { u8_after };

    ghost after_before = { suc_before };

    #[tactic(auto, using(crate::specs::NonZeroValues::u8_is_after))]
    fn value(self) -> NonZeroU8 {
        non_zero_u8(self)
    }

    #[tactic(auto, using(crate::specs::NonZeroValues::u8_after_before))]
    fn of(value: NonZeroU8) -> Self {
        value.get()
    }

    ghost distinct = { u8_after_cancels };

    ghost equates = { λ _ _. refl };

    ghost orders = { λ _ _. refl };
}

impl Plain for u16 {
    type NonZero = NonZeroU16;

    ghost before = { λ n. n - 1 };

    ghost after = { suc };

    ghost is_after = { λ n. 0 < n };

    ghost value_after = { u16_after };

    ghost after_before = { suc_before };

    #[tactic(auto, using(crate::specs::NonZeroValues::u16_is_after))]
    fn value(self) -> NonZeroU16 {
        non_zero_u16(self)
    }

    #[tactic(auto, using(crate::specs::NonZeroValues::u16_after_before))]
    fn of(value: NonZeroU16) -> Self {
        value.get()
    }

    ghost distinct = { u16_after_cancels };

    ghost equates = { λ _ _. refl };

    ghost orders = { λ _ _. refl };
}

impl Plain for u32 {
    type NonZero = NonZeroU32;

    ghost before = { λ n. n - 1 };

    ghost after = { suc };

    ghost is_after = { λ n. 0 < n };

    ghost value_after = { u32_after };

    ghost after_before = { suc_before };

    #[tactic(auto, using(crate::specs::NonZeroValues::u32_is_after))]
    fn value(self) -> NonZeroU32 {
        non_zero_u32(self)
    }

    #[tactic(auto, using(crate::specs::NonZeroValues::u32_after_before))]
    fn of(value: NonZeroU32) -> Self {
        value.get()
    }

    ghost distinct = { u32_after_cancels };

    ghost equates = { λ _ _. refl };

    ghost orders = { λ _ _. refl };
}

impl Plain for u64 {
    type NonZero = NonZeroU64;

    ghost before = { λ n. n - 1 };

    ghost after = { suc };

    ghost is_after = { λ n. 0 < n };

    ghost value_after = { u64_after };

    ghost after_before = { suc_before };

    #[tactic(auto, using(crate::specs::NonZeroValues::u64_is_after))]
    fn value(self) -> NonZeroU64 {
        non_zero_u64(self)
    }

    #[tactic(auto, using(crate::specs::NonZeroValues::u64_after_before))]
    fn of(value: NonZeroU64) -> Self {
        value.get()
    }

    ghost distinct = { u64_after_cancels };

    ghost equates = { λ _ _. refl };

    ghost orders = { λ _ _. refl };
}

impl Plain for u128 {
    type NonZero = NonZeroU128;

    ghost before = { λ n. n - 1 };

    ghost after = { suc };

    ghost is_after = { λ n. 0 < n };

    ghost value_after = { u128_after };

    ghost after_before = { suc_before };

    #[tactic(auto, using(crate::specs::NonZeroValues::u128_is_after))]
    fn value(self) -> NonZeroU128 {
        non_zero_u128(self)
    }

    #[tactic(auto, using(crate::specs::NonZeroValues::u128_after_before))]
    fn of(value: NonZeroU128) -> Self {
        value.get()
    }

    ghost distinct = { u128_after_cancels };

    ghost equates = { λ _ _. refl };

    ghost orders = { λ _ _. refl };
}

impl Plain for usize {
    type NonZero = NonZeroUsize;

    ghost before = { λ n. n - 1 };

    ghost after = { suc };

    ghost is_after = { λ n. 0 < n };

    ghost value_after = { usize_after };

    ghost after_before = { suc_before };

    #[tactic(auto, using(crate::specs::NonZeroValues::usize_is_after))]
    fn value(self) -> NonZeroUsize {
        non_zero_usize(self)
    }

    #[tactic(auto, using(crate::specs::NonZeroValues::usize_after_before))]
    fn of(value: NonZeroUsize) -> Self {
        value.get()
    }

    ghost distinct = { usize_after_cancels };

    ghost equates = { λ _ _. refl };

    ghost orders = { λ _ _. refl };
}

impl Plain for () {
    type NonZero = ();

    ghost before = { λ n. n };

    ghost after = { λ n. n };

    ghost is_after = { λ _. Unit };

    ghost value_after = { λ n. n };

    ghost after_before = { λ _ _. refl };

    fn value(self) {}

    fn of(_value: ()) -> Self {}

    ghost distinct = { λ _ _ e. e };

    ghost equates = { λ _ _. refl };

    ghost orders = { λ _ _. refl };
}
