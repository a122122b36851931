//! Generations, which tell apart the entries that stood at one index.

ghost use Rattle.std.specs.Prelude.{◌≡◌, ℕ, ◌≤◌, ◌==◌, ◌^◌, ◌-◌, Bool, true, false};
ghost use Rattle.std.specs.Fmt.{WritesOnOk};
ghost use Rattle.std.specs.Ordering.{nat_cmp};
ghost use Rattle.std.specs.Int.NonZero.{non_zero_u8_get, non_zero_u16_get, non_zero_u32_get, non_zero_u64_get, non_zero_u128_get};
ghost use Rattle.std.proofs.Common.{refl, arith, true≢false};
ghost use Rattle.triple_arena_ptr.specs.Numbers.{Generations, counting_to, raise, wraps, first_generation};
ghost use Rattle.triple_arena_ptr.specs.PointerText.{generation_hex};
ghost use Rattle.triple_arena_ptr.specs.NonZeroValues.{u8_distinct, u16_distinct, u32_distinct, u64_distinct, u128_distinct, unit_distinct};

use crate::hex::fmt_hex_wide;
use std::fmt;
use std::fmt::Debug;
use std::hash::Hash;
use std::num::{NonZeroU8, NonZeroU16, NonZeroU32, NonZeroU64, NonZeroU128};

/// A generation: a number from 1 to the greatest of its type, or `()` where generations do not
/// count.
///
/// Contracts speak of its `number`, and of the `generations` of the type: whether they are
/// `counting`, and the `greatest`. Generations are equal, and ordered, as their numbers are.
pub trait PtrGen: Debug + Hash + Clone + Copy + PartialEq + Eq + PartialOrd + Ord + 'static {
    /// The number of a generation, 1 for `()`.
    ghost number: { Self → ℕ };

    /// Whether the type tells generations apart, and its greatest number, 1 for `()`.
    ghost generations: { Generations };

    /// Whether the type tells generations apart: false for `()` alone.
    fn counts() -> bool
        ensures { result ≡ generations.counting };

    /// The generation 1. Where generations count, no counter begins with it or comes to it by itself:
    /// an entry has it only where its counter was set to 1, or its pointer was given.
    fn one() -> Self
        ensures { number result ≡ 1 };

    /// The counter of a new arena: 2, or `()`.
    fn two() -> Self
        ensures { number result ≡ first_generation generations };

    /// The next generation, and whether the count began anew: one more and false below the
    /// greatest, 2 and true at the greatest, and `()` and false of `()`.
    fn generational_inc(this: Self) -> (Self, bool)
        ensures within { number this ≤ generations.greatest }
        ensures raised { number result.0 ≡ raise generations (number this) }
        ensures wrapped { result.1 ≡ wraps generations (number this) };

    /// Writes the number in lower-case hexadecimal without prefix, and `()` of `()`.
    fn fmt_hex<W: fmt::Write>(this: Self, f: &mut fmt::Formatter<W>) -> fmt::Result
        ensures { WritesOnOk W.write_str_gives f.old result
            (generation_hex generations.counting (number this)) f.new };

    /// Numbers begin at 1.
    ghost positive: { (g : Self) → 1 ≤ number g };

    /// A type that does not tell generations apart has one value.
    ghost alone: { (g : Self) → generations.counting ≡ false → number g ≡ 1 };

    /// The counter of a new arena is a number of the type.
    ghost first_within: { first_generation generations ≤ generations.greatest };

    /// Different generations have different numbers.
    ghost distinct: { (g h : Self) → number g ≡ number h → g ≡ h };

    /// Generations are equal exactly where their numbers are.
    ghost equates: { (g h : Self) → Self.eq g h ≡ (number g == number h) };

    /// Generations are in the order of their numbers.
    ghost orders: { (g h : Self) → Self.cmp g h ≡ nat_cmp (number g) (number h) };

    /// Whether this is the greatest generation of its type, where generations count: exactly there
    /// [`Self::generational_inc`] tells of a wrap. Never of `()`.
    final fn is_max(this: Self) -> bool
        ensures value { result ≡ wraps generations (number this) }
        ensures within { number this ≤ generations.greatest }
    {
        let (_next, wrapped) = Self::generational_inc(this);
        wrapped
    }
}

/// The generation after this one, and whether it is two again.
macro_rules! next_generation {
    ($number:ident, $this:ident) => {
        match $this.checked_add(1) {
            Some(next) => (next, false),
            None => ($number::new(2).unwrap(), true),
        }
    };
}

impl PtrGen for NonZeroU8 {
    ghost number = { non_zero_u8_get };

    ghost generations = { counting_to (2 ^ 8 - 1) };

    fn counts() -> bool {
        true
    }

    fn one() -> Self {
        NonZeroU8::MIN
    }

    fn two() -> Self {
        NonZeroU8::new(2).unwrap()
    }

    fn generational_inc(this: Self) -> (Self, bool) {
        next_generation!(NonZeroU8, this)
    }

    fn fmt_hex<W: fmt::Write>(this: Self, f: &mut fmt::Formatter<W>) -> fmt::Result {
        write!(f, "{this:x}")
    }

    ghost positive = { λ g. g.ok };

    ghost alone = { λ _ e. absurd (true≢false e) };

    ghost first_within = { omega arith };

    ghost distinct = { u8_distinct };

    ghost equates = { λ _ _. refl };

    ghost orders = { λ _ _. refl };
}

impl PtrGen for NonZeroU16 {
    ghost number = { non_zero_u16_get };

    ghost generations = { counting_to (2 ^ 16 - 1) };

    fn counts() -> bool {
        true
    }

    fn one() -> Self {
        NonZeroU16::MIN
    }

    fn two() -> Self {
        NonZeroU16::new(2).unwrap()
    }

    fn generational_inc(this: Self) -> (Self, bool) {
        next_generation!(NonZeroU16, this)
    }

    fn fmt_hex<W: fmt::Write>(this: Self, f: &mut fmt::Formatter<W>) -> fmt::Result {
        write!(f, "{this:x}")
    }

    ghost positive = { λ g. g.ok };

    ghost alone = { λ _ e. absurd (true≢false e) };

    ghost first_within = { omega arith };

    ghost distinct = { u16_distinct };

    ghost equates = { λ _ _. refl };

    ghost orders = { λ _ _. refl };
}

impl PtrGen for NonZeroU32 {
    ghost number = { non_zero_u32_get };

    ghost generations = { counting_to (2 ^ 32 - 1) };

    fn counts() -> bool {
        true
    }

    fn one() -> Self {
        NonZeroU32::MIN
    }

    fn two() -> Self {
        NonZeroU32::new(2).unwrap()
    }

    fn generational_inc(this: Self) -> (Self, bool) {
        next_generation!(NonZeroU32, this)
    }

    fn fmt_hex<W: fmt::Write>(this: Self, f: &mut fmt::Formatter<W>) -> fmt::Result {
        write!(f, "{this:x}")
    }

    ghost positive = { λ g. g.ok };

    ghost alone = { λ _ e. absurd (true≢false e) };

    ghost first_within = { omega arith };

    ghost distinct = { u32_distinct };

    ghost equates = { λ _ _. refl };

    ghost orders = { λ _ _. refl };
}

impl PtrGen for NonZeroU64 {
    ghost number = { non_zero_u64_get };

    ghost generations = { counting_to (2 ^ 64 - 1) };

    fn counts() -> bool {
        true
    }

    fn one() -> Self {
        NonZeroU64::MIN
    }

    fn two() -> Self {
        NonZeroU64::new(2).unwrap()
    }

    fn generational_inc(this: Self) -> (Self, bool) {
        next_generation!(NonZeroU64, this)
    }

    fn fmt_hex<W: fmt::Write>(this: Self, f: &mut fmt::Formatter<W>) -> fmt::Result {
        write!(f, "{this:x}")
    }

    ghost positive = { λ g. g.ok };

    ghost alone = { λ _ e. absurd (true≢false e) };

    ghost first_within = { omega arith };

    ghost distinct = { u64_distinct };

    ghost equates = { λ _ _. refl };

    ghost orders = { λ _ _. refl };
}

impl PtrGen for NonZeroU128 {
    ghost number = { non_zero_u128_get };

    ghost generations = { counting_to (2 ^ 128 - 1) };

    fn counts() -> bool {
        true
    }

    fn one() -> Self {
        NonZeroU128::MIN
    }

    fn two() -> Self {
        NonZeroU128::new(2).unwrap()
    }

    fn generational_inc(this: Self) -> (Self, bool) {
        next_generation!(NonZeroU128, this)
    }

    fn fmt_hex<W: fmt::Write>(this: Self, f: &mut fmt::Formatter<W>) -> fmt::Result {
        fmt_hex_wide(this.get(), f)
    }

    ghost positive = { λ g. g.ok };

    ghost alone = { λ _ e. absurd (true≢false e) };

    ghost first_within = { omega arith };

    ghost distinct = { u128_distinct };

    ghost equates = { λ _ _. refl };

    ghost orders = { λ _ _. refl };
}

/// The generation of types that tell no generations apart: there is one, which never changes.
impl PtrGen for () {
    ghost number = { λ _. 1 };

    ghost generations = { record { counting = false; greatest = 1 } };

    fn counts() -> bool {
        false
    }

    fn one() -> Self {}

    fn two() -> Self {}

    fn generational_inc(this: Self) -> (Self, bool) {
        (this, false)
    }

    fn fmt_hex<W: fmt::Write>(_this: Self, f: &mut fmt::Formatter<W>) -> fmt::Result {
        write!(f, "()")
    }

    ghost positive = { λ _. omega arith };

    ghost alone = { λ _ _. refl };

    ghost first_within = { omega arith };

    ghost distinct = { unit_distinct };

    ghost equates = { λ _ _. refl };

    ghost orders = { λ _ _. refl };
}
