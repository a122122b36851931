//! Numbers as std's types of those that are not 0, without a test.

ghost use Rattle.std.specs.Prelude.{◌≡◌, ◌<◌};
ghost use Rattle.std.specs.Int.NonZero.{non_zero_u8_get, non_zero_u16_get, non_zero_u32_get, non_zero_u64_get, non_zero_u128_get, non_zero_usize_get};

use std::num::{NonZeroU8, NonZeroU16, NonZeroU32, NonZeroU64, NonZeroU128, NonZeroUsize};

/// The number as a `NonZeroU8`. The caller shows that it is not 0, and no test is made.
pub fn non_zero_u8(n: u8) -> NonZeroU8
    requires { 0 < n }
    ensures { non_zero_u8_get result ≡ n }
{
    unsafe { NonZeroU8::new_unchecked(n) }
}

/// The number as a `NonZeroU16`. The caller shows that it is not 0, and no test is made.
pub fn non_zero_u16(n: u16) -> NonZeroU16
    requires { 0 < n }
    ensures { non_zero_u16_get result ≡ n }
{
    unsafe { NonZeroU16::new_unchecked(n) }
}

/// The number as a `NonZeroU32`. The caller shows that it is not 0, and no test is made.
pub fn non_zero_u32(n: u32) -> NonZeroU32
    requires { 0 < n }
    ensures { non_zero_u32_get result ≡ n }
{
    unsafe { NonZeroU32::new_unchecked(n) }
}

/// The number as a `NonZeroU64`. The caller shows that it is not 0, and no test is made.
pub fn non_zero_u64(n: u64) -> NonZeroU64
    requires { 0 < n }
    ensures { non_zero_u64_get result ≡ n }
{
    unsafe { NonZeroU64::new_unchecked(n) }
}

/// The number as a `NonZeroU128`. The caller shows that it is not 0, and no test is made.
pub fn non_zero_u128(n: u128) -> NonZeroU128
    requires { 0 < n }
    ensures { non_zero_u128_get result ≡ n }
{
    unsafe { NonZeroU128::new_unchecked(n) }
}

/// The number as a `NonZeroUsize`. The caller shows that it is not 0, and no test is made.
pub fn non_zero_usize(n: usize) -> NonZeroUsize
    requires { 0 < n }
    ensures { non_zero_usize_get result ≡ n }
{
    unsafe { NonZeroUsize::new_unchecked(n) }
}
