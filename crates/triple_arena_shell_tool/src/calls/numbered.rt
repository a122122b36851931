//! Generations by their numbers.

use std::num::{NonZeroU8, NonZeroU64};

/// A generation that a line gives by its number.
pub trait Numbered {
    /// The generation of this number.
    fn of_number(number: u64) -> Option<Self>;
}

impl Numbered for NonZeroU8 {
    fn of_number(number: u64) -> Option<NonZeroU8> {
        NonZeroU8::new(u8::try_from(number).ok()?)
    }
}

impl Numbered for NonZeroU64 {
    fn of_number(number: u64) -> Option<NonZeroU64> {
        NonZeroU64::new(number)
    }
}

/// Where generations don't count there is one for each number.
impl Numbered for () {
    fn of_number(_number: u64) -> Option<()> {
        Some(())
    }
}
