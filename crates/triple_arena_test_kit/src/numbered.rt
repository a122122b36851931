//! Pointers by their numbers.

use std::num::{NonZeroU8, NonZeroU16, NonZeroU64, NonZeroUsize};
use triple_arena_ptr::{Ptr, PtrGen, PtrInx};

/// A generation that a table gives by its number.
pub trait Numbered: PtrGen {
    /// The generation of this number; where generations do not count, it is there for each number.
    fn of_number(number: u64) -> Option<Self>;

    /// The number of the generation, 1 where generations do not count.
    fn told_number(self) -> u64;
}

impl Numbered for NonZeroU8 {
    fn of_number(number: u64) -> Option<Self> {
        NonZeroU8::new(u8::try_from(number).ok()?)
    }

    fn told_number(self) -> u64 {
        self.get() as u64
    }
}

impl Numbered for NonZeroU16 {
    fn of_number(number: u64) -> Option<Self> {
        NonZeroU16::new(u16::try_from(number).ok()?)
    }

    fn told_number(self) -> u64 {
        self.get() as u64
    }
}

impl Numbered for NonZeroU64 {
    fn of_number(number: u64) -> Option<Self> {
        NonZeroU64::new(number)
    }

    fn told_number(self) -> u64 {
        self.get()
    }
}

impl Numbered for () {
    fn of_number(_number: u64) -> Option<Self> {
        Some(())
    }

    fn told_number(self) -> u64 {
        1
    }
}

/// The index of this number, if the type has it.
pub fn named_index<I: PtrInx>(index: usize) -> Option<I> {
    I::try_from_usize(NonZeroUsize::new(index)?)
}

/// The index of this number; where the type has none, one past those that it has entries at.
pub fn inx<I: PtrInx>(index: usize) -> I {
    match named_index(index) {
        Some(inx) => inx,
        None => I::best_effort_invalid(),
    }
}

/// The pointer of these numbers; where the type has none, the invalid one.
pub fn pointer<P: Ptr>(index: usize, number: u64) -> P
where
    P::Gen: Numbered,
{
    match P::Gen::of_number(number) {
        Some(generation) => P::_from_raw(inx(index), generation),
        None => P::invalid(),
    }
}

/// The numbers of the index and of the generation of a pointer.
pub fn numbers_of<P: Ptr>(p: P) -> (usize, u64)
where
    P::Gen: Numbered,
{
    (index_number(p.inx()), p.generation().told_number())
}

/// The number of an index, and 0 of one past those of any slot.
pub fn index_number<I: PtrInx>(inx: I) -> usize {
    match I::try_into_usize(inx) {
        Some(inx) => inx.get(),
        None => 0,
    }
}
