//! Why bytes are no value.

ghost use Rattle.std.specs.Prelude.{◌≡◌};
ghost use Rattle.triple_arena_snapshot.specs.declared.fault.DecodeError.TheVariants.{Memory};
ghost use Rattle.triple_arena_snapshot.specs.declared.fault.SaveError.TheVariants as saving;

use std::alloc::{AllocError, AllocFailed};
use thiserror::Error;

/// What is wrong with bytes.
#[derive(Clone, Copy, Debug, PartialEq, Eq, Error)]
pub enum Fault {
    /// The bytes end within a value.
    #[error("the bytes end within a value")]
    Cut,
    /// A byte is none of those that may stand there.
    #[error("a byte is none of those that may stand there")]
    Flag,
    /// A number is 0 that may not be: an index, a generation, or a `NonZero` number.
    #[error("a number is 0 that may not be")]
    Zero,
    /// A text isn't UTF-8.
    #[error("a text is not UTF-8")]
    Text,
    /// A float's bits are of a NaN, and not those by which a NaN is written; told at the float's first byte.
    #[error("the bits of a float are another pattern of a NaN than the one that is written")]
    Nan,
    /// A key of a map isn't above the one in front of it; told where the key begins.
    #[error("a key of a map is not above the one in front of it")]
    Order,
    /// An arena's pointers are of another width.
    #[error("the pointers of an arena are of another width")]
    Width,
    /// An arena has more slots than fit.
    #[error("an arena has more slots than fit")]
    Slots,
    /// An arena's free list isn't that of its free slots, each once.
    #[error("the free list of an arena is not that of its free slots")]
    FreeList,
    /// An entry of a strict arena is of a generation past the counter.
    #[error("an entry of a strict arena is of a generation past the counter")]
    Counter,
    /// Bytes stand behind the last value.
    #[error("bytes stand behind the value")]
    Trailing,
    /// The file doesn't begin with the mark.
    #[error("the file does not begin with the mark")]
    Mark,
    /// The file is of another version of the format.
    #[error("the file is of another version")]
    Version,
    /// The file is one of values of another shape; told at the first byte of the shape that differs, or at
    /// its count, if that does.
    #[error("the file is of values of another type")]
    Shape,
    /// The checksum isn't that of what stands before it.
    #[error("the checksum is not that of the bytes before it")]
    Sum,
}

/// Why no value was read.
#[derive(Clone, Copy, Debug, PartialEq, Eq, Error)]
pub enum DecodeError {
    /// Memory was refused.
    #[error("memory was refused")]
    Memory,
    /// The first fault in the bytes, and how many bytes were left where what it is about begins.
    #[error("malformed {1} bytes before the end: {0}")]
    Malformed(Fault, usize),
}

impl From<AllocError> for DecodeError {
    ghost from_gives = { λ _ e. e ≡ Memory };

    fn from(_e: AllocError) -> DecodeError {
        DecodeError::Memory
    }
}

impl<T: Drop> From<AllocFailed<T>> for DecodeError {
    ghost from_gives = { λ _ e. e ≡ Memory };

    fn from(_e: AllocFailed<T>) -> DecodeError {
        DecodeError::Memory
    }
}

/// Why no value was loaded.
#[derive(Clone, Copy, Debug, PartialEq, Eq, Error)]
pub enum LoadError {
    /// Memory was refused.
    #[error("memory was refused")]
    Memory,
    /// The reader failed, or hadn't ended after as many reads as std's `read_to_end` makes.
    #[error("the reader failed")]
    Read,
    /// The first fault in the file, and the offset at which what it is about begins.
    #[error("malformed at byte {1}: {0}")]
    Malformed(Fault, usize),
}

/// Why no file was written.
#[derive(Clone, Copy, Debug, PartialEq, Eq, Error)]
pub enum SaveError {
    /// Memory was refused. No byte was written.
    #[error("memory was refused")]
    Memory,
    /// The writer failed, took no byte, or interrupted one write 4294967296 times. A front of the
    /// file was written, and not all of it.
    #[error("the writer failed")]
    Write,
}

impl From<triple_arena_base::AllocError> for SaveError {
    ghost from_gives = { λ _ e. e ≡ saving.Memory };

    fn from(_e: triple_arena_base::AllocError) -> SaveError {
        SaveError::Memory
    }
}
