//! What a call tells.

use triple_arena_base::{CompactError, InvalidationResult, ReallocationError};
use triple_arena_ptr::Ptr;
use triple_arena_test_kit::{Numbered, numbers_of};

/// What a call tells: a pointer by the numbers of its index and its generation.
#[derive(Clone, Copy, PartialEq)]
pub enum Told {
    /// It was done, and gives nothing.
    Done,
    /// A new pointer, or one that leads to no entry.
    At(usize, u64),
    Refused(ReallocationError),
    /// What no call here tells where all is right.
    Otherwise,
}

/// What a call tells that is refused memory.
pub const NO_MEMORY: Told = Told::Refused(ReallocationError::AllocError);

/// A pointer.
pub fn told_pointer<P: Ptr>(p: P) -> Told
where
    P::Gen: Numbered,
{
    let (index, generation) = numbers_of(p);
    Told::At(index, generation)
}

/// The pointer of a new entry, or what refused it.
pub fn told_inserted<P: Ptr>(inserted: Result<P, ReallocationError>) -> Told
where
    P::Gen: Numbered,
{
    match inserted {
        Ok(p) => told_pointer(p),
        Err(refused) => Told::Refused(refused),
    }
}

/// That it was done, or what refused it.
pub fn told_done<T: Drop>(done: Result<T, ReallocationError>) -> Told {
    match done {
        Ok(_done) => Told::Done,
        Err(refused) => Told::Refused(refused),
    }
}

/// That a value was taken out, and no counter wrapped.
pub fn told_taken<T: Drop>(taken: InvalidationResult<T>) -> Told {
    match taken {
        InvalidationResult::Success(_taken) => Told::Done,
        _ => Told::Otherwise,
    }
}

/// What refuses a compaction.
pub fn told_compaction<P: Ptr>(refusal: CompactError<P>) -> Told
where
    P::Gen: Numbered,
{
    match refusal {
        CompactError::Unresolved(p) => told_pointer(p),
        CompactError::Reallocation(refused) => Told::Refused(refused),
    }
}
