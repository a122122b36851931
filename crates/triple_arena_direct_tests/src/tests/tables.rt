//! Tables of calls of arenas, each with its answer. To make a call of a strict arena, or one of a trait of a direct arena, takes
//! a function some five seconds to prove, whatever else it calls: so a few functions of each arena make the calls of all tables.

use std::alloc::Global;
use triple_arena_base::{DirectInsertionError, GetDisjointMutError};
use triple_arena_direct::StrictError;
use triple_arena_test_kit::Unlike;

/// The index and the generation of a pointer.
pub type At = (usize, u64);

/// A call; which it is, each arena says where it makes it.
#[derive(Clone, Copy)]
pub enum Call<'a> {
    // Insertion.
    Insert(u64),
    InsertLinked(u64, At),
    InsertWithin(u64),
    InsertReallocating(u64),
    TryInsert(u64),
    InsertReserved(u64),
    InsertAt(At, u64),
    /// Into a new arena, so many by `insert`, and as many by `insert_reallocating`.
    InsertHalves(usize),
    /// An entry for an insertion, under this pointer, that is let go.
    LetEntryGo(At),

    // Ending.
    Remove(At),
    RemoveInx(usize),
    Invalidate(At),
    Clear,
    /// Insertions and removals, of which the last leaves the counter of a new arena at this.
    RaiseTo(u8),
    /// Takes one entry out by a drain, which is let go then.
    Drain,
    /// Keeps the numbers from this on.
    Retain(u64),

    // Moves, slots and room.
    Compress,
    CompressWith,
    /// Debug writes this answer.
    CompressRecast(&'a str),
    Slots,
    PopFreeEndSlots(usize),
    Tidy,
    Reallocate(usize),

    // Reading and writing.
    Get(At),
    GetInx(usize),
    GenerationAt(usize),
    Index(At),
    Ends,
    Walk,
    Generation,
    Len,
    Capacity,
    WriteInx(usize, u64),
    WriteIndex(At, u64),
    AddOne,
    Exchange(At, At),
    ExchangeInx(usize, usize),

    /// Debug writes this of the arena.
    Text(&'a str),
    /// And this of the arena inside.
    TextInside(&'a str),
}

/// What a call answers.
#[derive(Clone, Copy, Debug, PartialEq)]
pub enum Answer {
    Done,
    /// The text of the call is written.
    Written,
    /// Under this pointer.
    Given(At),
    Node(u64, Option<At>),
    Nothing,
    Is(u64),
    Pointers(At, At),
    /// The sums of the numbers that `iter` and `vals` meet, and how many valid pointers `ptrs` meets.
    Met(u64, u64, u64),
    /// How many a drain tells are left, the number that it takes out, and how many it tells then.
    Drained(usize, Option<u64>, usize),
    /// It is done, and the closure was asked so often.
    Asked(u64),
    Refused(StrictError),
    NoEntry(DirectInsertionError),
    NotTwo(GetDisjointMutError),
    /// There is no place, or no memory.
    NoPlace,
}

/// A call, and what it answers.
pub type Row<'a> = (Call<'a>, Answer);

/// What a table tells wrong.
#[derive(Debug, Drop)]
pub enum Wrong {
    /// The call of this row, from 1, answers so.
    Row(usize, Option<Answer>),
    /// The text of this row is another.
    Text(usize, Unlike),
}

/// An arena that makes the calls of tables.
pub trait Tabled {
    /// What a call answers that has no text; none where the arena doesn't make it.
    fn answer(&mut self, call: Call<'_>) -> Option<Answer>;

    /// Whether the text of a call is written; none where it has no text.
    fn shows(&mut self, alloc: Global, call: Call<'_>) -> Option<Result<(), Unlike>>;
}

/// Makes the calls of a table.
pub fn follow<A: Tabled>(alloc: Global, arena: &mut A, rows: &[Row<'_>]) -> Result<(), Wrong> {
    let mut number: usize = 0;
    for (call, wanted) in rows {
        number = number.wrapping_add(1);
        let told = match arena.shows(alloc, *call) {
            Some(Err(unlike)) => return Err(Wrong::Text(number, unlike)),
            Some(Ok(())) => Some(Answer::Written),
            None => arena.answer(*call),
        };
        if told != Some(*wanted) {
            return Err(Wrong::Row(number, told));
        }
    }
    Ok(())
}
