//! Tables of calls of a stack, each with its answer.

ghost use Rattle.std.specs.Prelude.{◌<◌};

use super::items::{
    Drops, Item, are_two, enter, enter_reallocating, enter_within, has_items, lend, put,
    put_reallocating, put_within, reserve, take, take_all,
};
use std::alloc::Global;
use std::num::NonZeroUsize;
use triple_arena_base::{
    AllocError, GetDisjointMutError, MaxCapacityReductionError, ReallocationError,
};
use triple_arena_stack::{
    ArrayStack, FixedStack, HeapStack, LimitedStack, NonZeroInxGenericStack, NonZeroInxStack,
    SetMaxCapacity,
};

/// A call of a stack, of items by their numbers and at places from 0 on.
#[derive(Clone, Copy)]
pub enum Call<'a> {
    Push(u64),
    PushReallocating(u64),
    PushWithin(u64),
    /// `push` of each number from 1 to this one, whose index is to be the number.
    PushUpTo(usize),
    /// `entry_push`, by which an item is pushed, if there is one.
    Entry(Option<u64>),
    /// So of `entry_push_reallocating`.
    EntryReallocating(Option<u64>),
    /// `entry_push_within_capacity`, by which an item is pushed; the second is written over it.
    EntryWithin(u64, u64),
    Pop,
    Clear,
    Reallocate(usize),
    MaxCapacity,
    /// `as_slice`, which has these items.
    AsSlice(&'a [u64]),
    CheckDisjoint(usize, usize),
    WithDisjoint(usize, usize),
}

/// What a call answers.
#[derive(Clone, Copy, Debug, PartialEq)]
pub enum Answer {
    Done,
    /// The index of the item.
    At(usize),
    Item(u64),
    NoItem,
    /// So many items.
    Items(usize),
    /// Two items that are lent.
    Pair(u64, u64),
    NoPair(GetDisjointMutError),
    Limit(Option<usize>),
    NoPlace,
    Refused(ReallocationError),
}

/// Where the limit allows no more.
pub const BEYOND: Answer = Answer::Refused(ReallocationError::BeyondMaxCapacity);

/// Where there is no memory.
pub const NO_MEMORY: Answer = Answer::Refused(ReallocationError::AllocError);

/// A call, what it answers, and what is measured after it: the capacity of the stack, or how many items were dropped,
/// where they are counted.
pub type Row<'a> = (Call<'a>, Answer, usize);

/// What a table tells wrong of a stack.
#[derive(Debug, PartialEq, Drop)]
pub enum Wrong {
    /// It isn't made.
    NotMade,
    /// Its limit can't be set.
    NoLimit(usize),
    /// The call of this row, from 1, answers so, or this is measured after it.
    Row(usize, Answer, usize),
}

// The index of a place from 0 on.
fn index(place: usize) -> NonZeroUsize {
    NonZeroUsize::MIN.saturating_add(place)
}

/// What makes the stacks of tables, and their items.
#[derive(Drop)]
pub struct Stacks {
    alloc: Global,
    drops: Option<Drops>,
}

impl Stacks {
    pub fn new(alloc: Global) -> Stacks {
        Stacks { alloc, drops: None }
    }

    /// Such whose items count their drops here.
    pub fn counting(alloc: Global, drops: &Drops) -> Stacks {
        Stacks {
            alloc,
            drops: drops.clone().ok(),
        }
    }

    /// Makes the calls of a table on a stack on the heap, which is new or made with a room.
    pub fn on_heap(&self, room: Option<usize>, rows: &[Row<'_>]) -> Result<(), Wrong> {
        self.calls::<HeapStack<Item>>(room, rows)
    }

    /// So of tables on one whose limit can be set, each with the limit that is set before, if there is one.
    pub fn up_to_limit(
        &self,
        room: Option<usize>,
        tables: &[(Option<usize>, &[Row<'_>])],
    ) -> Result<(), Wrong> {
        let mut stack = self.made::<LimitedStack<Item>>(room)?;
        for (limit, rows) in tables {
            if let Some(limit) = limit {
                set_limit(&mut stack, *limit)?;
            }
            self.follow(&mut stack, rows)?;
        }
        Ok(())
    }

    /// So on one whose room stays.
    pub fn fixed(&self, room: Option<usize>, rows: &[Row<'_>]) -> Result<(), Wrong> {
        self.calls::<FixedStack<Item>>(room, rows)
    }

    /// So in an array, whose size has a bound.
    pub fn in_array<const N: usize>(
        &self,
        room: Option<usize>,
        rows: &[Row<'_>],
    ) -> Result<(), Wrong>
        requires { N < 1000 }
    {
        self.calls::<ArrayStack<Item, N>>(room, rows)
    }

    fn calls<K: NonZeroInxGenericStack<Item> + Drop>(
        &self,
        room: Option<usize>,
        rows: &[Row<'_>],
    ) -> Result<(), Wrong> {
        let mut stack = self.made::<K>(room)?;
        self.follow(&mut stack, rows)
    }

    fn made<K: NonZeroInxGenericStack<Item>>(
        &self,
        room: Option<usize>,
    ) -> Result<NonZeroInxStack<Item, K>, Wrong> {
        let Some(room) = room else {
            return Ok(NonZeroInxStack::new(self.alloc));
        };
        match NonZeroInxStack::with_min_capacity(self.alloc, room) {
            Ok(stack) => Ok(stack),
            Err(AllocError) => Err(Wrong::NotMade),
        }
    }

    fn follow<K: NonZeroInxGenericStack<Item>>(
        &self,
        stack: &mut NonZeroInxStack<Item, K>,
        rows: &[Row<'_>],
    ) -> Result<(), Wrong> {
        let mut number: usize = 0;
        for (call, wanted, after) in rows {
            number = number.wrapping_add(1);
            let told = self.asked(stack, *call);
            let measured = match &self.drops {
                Some(drops) => drops.get() as usize,
                None => stack.capacity(),
            };
            if told != *wanted || measured != *after {
                return Err(Wrong::Row(number, told, measured));
            }
        }
        Ok(())
    }

    fn asked<K: NonZeroInxGenericStack<Item>>(
        &self,
        stack: &mut NonZeroInxStack<Item, K>,
        call: Call<'_>,
    ) -> Answer {
        match call {
            Call::Push(number) => put(stack, self.item(number)),
            Call::PushReallocating(number) => put_reallocating(stack, self.item(number)),
            Call::PushWithin(number) => put_within(stack, self.item(number)),
            Call::PushUpTo(last) => self.push_up_to(stack, last),
            Call::Entry(number) => enter(stack, self.item_of(number)),
            Call::EntryReallocating(number) => enter_reallocating(stack, self.item_of(number)),
            Call::EntryWithin(first, second) => {
                enter_within(stack, self.item(first), self.item(second))
            }
            Call::Pop => take(stack),
            Call::Clear => take_all(stack),
            Call::Reallocate(min_capacity) => reserve(stack, min_capacity),
            Call::MaxCapacity => Answer::Limit(stack.max_capacity()),
            Call::AsSlice(numbers) => has_items(stack, numbers),
            Call::CheckDisjoint(i, j) => are_two(stack, index(i), index(j)),
            Call::WithDisjoint(i, j) => lend(stack, index(i), index(j)),
        }
    }

    fn push_up_to<S: NonZeroInxGenericStack<Item>>(&self, stack: &mut S, last: usize) -> Answer {
        for number in 1..=last {
            let told = put(stack, self.item(number as u64));
            if told != Answer::At(number) {
                return told;
            }
        }
        Answer::Done
    }

    fn item(&self, number: u64) -> Item {
        Item {
            number,
            drops: match &self.drops {
                Some(drops) => drops.clone().ok(),
                None => None,
            },
        }
    }

    // The item of this number, if there is a number.
    fn item_of(&self, number: Option<u64>) -> Option<Item> {
        match number {
            Some(number) => Some(self.item(number)),
            None => None,
        }
    }
}

fn set_limit<T, K: SetMaxCapacity<T>>(
    stack: &mut NonZeroInxStack<T, K>,
    limit: usize,
) -> Result<(), Wrong> {
    match stack.set_max_capacity(limit) {
        Ok(()) => Ok(()),
        Err(MaxCapacityReductionError) => Err(Wrong::NoLimit(limit)),
    }
}
