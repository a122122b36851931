//! Direct arenas: insertion under any pointer, free slots at the end, text, and loops.

use crate::tests::shown::direct_is_shown;
use crate::tests::tables::Answer::{Done, Is, NoEntry, Written};
use crate::tests::tables::Call::{InsertAt, LetEntryGo, PopFreeEndSlots, Remove, Slots, Text};
use crate::tests::tables::{Answer, Call, Row, Tabled, follow};
use std::alloc::Global;
use std::process::Abort;
use triple_arena::arena_iterators::CapacityDrain;
use triple_arena::{ArenaDirectInsertEntryTrait, ArenaDirectInsertTrait, ArenaTrait};
use triple_arena_base::DirectInsertionError::{ExistingElementAtIndex, NotWithinCapacity};
use triple_arena_direct::direct_arena_iterators::{IterMut, ValsMut};
use triple_arena_direct::{DirectArena, DirectSlot};
use triple_arena_ptr::P0;
use triple_arena_stack::{
    NonZeroInxArray, NonZeroInxBoxedSlice, NonZeroInxGenericStack, NonZeroInxLimitedVec,
    NonZeroInxVec,
};
use triple_arena_test_kit::{Unlike, is, pointer};

type Slot = DirectSlot<P0, u64>;

/// A direct arena of numbers.
#[derive(Drop)]
pub struct Numbers {
    arena: DirectArena<P0, u64>,
}

impl Numbers {
    /// One of so many places.
    pub fn with_room(rt: &impl Abort, alloc: Global, room: usize) -> Numbers {
        Numbers {
            arena: DirectArena::with_min_capacity(alloc, room).expect(rt, "memory"),
        }
    }

    // The answer of a call by an entry.
    fn entering(&mut self, call: Call<'_>) -> Option<Answer> {
        match call {
            Call::InsertAt(at, value) => Some(
                match self
                    .arena
                    .direct_insert_within_capacity(pointer(at.0, at.1))
                {
                    Ok(entry) => Answer::Is(*entry.insert(value)),
                    Err(refusal) => Answer::NoEntry(refusal),
                },
            ),
            Call::LetEntryGo(at) => Some(
                match self
                    .arena
                    .direct_insert_within_capacity(pointer(at.0, at.1))
                {
                    Ok(_entry) => Answer::Done,
                    Err(refusal) => Answer::NoEntry(refusal),
                },
            ),
            _ => None,
        }
    }

    // The answer of a call that ends an entry, or concerns slots.
    fn ending(&mut self, call: Call<'_>) -> Option<Answer> {
        match call {
            Call::Remove(at) => Some(if self.arena.remove(pointer(at.0, at.1)).is_success() {
                Answer::Done
            } else {
                Answer::Nothing
            }),
            Call::PopFreeEndSlots(most) => Some(Answer::Is(
                self.arena.pop_free_end_slots(most) as u64,
            )),
            Call::Slots => Some(Answer::Is(self.arena.backing().len() as u64)),
            _ => None,
        }
    }

    /// Inserts where there is a place.
    pub fn insert(&mut self, p: P0, value: u64) {
        insert_reserved(&mut self.arena, p, value);
    }

    /// That Debug writes this text of it.
    pub fn is_shown(&self, alloc: Global, text: &str) -> Result<(), Unlike> {
        direct_is_shown(alloc, &self.arena, text)
    }
}

impl Tabled for Numbers {
    fn answer(&mut self, call: Call<'_>) -> Option<Answer> {
        self.entering(call).or(self.ending(call))
    }

    fn shows(&mut self, alloc: Global, call: Call<'_>) -> Option<Result<(), Unlike>> {
        match call {
            Call::Text(text) => Some(self.is_shown(alloc, text)),
            _ => None,
        }
    }
}

const INSERTED: &[Row<'_>] = &[
    (LetEntryGo((3, 2)), Done),
    (Slots, Is(0)),
    (LetEntryGo((3, 2)), Done),
    (InsertAt((6, 2), 1), NoEntry(NotWithinCapacity)),
    (InsertAt((3, 9), 1), Is(1)),
    (Slots, Is(3)),
    (InsertAt((3, 1), 1), NoEntry(ExistingElementAtIndex)),
    (PopFreeEndSlots(5), Is(0)),
    (Text("{P0[3](9): 1}"), Written),
];

#[test]
fn insertion_under_any_pointer(rt: HostRuntime) {
    let mut numbers = Numbers::with_room(&rt, rt.alloc(), 4);
    follow(rt.alloc(), &mut numbers, INSERTED).expect(&rt, "the answers");
}

const POPPED: &[Row<'_>] = &[
    (InsertAt((3, 9), 1), Is(1)),
    (Remove((3, 9)), Done),
    (Slots, Is(3)),
    (PopFreeEndSlots(2), Is(2)),
    (Slots, Is(1)),
];

#[test]
fn so_many_free_slots_are_popped(rt: HostRuntime) {
    let mut numbers = Numbers::with_room(&rt, rt.alloc(), 4);
    follow(rt.alloc(), &mut numbers, POPPED).expect(&rt, "the answers");
}

// Inserts where there is a place.
fn insert_reserved<S: NonZeroInxGenericStack<Slot>>(
    arena: &mut DirectArena<P0, u64, S>,
    p: P0,
    value: u64,
) {
    if arena.can_direct_insert(p) {
        arena.direct_insert_reserved(p, value);
    }
}

// Entries at 1, 2 and 4, over a stack of four places.
fn three<S: NonZeroInxGenericStack<Slot> + Drop>(
    rt: &impl Abort,
    alloc: Global,
) -> DirectArena<P0, u64, S> {
    let mut arena = DirectArena::over(S::with_min_capacity(alloc, 4).expect(rt, "memory"));
    insert_reserved(&mut arena, pointer(4, 3), 400);
    insert_reserved(&mut arena, pointer(1, 2), 1);
    insert_reserved(&mut arena, pointer(2, 5), 20);
    arena
}

fn three_on_heap(rt: &impl Abort, alloc: Global) -> Numbers {
    Numbers {
        arena: three(rt, alloc),
    }
}

#[test]
fn the_text_of_a_direct_arena(rt: HostRuntime) {
    let text = "{P0[1](2): 1, P0[2](5): 20, P0[4](3): 400}";
    three_on_heap(&rt, rt.alloc())
        .is_shown(rt.alloc(), text)
        .expect(&rt, "the arena");
}

fn add_one_to_entries(entries: IterMut<'_, P0, u64>) {
    for (_p, value) in entries {
        *value = value.wrapping_add(1);
    }
}

fn add_one_to_values(values: ValsMut<'_, P0, u64>) {
    for value in values {
        *value = value.wrapping_add(1);
    }
}

// Whether an iterator tells that just so many items are left.
fn has_left<I: ExactSizeIterator>(items: &I, left: usize) -> bool {
    items.len() == left && items.size_hint() == (left, Some(left))
}

fn add_two_to_each(numbers: &mut Numbers) {
    add_one_to_entries(numbers.arena.iter_mut());
    add_one_to_values(numbers.arena.vals_mut());
}

// Of three entries that are lent to be written, and of three values.
fn lengths_of_loans(numbers: &mut Numbers) -> [bool; 2] {
    let entries = has_left(&numbers.arena.iter_mut(), 3);
    [entries, has_left(&numbers.arena.vals_mut(), 3)]
}

fn sum_of(numbers: &Numbers) -> u64 {
    let mut sum = 0u64;
    for (_p, value) in &numbers.arena {
        sum = sum.wrapping_add(*value);
    }
    sum
}

#[test]
fn loops_over_a_direct_arena(rt: HostRuntime) {
    let mut numbers = three_on_heap(&rt, rt.alloc());
    add_two_to_each(&mut numbers);
    is(lengths_of_loans(&mut numbers), [true; 2]).expect(&rt, "what is left of loans");
    is(sum_of(&numbers), 427).expect(&rt, "the sum");
}

// The numbers that a loop over `three` by value takes.
fn is_taken<S: NonZeroInxGenericStack<Slot> + Drop>(
    rt: &impl Abort,
    entries: CapacityDrain<P0, u64, DirectArena<P0, u64, S>>,
) {
    let mut sum = 0u64;
    for (_p, value) in entries {
        sum = sum.wrapping_add(value);
    }
    is(sum, 421).expect(rt, "the sum");
}

#[test]
fn a_loop_by_value_meets_each_entry_over_each_stack(rt: HostRuntime) {
    let alloc = rt.alloc();
    is_taken(&rt, three::<NonZeroInxVec<Slot>>(&rt, alloc).into_iter());
    is_taken(
        &rt,
        three::<NonZeroInxLimitedVec<Slot>>(&rt, alloc).into_iter(),
    );
    is_taken(
        &rt,
        three::<NonZeroInxBoxedSlice<Slot>>(&rt, alloc).into_iter(),
    );
    is_taken(
        &rt,
        three::<NonZeroInxArray<Slot, 4>>(&rt, alloc).into_iter(),
    );
}
