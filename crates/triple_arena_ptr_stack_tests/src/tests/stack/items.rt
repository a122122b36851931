//! Items of stacks, and calls of stacks of them, which have no clauses here, so that tables, which make many, are quick
//! to prove.

use super::tables::Answer;
use std::cell::Cell;
use std::num::NonZeroUsize;
use std::rc::Rc;
use triple_arena_base::{NotWithinCapacityError, ReallocationError};
use triple_arena_stack::{
    NonZeroInxGenericStack, NonZeroInxGenericStackPushEntryTrait, NonZeroInxStack,
};

/// How many items were dropped.
pub type Drops = Rc<Cell<u64>>;

/// An item with its number, which counts its drop, if drops are counted.
#[derive(Default)]
pub struct Item {
    pub number: u64,
    pub drops: Option<Drops>,
}

impl Item {
    /// Its number; where drops are counted, how many items were dropped.
    pub fn told(&self) -> u64 {
        match &self.drops {
            Some(drops) => drops.get(),
            None => self.number,
        }
    }
}

impl Drop for Item {
    fn drop(self) {
        let Item { number: _, drops } = self;
        if let Some(drops) = drops {
            drops.set(drops.get().wrapping_add(1));
        }
    }
}

fn pushed(answer: Result<NonZeroUsize, ReallocationError>) -> Answer {
    match answer {
        Ok(index) => Answer::At(index.get()),
        Err(refusal) => Answer::Refused(refusal),
    }
}

/// By `push`.
pub fn put<S: NonZeroInxGenericStack<Item>>(stack: &mut S, item: Item) -> Answer {
    pushed(stack.push(item))
}

/// By `push_reallocating`.
pub fn put_reallocating<S: NonZeroInxGenericStack<Item>>(stack: &mut S, item: Item) -> Answer {
    pushed(stack.push_reallocating(item))
}

/// By `push_within_capacity`.
pub fn put_within<S: NonZeroInxGenericStack<Item>>(stack: &mut S, item: Item) -> Answer {
    match stack.push_within_capacity(item) {
        Ok(index) => Answer::At(index.get()),
        Err(NotWithinCapacityError) => Answer::NoPlace,
    }
}

// The index of an entry that has its place, by which an item is pushed, if there is one.
fn entered<'a, E: NonZeroInxGenericStackPushEntryTrait<'a, Item> + Drop>(
    entry: E,
    item: Option<Item>,
) -> Answer {
    if !entry.has_place() {
        return Answer::NoPlace;
    }
    let index = entry.inx().get();
    if let Some(item) = item {
        entry.push(item);
    }
    Answer::At(index)
}

/// By `entry_push`, which is let go without an item.
pub fn enter<K: NonZeroInxGenericStack<Item>>(
    stack: &mut NonZeroInxStack<Item, K>,
    item: Option<Item>,
) -> Answer {
    match stack.entry_push() {
        Ok(entry) => entered(entry, item),
        Err(refusal) => Answer::Refused(refusal),
    }
}

/// By `entry_push_reallocating`, which is let go without an item.
pub fn enter_reallocating<K: NonZeroInxGenericStack<Item>>(
    stack: &mut NonZeroInxStack<Item, K>,
    item: Option<Item>,
) -> Answer {
    match stack.entry_push_reallocating() {
        Ok(entry) => entered(entry, item),
        Err(refusal) => Answer::Refused(refusal),
    }
}

/// By `entry_push_within_capacity` the first item, over which the second is written.
pub fn enter_within<K: NonZeroInxGenericStack<Item>>(
    stack: &mut NonZeroInxStack<Item, K>,
    first: Item,
    second: Item,
) -> Answer {
    match stack.entry_push_within_capacity() {
        Ok(entry) => {
            *entry.push(first) = second;
            Answer::Done
        }
        Err(NotWithinCapacityError) => Answer::NoPlace,
    }
}

/// By `pop`; the item is dropped.
pub fn take<S: NonZeroInxGenericStack<Item>>(stack: &mut S) -> Answer {
    match stack.pop() {
        Some(item) => Answer::Item(item.told()),
        None => Answer::NoItem,
    }
}

/// By `clear`.
pub fn take_all<S: NonZeroInxGenericStack<Item>>(stack: &mut S) -> Answer {
    stack.clear();
    Answer::Done
}

/// By `reallocate_min_capacity`.
pub fn reserve<S: NonZeroInxGenericStack<Item>>(stack: &mut S, min_capacity: usize) -> Answer {
    match stack.reallocate_min_capacity(min_capacity) {
        Ok(()) => Answer::Done,
        Err(refusal) => Answer::Refused(refusal),
    }
}

/// By `as_slice`, whether it has these items; else how many it has, or the first that is another.
pub fn has_items<S: NonZeroInxGenericStack<Item>>(stack: &S, numbers: &[u64]) -> Answer {
    let items = stack.as_slice();
    if items.len() != numbers.len() {
        return Answer::Items(items.len());
    }
    for (item, number) in items.iter().zip(numbers) {
        if item.told() != *number {
            return Answer::Item(item.told());
        }
    }
    Answer::Done
}

/// By `check_disjoint`.
pub fn are_two<S: NonZeroInxGenericStack<Item>>(
    stack: &S,
    first: NonZeroUsize,
    second: NonZeroUsize,
) -> Answer {
    match stack.check_disjoint(first, second) {
        Ok(()) => Answer::Done,
        Err(refusal) => Answer::NoPair(refusal),
    }
}

/// By `with_disjoint_mut`.
pub fn lend<S: NonZeroInxGenericStack<Item>>(
    stack: &mut S,
    first: NonZeroUsize,
    second: NonZeroUsize,
) -> Answer {
    match stack.with_disjoint_mut(first, second, |a, b| (a.told(), b.told())) {
        Ok((a, b)) => Answer::Pair(a, b),
        Err(refusal) => Answer::NoPair(refusal),
    }
}
