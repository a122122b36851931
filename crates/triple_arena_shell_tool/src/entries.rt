//! Insertion by an entry.

ghost use Rattle.std.specs.Prelude.{◌<◌};
ghost use Rattle.triple_arena_traits.specs.ArenaState.{arena_len, capacity};
ghost use Rattle.triple_arena.specs.InsertEntry.{entry_arena};

use crate::calls::Value;
use triple_arena::{Arena, ArenaInsertEntry, ArenaInsertEntryTrait, ArenaSlot};
use triple_arena_base::{NotWithinCapacityError, ReallocationError};
use triple_arena_ptr::Ptr;
use triple_arena_stack::NonZeroInxGenericStack;

/// The pointer that the entry of `entry_insert` tells, by which a value is inserted, if there is one; else the entry is
/// let go.
pub fn insert_by_entry<P: Ptr, S: NonZeroInxGenericStack<ArenaSlot<P, Value>>>(
    arena: &mut Arena<P, Value, S>,
    new: Option<Value>,
) -> Result<P, ReallocationError> {
    match arena.entry_insert() {
        Ok(entry) => Ok(told_by(entry, new)),
        Err(refused) => Err(refused),
    }
}

/// So by `entry_insert_reallocating`.
pub fn insert_by_entry_reallocating<P: Ptr, S: NonZeroInxGenericStack<ArenaSlot<P, Value>>>(
    arena: &mut Arena<P, Value, S>,
    new: Option<Value>,
) -> Result<P, ReallocationError> {
    match arena.entry_insert_reallocating() {
        Ok(entry) => Ok(told_by(entry, new)),
        Err(refused) => Err(refused),
    }
}

/// So by `entry_insert_within_capacity`.
pub fn insert_by_entry_within_capacity<P: Ptr, S: NonZeroInxGenericStack<ArenaSlot<P, Value>>>(
    arena: &mut Arena<P, Value, S>,
    new: Option<Value>,
) -> Result<P, NotWithinCapacityError> {
    match arena.entry_insert_within_capacity() {
        Ok(entry) => Ok(told_by(entry, new)),
        Err(refused) => Err(refused),
    }
}

fn told_by<P: Ptr, S: NonZeroInxGenericStack<ArenaSlot<P, Value>>>(
    entry: ArenaInsertEntry<'_, P, Value, S>,
    new: Option<Value>,
) -> P
    requires { arena_len (entry_arena entry) < capacity (entry_arena entry) }
{
    let p = entry.ptr();
    if let Some(value) = new {
        entry.insert(value);
    }
    p
}
