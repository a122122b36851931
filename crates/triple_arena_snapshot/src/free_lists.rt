//! Whether indexes are those of the free slots.

ghost use Rattle.std.specs.Prelude.{◌≡◌, ◌+◌, ◌-◌, ◌<◌, ℕ, true, false, not, is_some, map, slice_get, slice_set, IfOk};
ghost use Rattle.std.specs.Int.NonZero.{non_zero_usize_get};
ghost use Rattle.triple_arena_slots.specs.Slot.{entry_of};
ghost use Rattle.triple_arena_snapshot.specs.ArenaCodings.{are_free, times, is_marked, mark_at, bit};

use std::alloc::{AllocError, Global};
use std::mem;
use std::num::NonZeroUsize;
use triple_arena_ptr::{Ptr, PtrGen};
use triple_arena_slots::ArenaSlot;
use triple_arena_traits::EntrySlot;

// Whether these are the indexes of the free slots, each once.
pub(crate) fn are_free<P: Ptr, T>(
    slots: &[ArenaSlot<P, T>],
    free: &[NonZeroUsize],
    alloc: Global,
) -> Result<bool, AllocError>
    ensures { IfOk result (λ b. b ≡ are_free (map (entry_of P.Gen.number) slots.now)
        (map non_zero_usize_get free.now)) }
{
    let mut unnamed = free_marks(slots, alloc)?;
    if !take_all(&mut unnamed, free) {
        return Ok(false);
    }
    Ok(!unnamed.contains(&true))
}

// For each slot whether it is free.
fn free_marks<P: Ptr, T>(slots: &[ArenaSlot<P, T>], alloc: Global) -> Result<Vec<bool>, AllocError>
    ensures { IfOk result (λ marks. marks.items
        ≡ map (λ slot. not (is_some (entry_of P.Gen.number slot))) slots.now) }
{
    let mut marks = Vec::new(alloc);
    for slot in slots {
        marks.push(!slot.is_live())?;
    }
    Ok(marks)
}

// Takes the mark of each index away, up to one that has none.
fn take_all(marks: &mut Vec<bool>, indexes: &[NonZeroUsize]) -> bool
    ensures taken { result ≡ true → (i : ℕ) → times i (map non_zero_usize_get indexes.now)
        + bit (mark_at marks.new.items i) ≡ bit (mark_at marks.old.items i) }
    ensures refused { result ≡ false → (i : ℕ) × (bit (mark_at marks.old.items i)
        < times i (map non_zero_usize_get indexes.now)) }
{
    for inx in indexes {
        if !take(marks, *inx) {
            return false;
        }
    }
    true
}

// Takes the mark of an index away, and tells whether there was one.
fn take(marks: &mut Vec<bool>, inx: NonZeroUsize) -> bool
    ensures value { result ≡ is_marked
        (slice_get marks.old.items (non_zero_usize_get inx - 1)) }
    ensures taken { marks.new.items
        ≡ slice_set marks.old.items (non_zero_usize_get inx - 1) false }
{
    match marks.get_mut(inx.get() - 1) {
        Some(mark) => mem::replace(mark, false),
        None => false,
    }
}
