//! Tables that take others over.

ghost use Rattle.std.specs.Prelude.{◌≡◌, ◌≤◌, OnOk, OnErr, IsOk};
ghost use Rattle.triple_arena.specs.ArenaState.{arena_len, capacity};
ghost use Rattle.triple_arena.specs.Entries.{entry_count};
ghost use Rattle.triple_arena.specs.FreeList.{tidied};
ghost use Rattle.triple_arena.specs.SlotSteps.{IsTouched};

use triple_arena::prelude::*;
use triple_arena::{Arena, ArenaSlot, NonZeroInxGenericStack, ReallocationError};

/// Moves the entries of one table to another, whose own are dropped, and whose pointers may be of
/// another type: there they stand from index 1 on. Refused, both have the entries that they had, and
/// the free list of the one to which they were to go is tidied.
pub fn move_over<
    P: Ptr,
    S: NonZeroInxGenericStack<ArenaSlot<P, u64>>,
    Q: Ptr,
    A: CompactArenaTrait<Q, u64>,
>(from: &mut A, to: &mut Arena<P, u64, S>, generation: P::Gen) -> Result<(), ReallocationError>
    ensures moved { OnOk result (arena_len to.new ≡ entry_count (A.slots from.old)) }
    ensures emptied { OnOk result (entry_count (A.slots from.new) ≡ 0) }
    ensures whole { OnErr result (from.new ≡ from.old) }
    ensures refused { OnErr result (IsTouched (tidied to.old) to.new) }
    ensures fits { entry_count (A.slots from.old) ≤ capacity to.old → IsOk result }
{
    to.transfer_reallocating(generation, from, |_old, taken, _new| taken.allow())
}
