//! Tables that are kept as they are.

ghost use Rattle.std.specs.Prelude.{◌≡◌, ◌≤◌, OnOk, IsOk};
ghost use Rattle.triple_arena.specs.Entries.{KeepsEntries};
ghost use Rattle.triple_arena.specs.FreeList.{last_index};

use triple_arena::{ArenaCloneFromWith, CompactArenaTrait, laws};
use triple_arena_base::{AllocError, CloneFromError};
use triple_arena_ptr::Ptr;

/// Keeps a table as it is: each pointer then finds in `kept` what it finds in `table`, and calling
/// it the other way round comes back to what was kept. Where the capacity of `kept` reaches the
/// last index of `table`, as it does from the second time on as long as that doesn't rise, it takes
/// no memory and isn't refused.
pub fn keep<P: Ptr, A: CompactArenaTrait<P, u64>, B: ArenaCloneFromWith<P, u64>>(
    table: &A,
    kept: &mut B,
) -> Result<(), CloneFromError<AllocError>>
    ensures same { OnOk result (KeepsEntries (A.slots table.now) (B.slots kept.new)) }
    ensures fits { last_index (A.slots table.now) ≤ B.capacity kept.old → IsOk result }
{
    kept.clone_from(table)
}

/// Keeps a table as it is, and comes back to it: the entries of the table stay, under their pointers,
/// also in `kept`, and so does its capacity. `clones_keep_capacity` says the latter of any turns of clones; what it
/// asks of each, the clauses of the calls tell. Refused as `clone_from` is.
pub fn keep_and_come_back<
    P: Ptr,
    A: CompactArenaTrait<P, u64> + ArenaCloneFromWith<P, u64>,
    B: CompactArenaTrait<P, u64> + ArenaCloneFromWith<P, u64>,
>(table: &mut A, kept: &mut B) -> Result<(), CloneFromError<AllocError>>
    ensures same_entries { OnOk result (KeepsEntries (A.slots table.old) (A.slots table.new)) }
    ensures kept { OnOk result (KeepsEntries (A.slots table.old) (B.slots kept.new)) }
    ensures same_capacity { OnOk result (A.capacity table.new ≡ A.capacity table.old) }
{
    laws::clones_keep_capacity::<P, u64, u64, A, B>();
    kept.clone_from(&*table)?;
    table.clone_from(&*kept)
}
