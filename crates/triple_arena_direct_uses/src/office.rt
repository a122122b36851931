//! Workers and desks of an office, in two arenas whose pointers are of one form, that of `P0`.

ghost use Rattle.std.specs.Prelude.{◌++◌, IsSome, IfOk, OnOk, OnErr};
ghost use Rattle.std.specs.Result.{IfErr};
ghost use Rattle.triple_arena_base.specs.Held.{held_all};
ghost use Rattle.triple_arena_ptr.specs.Pointers.{Pointer};
ghost use Rattle.triple_arena.specs.ArenaState.{arena_len};
ghost use Rattle.triple_arena.specs.Entries.{look_up};
ghost use Rattle.triple_arena.specs.Walks.{values};
ghost use Rattle.triple_arena_direct.specs.Compacted.{TellsMap};
ghost use Rattle.triple_arena_direct.specs.Concrete.{p0_numbers, moved, moving_wraps};
ghost use Rattle.triple_arena_direct.specs.Renaming.{first_unresolved};
ghost use Rattle.triple_arena_direct.specs.RenamingBoth.{IsFoundRenamedBoth, RefusesBoth};
ghost use Rattle.triple_arena_direct_uses.specs.Office.{workers_of_worker, desks_of_worker, workers_of_desk, desks_of_desk};
ghost use Rattle.triple_arena_direct_uses.specs.Unchanged.{AreUnchanged};

use std::alloc::Global;
use triple_arena::Arena;
use triple_arena_base::{InvalidationOption, Recast, Recaster};
use triple_arena_direct::{CompactBothError, DirectArena, PtrKind, compress_recast_both};
use triple_arena_ptr::P0;

/// The pointer of a worker.
pub type WorkerPtr = PtrKind<P0, 1>;

/// The pointer of a desk.
pub type DeskPtr = PtrKind<P0, 2>;

/// A worker: who leads it, if someone does, and where it sits.
#[derive(Clone, Copy, PartialEq, Eq, Debug)]
pub struct Worker {
    pub badge: u32,
    pub leader: Option<WorkerPtr>,
    pub desk: Option<DeskPtr>,
}

/// A desk: its room, and whose it is.
#[derive(Clone, Copy, PartialEq, Eq, Debug)]
pub struct Desk {
    pub room: u32,
    pub owner: Option<WorkerPtr>,
}

/// Holds its leader.
impl Recast<WorkerPtr> for Worker {
    ghost held = { workers_of_worker.held };

    ghost refill = { workers_of_worker.refill };

    fn recast<R: Recaster<Item = WorkerPtr>>(&mut self, recaster: &R) -> Result<(), WorkerPtr> {
        self.leader.recast(recaster)
    }

    ghost held_refill = { workers_of_worker.held_refill };

    ghost refill_held = { workers_of_worker.refill_held };

    ghost refill_refill = { workers_of_worker.refill_refill };
}

/// Holds its desk.
impl Recast<DeskPtr> for Worker {
    ghost held = { desks_of_worker.held };

    ghost refill = { desks_of_worker.refill };

    fn recast<R: Recaster<Item = DeskPtr>>(&mut self, recaster: &R) -> Result<(), DeskPtr> {
        self.desk.recast(recaster)
    }

    ghost held_refill = { desks_of_worker.held_refill };

    ghost refill_held = { desks_of_worker.refill_held };

    ghost refill_refill = { desks_of_worker.refill_refill };
}

/// Holds its owner.
impl Recast<WorkerPtr> for Desk {
    ghost held = { workers_of_desk.held };

    ghost refill = { workers_of_desk.refill };

    fn recast<R: Recaster<Item = WorkerPtr>>(&mut self, recaster: &R) -> Result<(), WorkerPtr> {
        self.owner.recast(recaster)
    }

    ghost held_refill = { workers_of_desk.held_refill };

    ghost refill_held = { workers_of_desk.refill_held };

    ghost refill_refill = { workers_of_desk.refill_refill };
}

/// Holds no desk.
impl Recast<DeskPtr> for Desk {
    ghost held = { desks_of_desk.held };

    ghost refill = { desks_of_desk.refill };

    fn recast<R: Recaster<Item = DeskPtr>>(&mut self, _recaster: &R) -> Result<(), DeskPtr> {
        Ok(())
    }

    ghost held_refill = { desks_of_desk.held_refill };

    ghost refill_held = { desks_of_desk.refill_held };

    ghost refill_refill = { desks_of_desk.refill_refill };
}

/// Moves the workers and the desks to the indexes from 1 on, and renames each pointer that they hold. The
/// maps tell the new pointers.
///
/// Where memory is refused, and else exactly where a pointer finds nothing, nothing changes.
pub fn compact_office(
    workers: &mut Arena<WorkerPtr, Worker>,
    desks: &mut Arena<DeskPtr, Desk>,
    alloc: Global,
) -> Result<
    (
        InvalidationOption<DirectArena<WorkerPtr, WorkerPtr>>,
        InvalidationOption<DirectArena<DeskPtr, DeskPtr>>,
    ),
    CompactBothError<WorkerPtr, DeskPtr>,
>
    // Done: the maps lead from the old pointers to the new ones, and under the new one stands what
    // stood under the old one, renamed.
    ensures worker_map { IfOk result (λ maps. TellsMap p0_numbers (moved workers.old)
        workers.old.slots (moving_wraps workers.old) maps.0) }
    ensures desk_map { IfOk result (λ maps. TellsMap p0_numbers (moved desks.old)
        desks.old.slots (moving_wraps desks.old) maps.1) }
    ensures workers { OnOk result ((w : Pointer) → IsSome (look_up workers.old.slots w)
        → IsFoundRenamedBoth
        p0_numbers (moved workers.old) workers_of_worker.held workers_of_worker.refill
        p0_numbers (moved desks.old) desks_of_worker.held desks_of_worker.refill
        (look_up workers.old.slots w) (look_up workers.new.slots (moved workers.old w))) }
    ensures desks { OnOk result ((d : Pointer) → IsSome (look_up desks.old.slots d)
        → IsFoundRenamedBoth
        p0_numbers (moved desks.old) desks_of_desk.held desks_of_desk.refill
        p0_numbers (moved workers.old) workers_of_desk.held workers_of_desk.refill
        (look_up desks.old.slots d) (look_up desks.new.slots (moved desks.old d))) }

    // Refused: nothing has changed, and the error tells why.
    ensures refused { OnErr result (AreUnchanged workers.old workers.new desks.old desks.new) }
    ensures refusal { IfErr result (RefusesBoth
        (arena_len workers.old) (first_unresolved p0_numbers workers.old.slots
        (held_all workers_of_worker.held (values workers.old.slots)
        ++ held_all workers_of_desk.held (values desks.old.slots)))
        (arena_len desks.old) (first_unresolved p0_numbers desks.old.slots
        (held_all desks_of_desk.held (values desks.old.slots)
        ++ held_all desks_of_worker.held (values workers.old.slots)))) }

    // In each case entries are as many as before.
    ensures counts { AreUnchanged (arena_len workers.old) (arena_len workers.new)
        (arena_len desks.old) (arena_len desks.new) }
{
    compress_recast_both(workers, desks, alloc, false)
}
