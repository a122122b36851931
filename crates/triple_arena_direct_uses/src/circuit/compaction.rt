//! Compaction of the cells and the nets, of both in one call or of one of them: each tie between
//! the two is kept, or nothing changes.

ghost use Rattle.std.specs.Prelude.{◌≡◌, IsSome, IfOk, OnOk, OnErr};
ghost use Rattle.std.specs.Option.{option_map};
ghost use Rattle.std.specs.Result.{IfErr};
ghost use Rattle.triple_arena_ptr.specs.Pointers.{Pointer};
ghost use Rattle.triple_arena.specs.ArenaState.{arena_len};
ghost use Rattle.triple_arena.specs.Entries.{look_up};
ghost use Rattle.triple_arena_direct.specs.Compacted.{TellsMap};
ghost use Rattle.triple_arena_uses.specs.Entities.{p0_numbers};
ghost use Rattle.triple_arena_direct_uses.specs.Circuit.{q2_numbers, cell_at, net_at, cells_renamed, nets_renamed, moved, moving_wraps, CellsAreThere, NetsAreThere, EndsAreThere, CellsStay, NetsStay, BothStay};
ghost use Rattle.triple_arena_direct_uses.specs.Unchanged.{AreUnchanged};

use super::{Cell, Circuit, Net};
use std::alloc::Global;
use triple_arena_base::{CompactError, InvalidationOption};
use triple_arena_direct::renaming_laws::{
    readings_follow, readings_follow_both, relations_resolve, relations_resolve_both,
};
use triple_arena_direct::{
    CompactBothError, DirectArena, compress_recast_both, compress_recast_with,
};
use triple_arena_ptr::{P0, Q2};

impl Circuit {
    /// Moves the cells and the nets to the indexes from 1 on, and renames each end of a net on both
    /// sides. The maps tell the new pointers, of the cells and of the nets.
    ///
    /// Refused exactly where a net leads to a cell that isn't there, or a cell reads a net that isn't,
    /// with such a pointer, one to a cell before one to a net; or where memory is refused
    /// (`BothStay`). Then nothing changes, of the cells or of the nets.
    pub fn compact(
        &mut self,
        alloc: Global,
    ) -> Result<
        (
            InvalidationOption<DirectArena<P0, P0>>,
            InvalidationOption<DirectArena<Q2, Q2>>,
        ),
        CompactBothError<P0, Q2>,
    >
        // Done: the maps lead from the old pointers to the new ones, and under the new one is read what
        // was read under the old one, renamed. Each end was there.
        ensures cell_map { IfOk result (λ maps. TellsMap p0_numbers (moved self.old.cells)
            self.old.cells.slots (moving_wraps self.old.cells) maps.0) }
        ensures net_map { IfOk result (λ maps. TellsMap q2_numbers (moved self.old.nets)
            self.old.nets.slots (moving_wraps self.old.nets) maps.1) }
        ensures cells { OnOk result ((c : Pointer) → IsSome (look_up self.old.cells.slots c)
            → cell_at self.new (moved self.old.cells c)
            ≡ option_map (nets_renamed (moved self.old.nets)) (cell_at self.old c)) }
        ensures nets { OnOk result ((n : Pointer) → IsSome (look_up self.old.nets.slots n)
            → net_at self.new (moved self.old.nets n)
            ≡ option_map (cells_renamed (moved self.old.cells)) (net_at self.old n)) }
        ensures there { OnOk result (EndsAreThere self.old) }

        // Refused: nothing has changed, and the error tells why.
        ensures refused { OnErr result (self.new ≡ self.old) }
        ensures refusal { IfErr result (BothStay self.old) }

        // In each case cells and nets are as many as before.
        ensures counts { AreUnchanged (arena_len self.old.cells) (arena_len self.new.cells)
            (arena_len self.old.nets) (arena_len self.new.nets) }
    {
        // What is read follows, and look-ups tell what each refusal means.
        readings_follow_both::<P0, Q2, Cell>();
        readings_follow_both::<Q2, P0, Net>();
        relations_resolve::<P0, Cell, Net>();
        relations_resolve::<Q2, Net, Cell>();
        relations_resolve_both::<P0, Q2, Cell, Net>();
        compress_recast_both(&mut self.cells, &mut self.nets, alloc, false)
    }

    /// Moves the cells to the indexes from 1 on, and renames them in every net. The map tells the
    /// new pointer of each cell.
    ///
    /// Refused exactly where a net leads to a cell that isn't there, with such a pointer, or
    /// where there is a cell and memory is refused (`CellsStay`); then nothing changes.
    pub fn compact_cells(
        &mut self,
        alloc: Global,
    ) -> Result<InvalidationOption<DirectArena<P0, P0>>, CompactError<P0>>
        // Done: the map leads from the old pointers to the new ones, the cells are as they were, and the
        // nets lead to them. Each cell to which a net leads was there.
        ensures map { IfOk result (TellsMap p0_numbers (moved self.old.cells)
            self.old.cells.slots (moving_wraps self.old.cells)) }
        ensures cells { OnOk result ((c : Pointer) → IsSome (look_up self.old.cells.slots c)
            → look_up self.new.cells.slots (moved self.old.cells c)
            ≡ look_up self.old.cells.slots c) }
        ensures nets { OnOk result ((n : Pointer) → net_at self.new n
            ≡ option_map (cells_renamed (moved self.old.cells)) (net_at self.old n)) }
        ensures there { OnOk result (CellsAreThere self.old) }

        // Refused: nothing has changed, and the error tells why.
        ensures refused { OnErr result (self.new ≡ self.old) }
        ensures refusal { IfErr result (CellsStay self.old) }

        // In each case the cells are as many as before.
        ensures count { arena_len self.new.cells ≡ arena_len self.old.cells }
    {
        // What is read of each net follows, and look-ups tell what each refusal means.
        readings_follow::<P0, Net>();
        relations_resolve::<P0, Cell, Net>();
        compress_recast_with(&mut self.cells, &mut self.nets, alloc, false)
    }

    /// Moves the nets to the indexes from 1 on, and renames them in every cell. The map tells the
    /// new pointer of each net.
    ///
    /// Refused exactly where a cell reads a net that isn't there, with such a pointer, or
    /// where there is a net and memory is refused (`NetsStay`); then nothing changes.
    pub fn compact_nets(
        &mut self,
        alloc: Global,
    ) -> Result<InvalidationOption<DirectArena<Q2, Q2>>, CompactError<Q2>>
        // Done: the map leads from the old pointers to the new ones, the nets are as they were, and the
        // cells read them. Each net that a cell reads was there.
        ensures map { IfOk result (TellsMap q2_numbers (moved self.old.nets)
            self.old.nets.slots (moving_wraps self.old.nets)) }
        ensures nets { OnOk result ((n : Pointer) → IsSome (look_up self.old.nets.slots n)
            → look_up self.new.nets.slots (moved self.old.nets n)
            ≡ look_up self.old.nets.slots n) }
        ensures cells { OnOk result ((c : Pointer) → cell_at self.new c
            ≡ option_map (nets_renamed (moved self.old.nets)) (cell_at self.old c)) }
        ensures there { OnOk result (NetsAreThere self.old) }

        // Refused: nothing has changed, and the error tells why.
        ensures refused { OnErr result (self.new ≡ self.old) }
        ensures refusal { IfErr result (NetsStay self.old) }

        // In each case the nets are as many as before.
        ensures count { arena_len self.new.nets ≡ arena_len self.old.nets }
    {
        // What is read of each cell follows, and look-ups tell what each refusal means.
        readings_follow::<Q2, Cell>();
        relations_resolve::<Q2, Net, Cell>();
        compress_recast_with(&mut self.nets, &mut self.cells, alloc, false)
    }
}
