//! Names of cells and nets, in a map beside the circuit: they follow its compaction.

ghost use Rattle.std.specs.Prelude.{◌≡◌, IsSome, OnOk, OnErr};
ghost use Rattle.std.specs.Option.{option_map, unwrap_or};
ghost use Rattle.std.specs.Result.{IfErr};
ghost use Rattle.triple_arena_ptr.specs.Pointers.{Pointer};
ghost use Rattle.triple_arena.specs.Entries.{look_up};
ghost use Rattle.triple_arena_uses.specs.Entities.{p0_numbers};
ghost use Rattle.triple_arena_direct_uses.specs.Circuit.{q2_numbers, cell_at, net_at, cells_renamed, nets_renamed, moved, BothStay};
ghost use Rattle.triple_arena_direct_uses.specs.Names.{on_place, name_at, place_moved};

use super::{Cell, Circuit, Net};
use std::alloc::Global;
use std::collections::BTreeMap;
use triple_arena_direct::renaming_laws::image_found;
use triple_arena_direct::{CompactBothError, DirectArena};
use triple_arena_ptr::{P0, Q2};

/// What a name leads to.
#[derive(Clone, Copy, PartialEq, Eq, Debug, Drop)]
pub enum Place<C, N> {
    /// A cell.
    Cell(C),
    /// A net.
    Net(N),
}

/// Names of cells and nets.
pub type Names = BTreeMap<String, Place<P0, Q2>>;

impl Circuit {
    /// As [`Circuit::compact`], and each name leads to the cell or net to which it led. A name whose
    /// cell or net is gone stays as it is, and may find another one then.
    ///
    /// No name is asked before: what is refused is as of [`Circuit::compact`], and then no name changes.
    pub fn compact_with_names(
        &mut self,
        names: &mut Names,
        alloc: Global,
    ) -> Result<(), CompactBothError<P0, Q2>>
        ensures cells { OnOk result ((c : Pointer) → IsSome (look_up self.old.cells.slots c)
            → cell_at self.new (moved self.old.cells c)
            ≡ option_map (nets_renamed (moved self.old.nets)) (cell_at self.old c)) }
        ensures nets { OnOk result ((n : Pointer) → IsSome (look_up self.old.nets.slots n)
            → net_at self.new (moved self.old.nets n)
            ≡ option_map (cells_renamed (moved self.old.cells)) (net_at self.old n)) }
        ensures names { OnOk result ((name : _) → name_at names.new name
            ≡ option_map (place_moved self.old) (name_at names.old name)) }
        ensures refused { OnErr result (self.new ≡ self.old) }
        ensures names_refused { OnErr result (names.new ≡ names.old) }
        ensures refusal { IfErr result (BothStay self.old) }
    {
        let (cells, nets) = self.compact(alloc)?;
        // The maps are right also where a counter wraps.
        let (cells, nets) = (cells.allow(), nets.allow());
        // The maps have the new pointer of each cell and net that was there.
        image_found::<P0, Cell>();
        image_found::<Q2, Net>();
        names.retain(|_name, place| {
            *place = followed(*place, &cells, &nets);
            true
        });
        Ok(())
    }
}

// The place by its new pointer, if the map has one.
fn followed(
    place: Place<P0, Q2>,
    cells: &DirectArena<P0, P0>,
    nets: &DirectArena<Q2, Q2>,
) -> Place<P0, Q2>
    ensures { result ≡ on_place (λ c. unwrap_or (look_up cells.now.slots (p0_numbers c)) c)
        (λ n. unwrap_or (look_up nets.now.slots (q2_numbers n)) n) place }
{
    match place {
        Place::Cell(c) => Place::Cell(cells.get(c).copied().unwrap_or(c)),
        Place::Net(n) => Place::Net(nets.get(n).copied().unwrap_or(n)),
    }
}
