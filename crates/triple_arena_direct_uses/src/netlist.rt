//! A netlist: gates in an arena, each of which holds the pointers of the gates that its pins are
//! wired to.
//!
//! Its compaction is proved to keep the wires: they are the old ones, both ends of each renamed.

ghost use Rattle.std.specs.Prelude.{◌≡◌, ◌≢◌, ◌<◌, map, false, None, Some, IsOk, IfOk, OnErr, option_copied};
ghost use Rattle.std.specs.Result.{IfErr};
ghost use Rattle.triple_arena_base.specs.Held.{held_all};
ghost use Rattle.triple_arena_base.specs.Invalidation.{allowed_option};
ghost use Rattle.triple_arena.specs.Ending.{told};
ghost use Rattle.triple_arena_ptr.specs.Numbers.{wraps};
ghost use Rattle.triple_arena_ptr.specs.Pointers.{Pointer};
ghost use Rattle.triple_arena.specs.Entries.{look_up};
ghost use Rattle.triple_arena.specs.ArenaState.{arena_len, capacity, entry};
ghost use Rattle.triple_arena.specs.Compression.{wraps_after};
ghost use Rattle.triple_arena.specs.Walks.{values};
ghost use Rattle.triple_arena_direct.specs.Renaming.{MapsPointers, first_unresolved, Refuses};
ghost use Rattle.triple_arena_direct_uses.specs.Netlist.{wires, rewired};

use std::alloc::Global;
use std::marker::Model;
use triple_arena::Arena;
use triple_arena_base::{CompactError, InvalidationOption, ReallocationError, Recast};
use triple_arena_direct::{DirectArena, compress_recast};
use triple_arena_ptr::Ptr;

/// A netlist of gates of any type that holds pointers, each gate named by the pointer that its
/// insertion gave. A wire to a gate that was removed leads nowhere.
#[derive(Drop)]
pub struct Netlist<P: Ptr, G: Recast<P>> {
    gates: Arena<P, G>,
}

impl<P: Ptr, G: Recast<P>> Model for Netlist<P, G> {
    ghost use Rattle.triple_arena.specs.ArenaState.{ArenaState};

    ghost Value = { ArenaState G };

    ghost view = { λ netlist. netlist.gates };
}

impl<P: Ptr, G: Recast<P>> Netlist<P, G> {
    /// A netlist without gates.
    pub fn new(alloc: Global) -> Self
        ensures { (q : Pointer) → look_up result.slots q ≡ None }
    {
        Netlist {
            gates: Arena::on_heap(alloc),
        }
    }

    /// A new gate. No gate stood at its index. Refused as an insertion into an arena is; then nothing changes.
    pub fn add(&mut self, gate: G) -> Result<P, ReallocationError>
    where
        G: Drop,
        ensures found { IfOk result (λ p. look_up self.new.slots (P.numbers p) ≡ Some gate) }
        ensures free { IfOk result (λ p. entry self.old (P.numbers p).0 ≡ None) }
        ensures others { IfOk result (λ p. (q : Pointer) → q.0 ≢ (P.numbers p).0
            → look_up self.new.slots q ≡ look_up self.old.slots q) }
        ensures refused { OnErr result (self.new ≡ self.old) }
        ensures had_place { arena_len self.old < capacity self.old → IsOk result }
    {
        self.gates.insert(gate)
    }

    /// Takes a gate away, with the wires from it, even if the counter wraps.
    pub fn remove(&mut self, p: P) -> Option<G>
        ensures answer { result ≡ look_up self.old.slots (P.numbers p) }
        ensures gone { look_up self.new.slots (P.numbers p) ≡ None }
        ensures others { (q : Pointer) → q ≢ P.numbers p
            → look_up self.new.slots q ≡ look_up self.old.slots q }
    {
        self.gates.remove(p).allow()
    }

    /// The gate under a pointer.
    pub fn get(&self, p: P) -> Option<&G>
        ensures { option_copied result ≡ look_up self.now.slots (P.numbers p) }
    {
        self.gates.get(p)
    }

    /// Moves the gates to the indexes from 1 on, and renames every wire with them. The map tells the
    /// new pointer of each gate, and the answer tells whether the counter wrapped (`answer`).
    ///
    /// Refused with the first wire that leads nowhere, or where there is a gate and memory is refused
    /// (`Refuses`); then nothing changes.
    pub fn compact(
        &mut self,
        alloc: Global,
    ) -> Result<InvalidationOption<DirectArena<P, P>>, CompactError<P>>
        ensures answer { IfOk result (λ answer. answer
            ≡ told (wraps_after (wraps P.Gen.generations) false self.old) (allowed_option answer)) }
        ensures count { arena_len self.new ≡ arena_len self.old }
        ensures renamed { IfOk result (λ answer. (rename : Pointer → Pointer)
            × MapsPointers P.numbers rename self.old.slots (allowed_option answer).slots
            × (wires P.numbers G.held self.new.slots
            ≡ map (rewired rename) (wires P.numbers G.held self.old.slots))) }
        ensures refused { OnErr result (self.new ≡ self.old) }
        ensures refusal { IfErr result (Refuses (arena_len self.old)
            (first_unresolved P.numbers self.old.slots (held_all G.held (values self.old.slots)))) }
    {
        compress_recast(&mut self.gates, alloc, false)
    }
}
