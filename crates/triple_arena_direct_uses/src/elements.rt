//! A struct that holds pointers in three fields, and an enum that holds it in one of its variants: how each
//! holds them is one term, of which the impls name the members.

ghost use Rattle.std.specs.Prelude.{◌≡◌, ◌++◌, IsSome, IfOk, OnOk, OnErr};
ghost use Rattle.std.specs.Result.{IfErr};
ghost use Rattle.triple_arena_base.specs.Held.{held_all};
ghost use Rattle.triple_arena_ptr.specs.Pointers.{Pointer};
ghost use Rattle.triple_arena.specs.ArenaState.{arena_len};
ghost use Rattle.triple_arena.specs.Entries.{look_up};
ghost use Rattle.triple_arena.specs.Walks.{values};
ghost use Rattle.triple_arena_direct.specs.Compacted.{TellsMap};
ghost use Rattle.triple_arena_direct.specs.Concrete.{p0_numbers, moved, moving_wraps};
ghost use Rattle.triple_arena_direct.specs.Holding.{vector};
ghost use Rattle.triple_arena_direct.specs.Renaming.{first_unresolved, Refuses, IsRenamed, IsFoundRenamed};
ghost use Rattle.triple_arena_direct_uses.specs.Elements.{flop_pins, element_pins};
ghost use Rattle.triple_arena_direct_uses.specs.Unchanged.{AreUnchanged};

use std::alloc::Global;
use triple_arena::Arena;
use triple_arena_base::{CompactError, InvalidationOption, Recast, Recaster};
use triple_arena_direct::{DirectArena, compress_recast_with, recast_three};
use triple_arena_ptr::P0;
use triple_arena_uses::links::Link;

/// A flip-flop: the pins of its inputs, of its clock, and of its reset, if it has one; and what it begins
/// with.
#[derive(Drop)]
pub struct Flop {
    pub inputs: Vec<P0>,
    pub clock: P0,
    pub reset: Option<P0>,
    pub begins: bool,
}

/// An element of a circuit: a flip-flop, a wire from a pin, under a load, or none.
#[derive(Drop)]
pub enum Element {
    /// A flip-flop.
    Clocked(Flop),
    /// A wire from this pin.
    Wire { from: P0, load: u32 },
    /// Not in use.
    Open,
}

/// Holds the pins of its inputs, then that of its clock, and then that of its reset.
impl Recast<P0> for Flop {
    ghost held = { flop_pins.held };

    ghost refill = { flop_pins.refill };

    fn recast<R: Recaster<Item = P0>>(&mut self, recaster: &R) -> Result<(), P0> {
        recast_three(&mut self.inputs, &mut self.clock, &mut self.reset, recaster)
    }

    ghost held_refill = { flop_pins.held_refill };

    ghost refill_held = { flop_pins.refill_held };

    ghost refill_refill = { flop_pins.refill_refill };
}

/// Holds the pins of its flip-flop, or the pin of its wire.
impl Recast<P0> for Element {
    ghost held = { element_pins.held };

    ghost refill = { element_pins.refill };

    fn recast<R: Recaster<Item = P0>>(&mut self, recaster: &R) -> Result<(), P0> {
        match self {
            Element::Clocked(flop) => flop.recast(recaster),
            Element::Wire { from, .. } => from.recast(recaster),
            Element::Open => Ok(()),
        }
    }

    ghost held_refill = { element_pins.held_refill };

    ghost refill_held = { element_pins.refill_held };

    ghost refill_refill = { element_pins.refill_refill };
}

/// Moves the links to the indexes from 1 on, and renames each pointer that they or the elements hold.
/// The map tells the new pointer of each link.
///
/// Where there is a link and memory is refused, and else exactly where a pointer finds no link, with
/// the first one, of the links and then of the elements, nothing changes (`Refuses`).
pub fn compact_with_elements(
    links: &mut Arena<P0, Link>,
    elements: &mut Vec<Element>,
    alloc: Global,
) -> Result<InvalidationOption<DirectArena<P0, P0>>, CompactError<P0>>
    // Done: the map leads from the old pointers to the new ones, under which stands what stood under the
    // old ones, renamed, as in the elements.
    ensures map { IfOk result (TellsMap p0_numbers (moved links.old) links.old.slots
        (moving_wraps links.old)) }
    ensures links { OnOk result ((p : Pointer) → IsSome (look_up links.old.slots p)
        → IsFoundRenamed p0_numbers (moved links.old)
        ⟦<Link as Recast<P0>>⟧.held ⟦<Link as Recast<P0>>⟧.refill
        (look_up links.old.slots p) (look_up links.new.slots (moved links.old p))) }
    ensures elements { OnOk result (IsRenamed p0_numbers (moved links.old)
        (vector element_pins).held (vector element_pins).refill elements.old elements.new) }

    // Refused: nothing has changed, and the error tells why.
    ensures refused { OnErr result
        (AreUnchanged links.old links.new elements.old elements.new) }
    ensures refusal { IfErr result (Refuses (arena_len links.old)
        (first_unresolved p0_numbers links.old.slots
        (held_all ⟦<Link as Recast<P0>>⟧.held (values links.old.slots)
        ++ (vector element_pins).held elements.old))) }

    // In each case links are as many as before.
    ensures count { arena_len links.new ≡ arena_len links.old }
{
    compress_recast_with(links, elements, alloc, false)
}
