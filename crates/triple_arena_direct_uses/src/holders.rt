//! Holders that are no arenas, beside an arena of links: they follow its compaction, or nothing
//! changes.

ghost use Rattle.std.specs.Prelude.{◌≡◌, ◌++◌, None, IsSome, IfOk, OnOk, OnErr};
ghost use Rattle.std.specs.Result.{IfErr};
ghost use Rattle.std.proofs.Common.{ap};
ghost use Rattle.triple_arena_base.specs.Held.{held_all};
ghost use Rattle.triple_arena_base.specs.HeldVecs.{held_vec, refill_vec, vec_held_refill, vec_refill_held, vec_refill_refill};
ghost use Rattle.triple_arena_base.specs.HeldPairs.{held_both, refill_both, both_held_refill, both_refill_held, both_refill_refill};
ghost use Rattle.triple_arena_base.specs.Invalidation.{allowed_option};
ghost use Rattle.triple_arena_ptr.specs.Pointers.{Pointer};
ghost use Rattle.triple_arena.specs.ArenaState.{arena_len};
ghost use Rattle.triple_arena.specs.Entries.{look_up};
ghost use Rattle.triple_arena.specs.Walks.{values};
ghost use Rattle.triple_arena_direct.specs.Compacted.{TellsMap, ResolveBoth};
ghost use Rattle.triple_arena_direct.specs.Renaming.{first_unresolved, Refuses, IsRenamed, IsFoundRenamed};
ghost use Rattle.triple_arena_uses.specs.Entities.{p0_numbers};
ghost use Rattle.triple_arena_direct_uses.specs.Circuit.{moved, moving_wraps};
ghost use Rattle.triple_arena_direct_uses.specs.Holders.{named_held, named_refill, named_held_refill, named_refill_held, named_refill_refill};
ghost use Rattle.triple_arena_direct_uses.specs.Unchanged.{AreUnchanged, AllUnchanged};

use std::alloc::Global;
use triple_arena::Arena;
use triple_arena_base::{CompactError, InvalidationOption, Recast, Recaster, recast_both};
use triple_arena_direct::renaming_laws::holders_follow;
use triple_arena_direct::{DirectArena, compress_recast, compress_recast_with, unresolved};
use triple_arena_ptr::P0;
use triple_arena_uses::links::Link;
use triple_arena_uses::ports::Port;

/// A name, and the link that it names.
#[derive(Drop)]
pub struct Named {
    pub name: String,
    pub link: P0,
}

/// A table of names.
#[derive(Drop)]
pub struct Names {
    pub rows: Vec<Named>,
}

/// Holders that are kept together. Where a struct is generic in its parts, their laws are at hand
/// in its own.
#[derive(Drop)]
pub struct Border<A, B> {
    pub ports: A,
    pub names: B,
}

/// What leads into an arena of links.
pub type LinkBorder = Border<Vec<Port<P0>>, Names>;

/// Holds the link that it names.
impl Recast<P0> for Named {
    ghost held = { named_held };

    ghost refill = { named_refill };

    fn recast<R: Recaster<Item = P0>>(&mut self, recaster: &R) -> Result<(), P0> {
        self.link.recast(recaster)
    }

    ghost held_refill = { named_held_refill };

    ghost refill_held = { named_refill_held };

    ghost refill_refill = { named_refill_refill };
}

/// Holds what its rows hold, in their order.
impl Recast<P0> for Names {
    ghost held = { λ names. held_vec named_held named_refill names.rows };

    ghost refill = { λ names l. record names {
      rows = refill_vec named_held named_refill names.rows l;
    } };

    fn recast<R: Recaster<Item = P0>>(&mut self, recaster: &R) -> Result<(), P0> {
        self.rows.recast(recaster)
    }

    ghost held_refill = { λ names. vec_held_refill named_held named_refill
        named_held_refill names.rows };

    ghost refill_held = { λ names. ap (λ rows. record names { rows = rows })
        (vec_refill_held named_held named_refill named_refill_held names.rows) };

    ghost refill_refill = { λ names l m h k. ap (λ rows. record names { rows = rows })
        (vec_refill_refill named_held named_refill named_held_refill named_refill_refill
        names.rows l m h k) };
}

/// Holds what its ports hold, and then what its names hold.
impl<I, A: Recast<I>, B: Recast<I>> Recast<I> for Border<A, B> {
    ghost held = { λ border. held_both A.held A.refill B.held B.refill
        (border.ports, border.names) };

    ghost refill = { λ border l. let parts = refill_both A.held A.refill B.held B.refill
        (border.ports, border.names) l in
        record border { ports = parts.0; names = parts.1 } };

    fn recast<R: Recaster<Item = I>>(&mut self, recaster: &R) -> Result<(), I> {
        recast_both(&mut self.ports, &mut self.names, recaster)
    }

    ghost held_refill = { λ border. both_held_refill A.held A.refill B.held B.refill
        A.held_refill B.held_refill (border.ports, border.names) };

    ghost refill_held = { λ border. ap (λ parts. record border { ports = parts.0; names = parts.1 })
        (both_refill_held A.held A.refill B.held B.refill A.refill_held B.refill_held
        (border.ports, border.names)) };

    ghost refill_refill = { λ border l m h k. ap (λ parts.
        record border { ports = parts.0; names = parts.1 })
        (both_refill_refill A.held A.refill B.held B.refill
        A.held_refill A.refill_refill B.refill_refill
        (border.ports, border.names) l m h k) };
}

/// Moves the links to the indexes from 1 on, and renames each pointer that they or the border hold.
/// The map tells the new pointer of each link.
///
/// Where there is a link and memory is refused, and else exactly where a pointer finds no link, with
/// the first one, of the links and then of the border, nothing changes (`Refuses`).
pub fn compact_with_border(
    links: &mut Arena<P0, Link>,
    border: &mut LinkBorder,
    alloc: Global,
) -> Result<InvalidationOption<DirectArena<P0, P0>>, CompactError<P0>>
    // Done: the map leads from the old pointers to the new ones, under which stands what stood under the
    // old ones, renamed, as in the border. Each pointer found a link.
    ensures map { IfOk result (TellsMap p0_numbers (moved links.old) links.old.slots
        (moving_wraps links.old)) }
    ensures links { OnOk result ((p : Pointer) → IsSome (look_up links.old.slots p)
        → IsFoundRenamed p0_numbers (moved links.old)
        ⟦<Link as Recast<P0>>⟧.held ⟦<Link as Recast<P0>>⟧.refill
        (look_up links.old.slots p) (look_up links.new.slots (moved links.old p))) }
    ensures border { OnOk result (IsRenamed p0_numbers (moved links.old)
        ⟦<Border<Vec<Port<P0>>, Names> as Recast<P0>>⟧.held
        ⟦<Border<Vec<Port<P0>>, Names> as Recast<P0>>⟧.refill border.old border.new) }
    ensures resolved { OnOk result (first_unresolved p0_numbers links.old.slots
        (held_all ⟦<Link as Recast<P0>>⟧.held (values links.old.slots)
        ++ ⟦<Border<Vec<Port<P0>>, Names> as Recast<P0>>⟧.held border.old) ≡ None) }

    // Refused: nothing has changed, and the error tells why.
    ensures refused { OnErr result (AreUnchanged links.old links.new border.old border.new) }
    ensures refusal { IfErr result (Refuses (arena_len links.old)
        (first_unresolved p0_numbers links.old.slots
        (held_all ⟦<Link as Recast<P0>>⟧.held (values links.old.slots)
        ++ ⟦<Border<Vec<Port<P0>>, Names> as Recast<P0>>⟧.held border.old))) }

    // In each case links are as many as before.
    ensures count { arena_len links.new ≡ arena_len links.old }
{
    compress_recast_with(links, border, alloc, false)
}

/// As [`compact_with_border`], of two holders that are in no struct together: each is asked first, and
/// then follows by the map. So their pointers that find no entry come before those of the arena.
pub fn compact_with_two<T: Recast<P0>, H: Recast<P0>, K: Recast<P0>>(
    arena: &mut Arena<P0, T>,
    first: &mut H,
    second: &mut K,
    alloc: Global,
) -> Result<InvalidationOption<DirectArena<P0, P0>>, CompactError<P0>>
    // Done: the map leads from the old pointers to the new ones, under which stands what stood under the
    // old ones, renamed, as in both holders. Each pointer of these found an entry.
    ensures map { IfOk result (TellsMap p0_numbers (moved arena.old) arena.old.slots
        (moving_wraps arena.old)) }
    ensures found { OnOk result ((p : Pointer) → IsSome (look_up arena.old.slots p)
        → IsFoundRenamed p0_numbers (moved arena.old) T.held T.refill
        (look_up arena.old.slots p) (look_up arena.new.slots (moved arena.old p))) }
    ensures first { OnOk result (IsRenamed p0_numbers (moved arena.old)
        H.held H.refill first.old first.new) }
    ensures second { OnOk result (IsRenamed p0_numbers (moved arena.old)
        K.held K.refill second.old second.new) }
    ensures resolved { OnOk result (ResolveBoth
        (first_unresolved p0_numbers arena.old.slots (H.held first.old))
        (first_unresolved p0_numbers arena.old.slots (K.held second.old))) }

    // Refused: nothing has changed, and the error tells why.
    ensures refused { OnErr result
        (AllUnchanged arena.old arena.new first.old first.new second.old second.new) }
    ensures refusal { IfErr result (Refuses (arena_len arena.old)
        (first_unresolved p0_numbers arena.old.slots (H.held first.old
        ++ (K.held second.old ++ held_all T.held (values arena.old.slots))))) }

    // In each case entries are as many as before.
    ensures count { arena_len arena.new ≡ arena_len arena.old }
{
    if let Some(p) = unresolved(arena, first) {
        return Err(CompactError::Unresolved(p));
    }
    if let Some(p) = unresolved(arena, second) {
        return Err(CompactError::Unresolved(p));
    }
    let answer = compress_recast(arena, alloc, false)?;
    // Neither recast is refused, and both rename.
    holders_follow::<P0, T, H>();
    holders_follow::<P0, T, K>();
    let map = value_of(&answer);
    let _first = first.recast(map);
    let _second = second.recast(map);
    Ok(answer)
}

// The value of either variant.
fn value_of<T>(answer: &InvalidationOption<T>) -> &T
    ensures { result.now ≡ allowed_option answer.now }
{
    match answer {
        InvalidationOption::Success(value) => value,
        InvalidationOption::GenerationOverflow(value) => value,
    }
}
