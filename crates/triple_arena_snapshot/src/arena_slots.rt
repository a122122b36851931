//! The slots of an arena as bytes, and their free list.

ghost use Rattle.std.specs.Prelude.{◌≡◌, ◌++◌, ℕ, Option, map, OnOk, option_copied, ◌∷◌, IfErr};
ghost use Rattle.std.specs.Int.NonZero.{non_zero_usize_get};
ghost use Rattle.std.specs.List.{flat_map, AllByRecursion};
ghost use Rattle.std.specs.Option.{option_map};
ghost use Rattle.triple_arena_traits.specs.Items.{item};
ghost use Rattle.triple_arena_traits.specs.ArenaState.{map_entry};
ghost use Rattle.triple_arena_slots.specs.Slot.{entry_of};
ghost use Rattle.triple_arena_slots.specs.Layout.{after, chain};
ghost use Rattle.triple_arena_snapshot.specs.Coding.{Gives, MayFail};
ghost use Rattle.triple_arena_snapshot.specs.Layouts.{option, both};
ghost use Rattle.triple_arena_snapshot.specs.ArenaLayouts.{index};

use crate::codec::Codec;
use crate::entries::{decode_entry, encode_entry};
use crate::fault::DecodeError;
use crate::generations::GenerationCodec;
use crate::shapes::shape_over;
use std::alloc::Global;
use std::num::NonZeroUsize;
use triple_arena_base::AllocError;
use triple_arena_ptr::Ptr;
use triple_arena_slots::ArenaSlot;
use triple_arena_traits::EntrySlot;

/// A byte 0; or a byte 1, the generation and the value. What a free slot links to isn't written.
impl<P: Ptr, T: Codec> Codec for ArenaSlot<P, T>
where
    P::Gen: GenerationCodec,
{
    ghost Content = { Option (ℕ × T.Content) };

    ghost content = { λ slot. option_map (map_entry T.content) (entry_of P.Gen.number slot) };

    ghost coding = { option (both P.Gen.numbered T.coding) };

    ghost shape = { 36 ∷ T.shape };

    ghost asks = { T.asks };

    fn shape_at(at: usize) -> Result<u8, usize> {
        shape_over::<T>(36, at)
    }

    // The trait's clauses are written out, since inheriting them makes each call dearer to prove.
    fn encode(&self, out: &mut Vec<u8>) -> Result<(), AllocError>
        ensures written { OnOk result (out.new.items ≡ out.old.items
            ++ (option (both P.Gen.numbered T.coding)).encoding
            (option_map (map_entry T.content) (entry_of P.Gen.number self.now))) }
        ensures fits { OnOk result ((option (both P.Gen.numbered T.coding)).fits
            (option_map (map_entry T.content) (entry_of P.Gen.number self.now))) }
    {
        encode_entry(self.entry(), out)
    }

    fn decode(alloc: Global, bytes: &[u8]) -> Result<(Self, &[u8]), DecodeError>
        ensures read { Gives
            (λ x. (option_map (map_entry T.content) (entry_of P.Gen.number x.0), x.1.now)) result
            ((option (both P.Gen.numbered T.coding)).decoding bytes.now) }
        ensures memory { IfErr result (λ e. MayFail T.asks e) }
    {
        let (entry, rest) = decode_entry::<P::Gen, T>(alloc, bytes)?;
        let slot = match entry {
            None => ArenaSlot::vacant(),
            Some((generation, value)) => ArenaSlot::Allocated(generation, value),
        };
        Ok((slot, rest))
    }
}

// Writes the indexes to which the links lead, from this one on, at most so many.
pub(crate) fn encode_links<P: Ptr, T>(
    slots: &[ArenaSlot<P, T>],
    first: Option<NonZeroUsize>,
    count: usize,
    out: &mut Vec<u8>,
) -> Result<(), AllocError>
    ensures written { OnOk result (out.new.items ≡ out.old.items
        ++ flat_map index.encoding (chain slots.now count (option_map non_zero_usize_get first))) }
    ensures fits { OnOk result (AllByRecursion index.fits
        (chain slots.now count (option_map non_zero_usize_get first))) }
{
    let mut next = first;
    for _ in 0..count {
        match next {
            None => return Ok(()),
            Some(inx) => {
                inx.encode(out)?;
                next = after(slots, inx);
            }
        }
    }
    Ok(())
}

// The index to which the slot at this one links, if it is free and links to one.
fn after<P: Ptr, T>(slots: &[ArenaSlot<P, T>], inx: NonZeroUsize) -> Option<NonZeroUsize>
    ensures { option_map non_zero_usize_get result ≡ after slots.now (non_zero_usize_get inx) }
{
    match item(slots, inx) {
        Some(ArenaSlot::Free(link)) => link.after(inx),
        Some(ArenaSlot::Allocated(_, _)) => None,
        None => None,
    }
}

// The item of a number, if there is one.
fn item<X>(items: &[X], number: NonZeroUsize) -> Option<&X>
    ensures { option_copied result ≡ item items.now (non_zero_usize_get number) }
{
    items.get(number.get() - 1)
}
