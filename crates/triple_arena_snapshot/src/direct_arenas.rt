//! Direct arenas as bytes.

ghost use Rattle.std.specs.Prelude.{◌≡◌, ◌++◌, ℕ, List, Option, None, [], map, OnOk, IfOk, ◌∷◌, true, IfErr};
ghost use Rattle.std.specs.Option.{option_map};
ghost use Rattle.triple_arena_traits.specs.ArenaState.{map_entry};
ghost use Rattle.triple_arena_direct_arena.specs.DirectSlot.{direct_slot_entry};
ghost use Rattle.triple_arena_snapshot.specs.Coding.{Gives, MayFail};
ghost use Rattle.triple_arena_snapshot.specs.Layouts.{option, both};
ghost use Rattle.triple_arena_snapshot.specs.ArenaLayouts.{direct_arena_coding};
ghost use Rattle.triple_arena_snapshot.specs.Shapes.{direct_arena_shape};

use crate::codec::Codec;
use crate::entries::{decode_entry, encode_entry};
use crate::fault::DecodeError;
use crate::generations::GenerationCodec;
use crate::shapes::shape_over;
use crate::stacks::{behind_header, decode_stack, encode_header, encode_items};
use std::alloc::Global;
use triple_arena_base::AllocError;
use triple_arena_direct_arena::{DirectArena, DirectSlot};
use triple_arena_ptr::{Ptr, PtrInx};
use triple_arena_stack::{NonZeroInxGenericStack, NonZeroInxVec};
use triple_arena_traits::{ArenaTrait, EntrySlot};

/// A byte 0; or a byte 1, the generation and the value.
impl<P: Ptr, T: Codec> Codec for DirectSlot<P, T>
where
    P::Gen: GenerationCodec,
{
    ghost Content = { Option (ℕ × T.Content) };

    ghost content = { λ slot. option_map (map_entry T.content) (direct_slot_entry P.Gen.number slot) };

    ghost coding = { option (both P.Gen.numbered T.coding) };

    ghost shape = { 36 ∷ T.shape };

    ghost asks = { T.asks };

    fn shape_at(at: usize) -> Result<u8, usize> {
        shape_over::<T>(36, at)
    }

    // The trait's clauses are written out, since inheriting them makes each call dearer to prove.
    fn encode(&self, out: &mut Vec<u8>) -> Result<(), AllocError>
        ensures written { OnOk result (out.new.items ≡ out.old.items
            ++ (option (both P.Gen.numbered T.coding)).encoding
            (option_map (map_entry T.content) (direct_slot_entry P.Gen.number self.now))) }
        ensures fits { OnOk result ((option (both P.Gen.numbered T.coding)).fits
            (option_map (map_entry T.content) (direct_slot_entry P.Gen.number self.now))) }
    {
        encode_entry(self.entry(), out)
    }

    fn decode(alloc: Global, bytes: &[u8]) -> Result<(Self, &[u8]), DecodeError>
        ensures read { Gives
            (λ x. (option_map (map_entry T.content) (direct_slot_entry P.Gen.number x.0), x.1.now)) result
            ((option (both P.Gen.numbered T.coding)).decoding bytes.now) }
        ensures memory { IfErr result (λ e. MayFail T.asks e) }
    {
        let (entry, rest) = decode_entry::<P::Gen, T>(alloc, bytes)?;
        let slot = match entry {
            None => DirectSlot::Free,
            Some((generation, value)) => DirectSlot::Allocated(generation, value),
        };
        Ok((slot, rest))
    }
}

/// Writes a direct arena's bytes at the end of `out`: the greatest index of its pointers, the width
/// of their generations, and its slots. Where memory is refused, nothing is said of what stands in
/// `out`.
pub fn encode_direct_arena<P: Ptr, T: Codec, S: NonZeroInxGenericStack<DirectSlot<P, T>>>(
    arena: &DirectArena<P, T, S>,
    out: &mut Vec<u8>,
) -> Result<(), AllocError>
where
    P::Gen: GenerationCodec,
    ensures written { OnOk result (out.new.items ≡ out.old.items
        ++ (direct_arena_coding P.Inx.greatest P.Gen.width arena.now.limit P.Gen.numbered T.coding).encoding
        (map (option_map (map_entry T.content)) arena.now.slots)) }
    ensures fits { OnOk result
        ((direct_arena_coding P.Inx.greatest P.Gen.width arena.now.limit P.Gen.numbered T.coding).fits
        (map (option_map (map_entry T.content)) arena.now.slots)) }
{
    // There are no more slots than limit and indexes allow.
    let _capacity = arena.capacity();
    encode_header::<P>(out)?;
    encode_items(arena.backing().as_slice(), out)
}

/// The direct arena at the front of the bytes, over a stack that has no item, and the bytes behind
/// it; or the first fault; then the stack is gone. Room is made slot by slot, each from bytes that are there.
pub fn decode_direct_arena<
    P: Ptr,
    T: Codec + Drop,
    S: NonZeroInxGenericStack<DirectSlot<P, T>> + Drop,
>(stack: S, alloc: Global, bytes: &[u8]) -> Result<(DirectArena<P, T, S>, &[u8]), DecodeError>
where
    P::Gen: GenerationCodec,
    requires { S.items stack ≡ [] }
    ensures read { Gives (λ x. (map (option_map (map_entry T.content)) x.0.slots, x.1.now)) result
        ((direct_arena_coding P.Inx.greatest P.Gen.width (S.limit stack) P.Gen.numbered T.coding).decoding
        bytes.now) }
    ensures limit { IfOk result (λ x. x.0.limit ≡ S.limit stack) }
{
    let rest = behind_header::<P>(alloc, bytes)?;
    let (stack, rest) = decode_stack(stack, P::Inx::max_index().get(), alloc, rest)?;
    Ok((DirectArena::over_slots(stack), rest))
}

/// As `encode_direct_arena` writes it, over a new stack on the heap.
impl<P: Ptr, T: Codec + Drop> Codec for DirectArena<P, T>
where
    P::Gen: GenerationCodec,
{
    ghost Content = { List (Option (ℕ × T.Content)) };

    ghost content = { λ s. map (option_map (map_entry T.content)) s.slots };

    ghost coding = { direct_arena_coding P.Inx.greatest P.Gen.width None P.Gen.numbered T.coding };

    ghost shape = { direct_arena_shape T.shape };

    ghost asks = { true };

    fn shape_at(at: usize) -> Result<u8, usize> {
        shape_over::<T>(38, at)
    }

    fn encode(&self, out: &mut Vec<u8>) -> Result<(), AllocError>
        ensures written { OnOk result (out.new.items ≡ out.old.items
            ++ (direct_arena_coding P.Inx.greatest P.Gen.width None P.Gen.numbered T.coding).encoding
            (map (option_map (map_entry T.content)) self.now.slots)) }
        ensures fits { OnOk result
            ((direct_arena_coding P.Inx.greatest P.Gen.width None P.Gen.numbered T.coding).fits
            (map (option_map (map_entry T.content)) self.now.slots)) }
    {
        encode_direct_arena(self, out)
    }

    fn decode(alloc: Global, bytes: &[u8]) -> Result<(Self, &[u8]), DecodeError>
        ensures read { Gives (λ x. (map (option_map (map_entry T.content)) x.0.slots, x.1.now)) result
            ((direct_arena_coding P.Inx.greatest P.Gen.width None P.Gen.numbered T.coding).decoding
            bytes.now) }
        ensures memory { IfErr result (λ e. MayFail true e) }
    {
        decode_direct_arena(NonZeroInxVec::new(alloc), alloc, bytes)
    }
}
