//! Arenas as bytes.

ghost use Rattle.std.specs.Prelude.{◌≡◌, ◌++◌, ℕ, List, Option, None, [], map, slice_get, OnOk, IfOk, true, IfErr};
ghost use Rattle.std.specs.Int.NonZero.{non_zero_usize_get};
ghost use Rattle.std.specs.Option.{option_map};
ghost use Rattle.triple_arena_traits.specs.ArenaState.{map_entry};
ghost use Rattle.triple_arena_snapshot.specs.Coding.{Gives, MayFail};
ghost use Rattle.triple_arena_snapshot.specs.Codings.{list_bytes};
ghost use Rattle.triple_arena_snapshot.specs.Layouts.{list};
ghost use Rattle.triple_arena_snapshot.specs.ArenaCodings.{arena_content};
ghost use Rattle.triple_arena_snapshot.specs.ArenaLayouts.{arena_coding, index};
ghost use Rattle.triple_arena_snapshot.specs.Shapes.{arena_shape};

use crate::arena_slots::encode_links;
use crate::codec::Codec;
use crate::fault::{DecodeError, Fault};
use crate::free_lists::are_free;
use crate::generations::GenerationCodec;
use crate::shapes::shape_over;
use crate::stacks::{behind_header, decode_stack, encode_header, encode_items};
use std::alloc::Global;
use std::num::NonZeroUsize;
use triple_arena::{Arena, ArenaSlot, ArenaTrait, NonZeroInxGenericStack, NonZeroInxVec};
use triple_arena_base::AllocError;
use triple_arena_ptr::{Ptr, PtrInx};

/// Writes an arena's bytes at the end of `out`: the greatest index of its pointers, the width of
/// their generations, its slots, its counter, and the free indexes in the order in which insertion
/// takes them. Where memory is refused, nothing is said of what stands in `out`.
pub fn encode_arena<P: Ptr, T: Codec, S: NonZeroInxGenericStack<ArenaSlot<P, T>>>(
    arena: &Arena<P, T, S>,
    out: &mut Vec<u8>,
) -> Result<(), AllocError>
where
    P::Gen: GenerationCodec,
    ensures written { OnOk result (out.new.items ≡ out.old.items
        ++ (arena_coding P.Inx.greatest P.Gen.width arena.now.limit P.Gen.numbered T.coding).encoding
        (arena_content T.content arena.now)) }
    ensures fits { OnOk result
        ((arena_coding P.Inx.greatest P.Gen.width arena.now.limit P.Gen.numbered T.coding).fits
        (arena_content T.content arena.now)) }
{
    // There are no more slots than limit and indexes allow, and the free list is that of the free
    // ones.
    let _capacity = arena.capacity();
    let _len = arena.len();
    encode_header::<P>(out)?;
    encode_items(arena.backing().as_slice(), out)?;
    arena.generation().encode_generation(out)?;
    encode_free_list(arena, out)
}

/// The arena at the front of the bytes, over a stack that has no item, and the bytes behind it; or
/// the first fault; then the stack is gone. Room is made slot by slot, each from bytes that are there.
pub fn decode_arena<P: Ptr, T: Codec + Drop, S: NonZeroInxGenericStack<ArenaSlot<P, T>> + Drop>(
    stack: S,
    alloc: Global,
    bytes: &[u8],
) -> Result<(Arena<P, T, S>, &[u8]), DecodeError>
where
    P::Gen: GenerationCodec,
    requires { S.items stack ≡ [] }
    ensures read { Gives (λ x. (arena_content T.content x.0, x.1.now)) result
        ((arena_coding P.Inx.greatest P.Gen.width (S.limit stack) P.Gen.numbered T.coding).decoding
        bytes.now) }
    ensures limit { IfOk result (λ x. x.0.limit ≡ S.limit stack) }
{
    let rest = behind_header::<P>(alloc, bytes)?;
    let (stack, rest) = decode_stack(stack, P::Inx::max_index().get(), alloc, rest)?;
    let (counter, rest) = P::Gen::decode_generation(alloc, rest)?;
    let (free, behind) = <Vec<NonZeroUsize> as Codec>::decode(alloc, rest)?;
    // There are no more slots than fit.
    let _capacity = stack.capacity();
    let indexes = free.as_slice();
    let ordered = are_free::<P, T>(stack.as_slice(), indexes, alloc)?;
    if !ordered {
        return Err(DecodeError::Malformed(Fault::FreeList, rest.len()));
    }
    Ok((Arena::over_slots(stack, counter, indexes), behind))
}

/// As `encode_arena` writes it, over a new stack on the heap.
impl<P: Ptr, T: Codec + Drop> Codec for Arena<P, T>
where
    P::Gen: GenerationCodec,
{
    ghost Content = { List (Option (ℕ × T.Content)) × (ℕ × List ℕ) };

    ghost content = { arena_content T.content };

    ghost coding = { arena_coding P.Inx.greatest P.Gen.width None P.Gen.numbered T.coding };

    ghost shape = { arena_shape T.shape };

    ghost asks = { true };

    fn shape_at(at: usize) -> Result<u8, usize> {
        shape_over::<T>(37, at)
    }

    // The trait's clauses are written out, since inheriting them makes each call dearer to prove.
    fn encode(&self, out: &mut Vec<u8>) -> Result<(), AllocError>
        ensures written { OnOk result (out.new.items ≡ out.old.items
            ++ (arena_coding P.Inx.greatest P.Gen.width None P.Gen.numbered T.coding).encoding
            (arena_content T.content self.now)) }
        ensures fits { OnOk result
            ((arena_coding P.Inx.greatest P.Gen.width None P.Gen.numbered T.coding).fits
            (arena_content T.content self.now)) }
    {
        encode_arena(self, out)
    }

    fn decode(alloc: Global, bytes: &[u8]) -> Result<(Self, &[u8]), DecodeError>
        ensures read { Gives (λ x. (arena_content T.content x.0, x.1.now)) result
            ((arena_coding P.Inx.greatest P.Gen.width None P.Gen.numbered T.coding).decoding bytes.now) }
        ensures memory { IfErr result (λ e. MayFail true e) }
    {
        decode_arena(NonZeroInxVec::new(alloc), alloc, bytes)
    }
}

// Writes the free indexes, behind their count, in the order in which insertion takes them.
fn encode_free_list<P: Ptr, T, S: NonZeroInxGenericStack<ArenaSlot<P, T>>>(
    arena: &Arena<P, T, S>,
    out: &mut Vec<u8>,
) -> Result<(), AllocError>
    ensures written { OnOk result
        (out.new.items ≡ out.old.items ++ list_bytes index.encoding arena.now.free) }
    ensures fits { OnOk result ((list index).fits arena.now.free) }
{
    let slots = arena.backing().as_slice();
    let count = slots.len().saturating_sub(arena.len());
    count.encode(out)?;
    encode_links(slots, first_free(arena), count, out)
}

// The free index that the next insertion takes, if any is free.
fn first_free<P: Ptr, T, S: NonZeroInxGenericStack<ArenaSlot<P, T>>>(
    arena: &Arena<P, T, S>,
) -> Option<NonZeroUsize>
    ensures { option_map non_zero_usize_get result ≡ slice_get arena.now.free 0 }
{
    // The first free index is that of a slot, and slots are within the indexes.
    let _capacity = arena.capacity();
    let _len = arena.len();
    P::Inx::try_into_usize(arena.freelist_root()?)
}
