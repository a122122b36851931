//! The slots of an arena as bytes, and what stands in front of them.

ghost use Rattle.std.specs.Prelude.{◌≡◌, ◌≤◌, ◌++◌, ◌∷◌, [], map, length, OnOk, IfOk};
ghost use Rattle.std.specs.Int.{w64, to_le_bytes};
ghost use Rattle.std.specs.List.{AllByRecursion};
ghost use Rattle.triple_arena_ptr.specs.Numbers.{greatest_index};
ghost use Rattle.triple_arena_snapshot.specs.Coding.{Gives};
ghost use Rattle.triple_arena_snapshot.specs.Codings.{list_bytes, list_within, many_at_front};
ghost use Rattle.triple_arena_snapshot.specs.ArenaCodings.{most_slots, header_at_front};

use crate::codec::Codec;
use crate::containers::encode_all;
use crate::fault::{DecodeError, Fault};
use crate::generations::GenerationCodec;
use std::alloc::Global;
use triple_arena_base::AllocError;
use triple_arena_ptr::{Ptr, PtrGen, PtrInx};
use triple_arena_stack::NonZeroInxGenericStack;

// Writes the items of a stack, behind their count.
pub(crate) fn encode_items<X: Codec>(items: &[X], out: &mut Vec<u8>) -> Result<(), AllocError>
    ensures written { OnOk result (out.new.items
        ≡ out.old.items ++ list_bytes X.coding.encoding (map X.content items.now)) }
    ensures fits { OnOk result (AllByRecursion X.coding.fits (map X.content items.now)) }
{
    items.len().encode(out)?;
    encode_all(items, out)
}

// Writes the greatest index of pointers, and the width of their generations.
pub(crate) fn encode_header<P: Ptr>(out: &mut Vec<u8>) -> Result<(), AllocError>
where
    P::Gen: GenerationCodec,
    ensures { OnOk result (out.new.items ≡ out.old.items
        ++ to_le_bytes w64 (greatest_index P.Inx.greatest) ++ P.Gen.width ∷ []) }
{
    P::Inx::max_index().get().encode(out)?;
    P::Gen::width().encode(out)
}

// The bytes behind the header.
pub(crate) fn behind_header<P: Ptr>(alloc: Global, bytes: &[u8]) -> Result<&[u8], DecodeError>
where
    P::Gen: GenerationCodec,
    ensures { Gives (λ x. x.now) result
        (header_at_front (greatest_index P.Inx.greatest) P.Gen.width bytes.now) }
{
    let (greatest, rest) = usize::decode(alloc, bytes)?;
    if greatest != P::Inx::max_index().get() {
        return Err(DecodeError::Malformed(Fault::Width, bytes.len()));
    }
    match rest {
        [] => Err(DecodeError::Malformed(Fault::Cut, 0)),
        [width, behind @ ..] => {
            if *width != P::Gen::width() {
                return Err(DecodeError::Malformed(Fault::Width, rest.len()));
            }
            Ok(behind)
        }
    }
}

// Reads items onto a stack that has none, by their count: at most so many as its limit allows, and as
// there are indexes.
pub(crate) fn decode_stack<X: Codec + Drop, S: NonZeroInxGenericStack<X> + Drop>(
    stack: S,
    greatest: usize,
    alloc: Global,
    bytes: &[u8],
) -> Result<(S, &[u8]), DecodeError>
    requires { S.items stack ≡ [] }
    ensures read { Gives (λ x. (map X.content (S.items x.0), x.1.now)) result
        (list_within (most_slots (S.limit stack) greatest) X.coding.decoding bytes.now) }
    ensures indexed { IfOk result (λ x. length (S.items x.0) ≤ greatest) }
    ensures limit { IfOk result (λ x. S.limit x.0 ≡ S.limit stack) }
{
    let (count, rest) = usize::decode(alloc, bytes)?;
    if count > most_slots(stack.max_capacity(), greatest) {
        return Err(DecodeError::Malformed(Fault::Slots, bytes.len()));
    }
    push_decoded(stack, count, alloc, rest)
}

// How many slots there may be, by a limit, if there is one, and by the greatest index.
pub(crate) fn most_slots(limit: Option<usize>, greatest: usize) -> usize
    ensures value { result ≡ most_slots limit greatest }
    ensures indexed { result ≤ greatest }
{
    match limit {
        Some(limit) => limit.min(greatest),
        None => greatest,
    }
}

// Reads so many items, and pushes each. Room is made item by item, each from bytes that are there.
fn push_decoded<X: Codec + Drop, S: NonZeroInxGenericStack<X> + Drop>(
    mut stack: S,
    count: usize,
    alloc: Global,
    bytes: &[u8],
) -> Result<(S, &[u8]), DecodeError>
    requires { S.items stack ≡ [] }
    ensures read { Gives (λ x. (map X.content (S.items x.0), x.1.now)) result
        (many_at_front X.coding.decoding count bytes.now) }
    ensures many { IfOk result (λ x. length (S.items x.0) ≡ count) }
    ensures limit { IfOk result (λ x. S.limit x.0 ≡ S.limit stack) }
{
    let mut rest = bytes;
    for _ in 0..count {
        let (item, after) = X::decode(alloc, rest)?;
        match stack.push(item) {
            Ok(_inx) => rest = after,
            Err(_refused) => return Err(DecodeError::Memory),
        }
    }
    Ok((stack, rest))
}
