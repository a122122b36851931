//! The entries of slots as bytes.

ghost use Rattle.std.specs.Prelude.{◌≡◌, ◌++◌, ℕ, Option, OnOk, IfErr};
ghost use Rattle.std.specs.Option.{option_map};
ghost use Rattle.triple_arena_traits.specs.ArenaState.{map_entry};
ghost use Rattle.triple_arena_snapshot.specs.Coding.{Gives, MayFail};
ghost use Rattle.triple_arena_snapshot.specs.Layouts.{option, both};

use crate::codec::Codec;
use crate::fault::{DecodeError, Fault};
use crate::generations::GenerationCodec;
use std::alloc::Global;
use triple_arena_base::AllocError;
use triple_arena_ptr::PtrGen;

// Writes a byte 0 where there is no entry; or a byte 1, the generation and the value.
pub(crate) fn encode_entry<G: GenerationCodec, T: Codec>(
    held: Option<(G, &T)>,
    out: &mut Vec<u8>,
) -> Result<(), AllocError>
    ensures written { OnOk result (out.new.items ≡ out.old.items
        ++ (option (both G.numbered T.coding)).encoding
        (option_map (map_entry T.content) (option_map (λ e. (G.number e.0, e.1.now)) held.entry))) }
    ensures fits { OnOk result ((option (both G.numbered T.coding)).fits
        (option_map (map_entry T.content) (option_map (λ e. (G.number e.0, e.1.now)) held.entry))) }
{
    match held {
        None => 0u8.encode(out),
        Some((generation, value)) => {
            1u8.encode(out)?;
            generation.encode_generation(out)?;
            value.encode(out)
        }
    }
}

// The entry at the front of the bytes, if there is one, and the bytes behind it; or the first fault.
pub(crate) fn decode_entry<G: GenerationCodec, T: Codec>(
    alloc: Global,
    bytes: &[u8],
) -> Result<(Option<(G, T)>, &[u8]), DecodeError>
    ensures read { Gives (λ x. (option_map (λ e. (G.number e.0, T.content e.1)) x.0, x.1.now)) result
        ((option (both G.numbered T.coding)).decoding bytes.now) }
    ensures memory { IfErr result (λ e. MayFail T.asks e) }
{
    match bytes {
        [] => Err(DecodeError::Malformed(Fault::Cut, 0)),
        [0, rest @ ..] => Ok((None, rest)),
        [1, rest @ ..] => {
            let (generation, rest) = G::decode_generation(alloc, rest)?;
            let (value, rest) = T::decode(alloc, rest)?;
            Ok((Some((generation, value)), rest))
        }
        [_, ..] => Err(DecodeError::Malformed(Fault::Flag, bytes.len())),
    }
}
