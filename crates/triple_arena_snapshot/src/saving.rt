//! Files that are written.

ghost use Rattle.std.specs.Prelude.{◌≡◌, ◌<◌, ◌≤◌, ◌++◌, length, take, map, OnOk, IfOk, OnErr, IfErr, IfSome, IfNone};
ghost use Rattle.std.specs.Io.KnownBytes.{Appends, Keeps};
ghost use Rattle.std.specs.Option.{option_map};
ghost use Rattle.triple_arena_traits.specs.ArenaState.{map_entry};
ghost use Rattle.triple_arena_snapshot.specs.ArenaCodings.{arena_content};
ghost use Rattle.triple_arena_snapshot.specs.ArenaLayouts.{arena_coding, direct_arena_coding};
ghost use Rattle.triple_arena_snapshot.specs.Shapes.{arena_shape, direct_arena_shape};
ghost use Rattle.triple_arena_snapshot.specs.Files.{file_of, AppendsPart, SaveFails};

use crate::arenas::encode_arena;
use crate::checksum::crc32c_of_both;
use crate::codec::{Codec, to_bytes};
use crate::direct_arenas::encode_direct_arena;
use crate::fault::SaveError;
use crate::file::head_of;
use crate::generations::GenerationCodec;
use std::alloc::Global;
use std::io::{ErrorKind, Write};
use triple_arena::{Arena, ArenaSlot, NonZeroInxGenericStack};
use triple_arena_base::AllocError;
use triple_arena_direct_arena::{DirectArena, DirectSlot};
use triple_arena_ptr::Ptr;

/// The most times that one write is made which is interrupted each time.
const MOST_TRIES: u64 = 4294967296;

/// Writes the file of a value, by writes alone: who passes a writer with a buffer flushes it. A write
/// that was interrupted is made again, up to 4294967296 times.
///
/// The value's bytes are made in memory first, so that no byte is written where memory is refused:
/// `Memory`. The error is `Write` where a write failed, took no byte, or was interrupted so often;
/// then a front of the file was written, and not all of it. What was written is said of a writer that
/// tells its bytes.
pub fn save<T: Codec, W: Write>(value: &T, alloc: Global, output: &mut W) -> Result<(), SaveError>
    ensures written { OnOk result (Appends (W.contents output.old) (W.contents output.new)
        (file_of T.shape (T.coding.encoding (T.content value.now)))) }
    ensures fits { OnOk result (T.coding.fits (T.content value.now)) }
    ensures refused { IfErr result (λ e. SaveFails e (W.contents output.old) (W.contents output.new)
        (file_of T.shape (T.coding.encoding (T.content value.now)))) }
{
    let payload = match to_bytes(value, alloc) {
        Ok(payload) => payload,
        Err(_) => return Err(SaveError::Memory),
    };
    write_file::<T, W>(&[], &payload, alloc, output)
}

/// Writes the file of an arena over any stack, as [`save`] does.
pub fn save_arena<P: Ptr, T: Codec, S: NonZeroInxGenericStack<ArenaSlot<P, T>>, W: Write>(
    arena: &Arena<P, T, S>,
    alloc: Global,
    output: &mut W,
) -> Result<(), SaveError>
where
    P::Gen: GenerationCodec,
    ensures written { OnOk result (Appends (W.contents output.old) (W.contents output.new)
        (file_of (arena_shape T.shape) ((arena_coding P.Inx.greatest P.Gen.width arena.now.limit P.Gen.numbered T.coding).encoding
        (arena_content T.content arena.now)))) }
    ensures fits { OnOk result
        ((arena_coding P.Inx.greatest P.Gen.width arena.now.limit P.Gen.numbered T.coding).fits
        (arena_content T.content arena.now)) }
    ensures refused { IfErr result (λ e. SaveFails e (W.contents output.old) (W.contents output.new)
        (file_of (arena_shape T.shape) ((arena_coding P.Inx.greatest P.Gen.width arena.now.limit P.Gen.numbered T.coding).encoding
        (arena_content T.content arena.now)))) }
{
    save_arena_as(&[37], arena, alloc, output)
}

/// Writes the file of a direct arena over any stack, as [`save`] does.
pub fn save_direct_arena<P: Ptr, T: Codec, S: NonZeroInxGenericStack<DirectSlot<P, T>>, W: Write>(
    arena: &DirectArena<P, T, S>,
    alloc: Global,
    output: &mut W,
) -> Result<(), SaveError>
where
    P::Gen: GenerationCodec,
    ensures written { OnOk result (Appends (W.contents output.old) (W.contents output.new)
        (file_of (direct_arena_shape T.shape) ((direct_arena_coding P.Inx.greatest P.Gen.width arena.now.limit P.Gen.numbered T.coding).encoding
        (map (option_map (map_entry T.content)) arena.now.slots)))) }
    ensures fits { OnOk result
        ((direct_arena_coding P.Inx.greatest P.Gen.width arena.now.limit P.Gen.numbered T.coding).fits
        (map (option_map (map_entry T.content)) arena.now.slots)) }
    ensures refused { IfErr result (λ e. SaveFails e (W.contents output.old) (W.contents output.new)
        (file_of (direct_arena_shape T.shape) ((direct_arena_coding P.Inx.greatest P.Gen.width arena.now.limit P.Gen.numbered T.coding).encoding
        (map (option_map (map_entry T.content)) arena.now.slots)))) }
{
    let payload = match direct_arena_bytes(arena, alloc) {
        Ok(payload) => payload,
        Err(_) => return Err(SaveError::Memory),
    };
    write_file::<T, W>(&[38], &payload, alloc, output)
}

// Writes the file of an arena, of which these bytes and the shape of its values tell.
pub(crate) fn save_arena_as<P: Ptr, T: Codec, S: NonZeroInxGenericStack<ArenaSlot<P, T>>, W: Write>(
    outer: &[u8],
    arena: &Arena<P, T, S>,
    alloc: Global,
    output: &mut W,
) -> Result<(), SaveError>
where
    P::Gen: GenerationCodec,
    ensures written { OnOk result (Appends (W.contents output.old) (W.contents output.new)
        (file_of (outer.now ++ T.shape) ((arena_coding P.Inx.greatest P.Gen.width arena.now.limit P.Gen.numbered T.coding).encoding
        (arena_content T.content arena.now)))) }
    ensures fits { OnOk result
        ((arena_coding P.Inx.greatest P.Gen.width arena.now.limit P.Gen.numbered T.coding).fits
        (arena_content T.content arena.now)) }
    ensures refused { IfErr result (λ e. SaveFails e (W.contents output.old) (W.contents output.new)
        (file_of (outer.now ++ T.shape) ((arena_coding P.Inx.greatest P.Gen.width arena.now.limit P.Gen.numbered T.coding).encoding
        (arena_content T.content arena.now)))) }
{
    let payload = match arena_bytes(arena, alloc) {
        Ok(payload) => payload,
        Err(_) => return Err(SaveError::Memory),
    };
    write_file::<T, W>(outer, &payload, alloc, output)
}

// The bytes of an arena.
fn arena_bytes<P: Ptr, T: Codec, S: NonZeroInxGenericStack<ArenaSlot<P, T>>>(
    arena: &Arena<P, T, S>,
    alloc: Global,
) -> Result<Vec<u8>, AllocError>
where
    P::Gen: GenerationCodec,
    ensures written { IfOk result (λ v. v.items
        ≡ (arena_coding P.Inx.greatest P.Gen.width arena.now.limit P.Gen.numbered T.coding).encoding
        (arena_content T.content arena.now)) }
    ensures fits { OnOk result
        ((arena_coding P.Inx.greatest P.Gen.width arena.now.limit P.Gen.numbered T.coding).fits
        (arena_content T.content arena.now)) }
{
    let mut out = Vec::new(alloc);
    encode_arena(arena, &mut out)?;
    Ok(out)
}

// The bytes of a direct arena.
fn direct_arena_bytes<P: Ptr, T: Codec, S: NonZeroInxGenericStack<DirectSlot<P, T>>>(
    arena: &DirectArena<P, T, S>,
    alloc: Global,
) -> Result<Vec<u8>, AllocError>
where
    P::Gen: GenerationCodec,
    ensures written { IfOk result (λ v. v.items
        ≡ (direct_arena_coding P.Inx.greatest P.Gen.width arena.now.limit P.Gen.numbered T.coding).encoding
        (map (option_map (map_entry T.content)) arena.now.slots)) }
    ensures fits { OnOk result
        ((direct_arena_coding P.Inx.greatest P.Gen.width arena.now.limit P.Gen.numbered T.coding).fits
        (map (option_map (map_entry T.content)) arena.now.slots)) }
{
    let mut out = Vec::new(alloc);
    encode_direct_arena(arena, &mut out)?;
    Ok(out)
}

// Writes the file of a value's bytes.
fn write_file<T: Codec, W: Write>(
    outer: &[u8],
    payload: &[u8],
    alloc: Global,
    output: &mut W,
) -> Result<(), SaveError>
    ensures written { OnOk result (Appends (W.contents output.old) (W.contents output.new)
        (file_of (outer.now ++ T.shape) payload.now)) }
    ensures refused { IfErr result (λ e. SaveFails e (W.contents output.old)
        (W.contents output.new) (file_of (outer.now ++ T.shape) payload.now)) }
{
    let head = head_of::<T>(outer, payload.len(), alloc)?;
    let mut sum = Vec::new(alloc);
    crc32c_of_both(&head, payload).encode(&mut sum)?;
    let front = head.as_slice();
    let back = sum.as_slice();
    write_parts(front, payload, back, output)
}

// Writes three parts, one after another; or a front of them, and not all.
#[tactic(auto, using(crate::proofs::Writes::appended_both, crate::proofs::Writes::cut_more, crate::proofs::Writes::cut_later))]
fn write_parts<W: Write>(
    first: &[u8],
    second: &[u8],
    third: &[u8],
    output: &mut W,
) -> Result<(), SaveError>
    ensures ok { OnOk result (Appends (W.contents output.old) (W.contents output.new)
        (first.now ++ (second.now ++ third.now))) }
    ensures err { OnErr result (AppendsPart (W.contents output.old) (W.contents output.new)
        (first.now ++ (second.now ++ third.now))) }
    ensures write { IfErr result (λ e. e ≡ SaveError.Write) }
{
    write_all(first, output)?;
    write_both(second, third, output)
}

// Writes two parts; or a front of them, and not all.
#[tactic(auto, using(crate::proofs::Writes::appended_both, crate::proofs::Writes::cut_more, crate::proofs::Writes::cut_later))]
fn write_both<W: Write>(first: &[u8], second: &[u8], output: &mut W) -> Result<(), SaveError>
    ensures ok { OnOk result (Appends (W.contents output.old) (W.contents output.new)
        (first.now ++ second.now)) }
    ensures err { OnErr result (AppendsPart (W.contents output.old) (W.contents output.new)
        (first.now ++ second.now)) }
    ensures write { IfErr result (λ e. e ≡ SaveError.Write) }
{
    write_all(first, output)?;
    write_all(second, output)
}

// Writes all of these bytes; or a front of them, and not all.
fn write_all<W: Write>(bytes: &[u8], output: &mut W) -> Result<(), SaveError>
    ensures ok { OnOk result
        (Appends (W.contents output.old) (W.contents output.new) bytes.now) }
    ensures err { OnErr result
        (AppendsPart (W.contents output.old) (W.contents output.new) bytes.now) }
    ensures write { IfErr result (λ e. e ≡ SaveError.Write) }
{
    let mut written = 0;
    'writes: while written < bytes.len() {
        match write_some(&bytes[written..], output) {
            Some(count) => written += count,
            None => return Err(SaveError::Write),
        }
    }
    Ok(())
}

// How many of these bytes a write took. `None` where it failed, took none, or was interrupted so often
// that it isn't tried again.
fn write_some<W: Write>(bytes: &[u8], output: &mut W) -> Option<usize>
    ensures some { IfSome result (λ count. 0 < count) }
    ensures within { IfSome result (λ count. count ≤ length bytes.now) }
    ensures took { IfSome result
        (λ count. Appends (W.contents output.old) (W.contents output.new) (take count bytes.now)) }
    ensures failed { IfNone result (Keeps (W.contents output.old) (W.contents output.new)) }
{
    let mut tries = 0;
    'tries: while tries < MOST_TRIES {
        tries += 1;
        match output.write(bytes) {
            Ok(0) => return None,
            Ok(count) => return Some(count),
            Err(e) => {
                if e.kind() != ErrorKind::Interrupted {
                    return None;
                }
            }
        }
    }
    None
}
