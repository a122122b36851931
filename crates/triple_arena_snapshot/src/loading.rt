//! Files that are read.

ghost use Rattle.std.specs.Prelude.{◌≡◌, ◌≢◌, ◌<◌, ◌≤◌, ◌^◌, ◌++◌, ℕ, length, get_or, List, Option, Some, Ok, [], map, OnOk, IfOk, IfErr, IfSome, IsErr, ◌⊎◌};
ghost use Rattle.std.specs.Io.KnownBytes.{IsAtEnd};
ghost use Rattle.std.specs.Option.{option_map};
ghost use Rattle.triple_arena_traits.specs.ArenaState.{map_entry};
ghost use Rattle.triple_arena_snapshot.specs.Coding.{Gives, whole};
ghost use Rattle.triple_arena_snapshot.specs.ArenaCodings.{arena_content};
ghost use Rattle.triple_arena_snapshot.specs.ArenaLayouts.{arena_coding, direct_arena_coding};
ghost use Rattle.triple_arena_snapshot.specs.Shapes.{arena_shape, direct_arena_shape};
ghost use Rattle.triple_arena_snapshot.specs.Files.{file_of, file_reading, Loads, LoadsFrom};

use crate::arenas::decode_arena;
use crate::codec::Codec;
use crate::direct_arenas::decode_direct_arena;
use crate::fault::{DecodeError, Fault, LoadError};
use crate::file::{in_value, payload_of, read_file};
use crate::generations::GenerationCodec;
use std::alloc::Global;
use std::io::{ErrorKind, Read};
use triple_arena::{Arena, ArenaSlot, NonZeroInxGenericStack};
use triple_arena_direct_arena::{DirectArena, DirectSlot};
use triple_arena_ptr::Ptr;

/// The value whose file the reader has left, all of it: it is read to its end, by std's `read_to_end`.
///
/// `Memory` where memory was refused, or the reader said so; `Read` where the reader failed; and
/// `Malformed` with the first fault and the offset at which what it is about begins. Nothing is made
/// then. Memory is asked for as bytes come, and never by a number in them.
pub fn load<T: Codec + Drop, R: Read>(alloc: Global, input: &mut R) -> Result<T, LoadError>
    ensures read { IfSome (R.remaining input.old) (λ bytes.
        LoadsFrom T.content result (file_reading T.shape T.coding.decoding bytes)) }
    // What was saved is loaded, unless memory is refused or the reader fails.
    ensures again { (k : T.Content) → T.coding.fits k
        → R.remaining input.old ≡ Some (file_of T.shape (T.coding.encoding k))
        → LoadsFrom T.content result (Ok k) }
    // A file of any value, of which up to four bytes side by side were changed, is refused.
    ensures change_found { (shape saved front burst other rest : List ℕ)
        → ((i : ℕ) → get_or burst i 0 < 256) → length burst ≡ length other → length burst ≤ 4
        → burst ≢ other → file_of shape saved ≡ front ++ (burst ++ rest)
        → R.remaining input.old ≡ Some (front ++ (other ++ rest)) → IsErr result }
    ensures end { OnOk result (IsAtEnd (R.remaining input.new)) }
{
    match read_all(alloc, input) {
        Ok(bytes) => read_file(alloc, &bytes),
        Err(refusal) => Err(refusal),
    }
}

/// The arena whose file the reader has left, over a stack without items, whose limit it has, and whose
/// room grows where the slots need more. What was saved under another limit is loaded where there are no
/// more slots than this one allows ([`crate::laws::fits_under_another_limit`]). Where it is refused the stack is
/// gone. All else is as at [`load`].
pub fn load_arena<
    P: Ptr,
    T: Codec + Drop,
    S: NonZeroInxGenericStack<ArenaSlot<P, T>> + Drop,
    R: Read,
>(stack: S, alloc: Global, input: &mut R) -> Result<Arena<P, T, S>, LoadError>
where
    P::Gen: GenerationCodec,
    requires { S.items stack ≡ [] }
    ensures read { IfSome (R.remaining input.old) (λ bytes. LoadsFrom (arena_content T.content) result
        (file_reading (arena_shape T.shape) (arena_coding P.Inx.greatest P.Gen.width (S.limit stack)
        P.Gen.numbered T.coding).decoding bytes)) }
    // What was saved is loaded, unless memory is refused or the reader fails.
    ensures again { (k : List (Option (ℕ × T.Content)) × (ℕ × List ℕ))
        → (arena_coding P.Inx.greatest P.Gen.width (S.limit stack) P.Gen.numbered T.coding).fits k
        → R.remaining input.old ≡ Some (file_of (arena_shape T.shape)
        ((arena_coding P.Inx.greatest P.Gen.width (S.limit stack) P.Gen.numbered T.coding).encoding k))
        → LoadsFrom (arena_content T.content) result (Ok k) }
    // A file of any value, of which up to four bytes side by side were changed, is refused.
    ensures change_found { (shape saved front burst other rest : List ℕ)
        → ((i : ℕ) → get_or burst i 0 < 256) → length burst ≡ length other → length burst ≤ 4
        → burst ≢ other → file_of shape saved ≡ front ++ (burst ++ rest)
        → R.remaining input.old ≡ Some (front ++ (other ++ rest)) → IsErr result }
    ensures limit { IfOk result (λ arena. arena.limit ≡ S.limit stack) }
    ensures end { OnOk result (IsAtEnd (R.remaining input.new)) }
{
    match read_all(alloc, input) {
        Ok(bytes) => read_arena_file(stack, alloc, &bytes),
        Err(refusal) => Err(refusal),
    }
}

/// The direct arena whose file the reader has left, over a stack without items, as [`load_arena`]. All
/// else is as at [`load`].
pub fn load_direct_arena<
    P: Ptr,
    T: Codec + Drop,
    S: NonZeroInxGenericStack<DirectSlot<P, T>> + Drop,
    R: Read,
>(stack: S, alloc: Global, input: &mut R) -> Result<DirectArena<P, T, S>, LoadError>
where
    P::Gen: GenerationCodec,
    requires { S.items stack ≡ [] }
    ensures read { IfSome (R.remaining input.old) (λ bytes.
        LoadsFrom (λ arena. map (option_map (map_entry T.content)) arena.slots) result
        (file_reading (direct_arena_shape T.shape) (direct_arena_coding P.Inx.greatest P.Gen.width
        (S.limit stack) P.Gen.numbered T.coding).decoding bytes)) }
    // What was saved is loaded, unless memory is refused or the reader fails.
    ensures again { (k : List (Option (ℕ × T.Content)))
        → (direct_arena_coding P.Inx.greatest P.Gen.width (S.limit stack) P.Gen.numbered T.coding).fits k
        → R.remaining input.old ≡ Some (file_of (direct_arena_shape T.shape)
        ((direct_arena_coding P.Inx.greatest P.Gen.width (S.limit stack) P.Gen.numbered
        T.coding).encoding k)) → LoadsFrom (λ arena. map (option_map (map_entry T.content)) arena.slots) result (Ok k) }
    // A file of any value, of which up to four bytes side by side were changed, is refused.
    ensures change_found { (shape saved front burst other rest : List ℕ)
        → ((i : ℕ) → get_or burst i 0 < 256) → length burst ≡ length other → length burst ≤ 4
        → burst ≢ other → file_of shape saved ≡ front ++ (burst ++ rest)
        → R.remaining input.old ≡ Some (front ++ (other ++ rest)) → IsErr result }
    ensures limit { IfOk result (λ arena. arena.limit ≡ S.limit stack) }
    ensures end { OnOk result (IsAtEnd (R.remaining input.new)) }
{
    match read_all(alloc, input) {
        Ok(bytes) => read_direct_arena_file(stack, alloc, &bytes),
        Err(refusal) => Err(refusal),
    }
}

// All that the reader has left.
pub(crate) fn read_all<R: Read>(alloc: Global, input: &mut R) -> Result<Vec<u8>, LoadError>
    ensures bytes { IfOk result (λ all. IfSome (R.remaining input.old) (λ bytes. all.items ≡ bytes)) }
    ensures refusal { IfErr result (λ e. (e ≡ LoadError.Memory) ⊎ (e ≡ LoadError.Read)) }
    ensures end { OnOk result (IsAtEnd (R.remaining input.new)) }
{
    let mut all = Vec::new(alloc);
    match input.read_to_end(&mut all) {
        Ok(_count) => Ok(all),
        Err(refusal) if refusal.kind() == ErrorKind::OutOfMemory => Err(LoadError::Memory),
        Err(_refusal) => Err(LoadError::Read),
    }
}

// The arena whose file these bytes are.
fn read_arena_file<P: Ptr, T: Codec + Drop, S: NonZeroInxGenericStack<ArenaSlot<P, T>> + Drop>(
    stack: S,
    alloc: Global,
    bytes: &[u8],
) -> Result<Arena<P, T, S>, LoadError>
where
    P::Gen: GenerationCodec,
    requires { S.items stack ≡ [] }
    ensures read { Loads (arena_content T.content) result
        (file_reading (arena_shape T.shape) (arena_coding P.Inx.greatest P.Gen.width
        (S.limit stack) P.Gen.numbered T.coding).decoding bytes.now) }
    ensures limit { IfOk result (λ arena. arena.limit ≡ S.limit stack) }
    ensures few { length bytes.now < 2 ^ 64 }
    ensures small { (i : ℕ) → get_or bytes.now i 0 < 256 }
{
    let payload = payload_of::<T>(&[37], alloc, bytes)?;
    match whole_arena(stack, alloc, payload) {
        Ok(arena) => Ok(arena),
        Err(refusal) => Err(in_value(refusal, bytes.len())),
    }
}

// The arena whose bytes these are, all of them.
fn whole_arena<P: Ptr, T: Codec + Drop, S: NonZeroInxGenericStack<ArenaSlot<P, T>> + Drop>(
    stack: S,
    alloc: Global,
    bytes: &[u8],
) -> Result<Arena<P, T, S>, DecodeError>
where
    P::Gen: GenerationCodec,
    requires { S.items stack ≡ [] }
    ensures read { Gives (arena_content T.content) result (whole (arena_coding P.Inx.greatest
        P.Gen.width (S.limit stack) P.Gen.numbered T.coding).decoding bytes.now) }
    ensures limit { IfOk result (λ arena. arena.limit ≡ S.limit stack) }
{
    let (arena, rest) = decode_arena(stack, alloc, bytes)?;
    if !rest.is_empty() {
        return Err(DecodeError::Malformed(Fault::Trailing, rest.len()));
    }
    Ok(arena)
}

// The direct arena whose file these bytes are.
fn read_direct_arena_file<
    P: Ptr,
    T: Codec + Drop,
    S: NonZeroInxGenericStack<DirectSlot<P, T>> + Drop,
>(stack: S, alloc: Global, bytes: &[u8]) -> Result<DirectArena<P, T, S>, LoadError>
where
    P::Gen: GenerationCodec,
    requires { S.items stack ≡ [] }
    ensures read { Loads (λ arena. map (option_map (map_entry T.content)) arena.slots) result
        (file_reading (direct_arena_shape T.shape) (direct_arena_coding P.Inx.greatest P.Gen.width
        (S.limit stack) P.Gen.numbered T.coding).decoding bytes.now) }
    ensures limit { IfOk result (λ arena. arena.limit ≡ S.limit stack) }
    ensures few { length bytes.now < 2 ^ 64 }
    ensures small { (i : ℕ) → get_or bytes.now i 0 < 256 }
{
    let payload = payload_of::<T>(&[38], alloc, bytes)?;
    match whole_direct_arena(stack, alloc, payload) {
        Ok(arena) => Ok(arena),
        Err(refusal) => Err(in_value(refusal, bytes.len())),
    }
}

// The direct arena whose bytes these are, all of them.
fn whole_direct_arena<P: Ptr, T: Codec + Drop, S: NonZeroInxGenericStack<DirectSlot<P, T>> + Drop>(
    stack: S,
    alloc: Global,
    bytes: &[u8],
) -> Result<DirectArena<P, T, S>, DecodeError>
where
    P::Gen: GenerationCodec,
    requires { S.items stack ≡ [] }
    ensures read { Gives (λ arena. map (option_map (map_entry T.content)) arena.slots) result
        (whole (direct_arena_coding P.Inx.greatest P.Gen.width (S.limit stack) P.Gen.numbered
        T.coding).decoding bytes.now) }
    ensures limit { IfOk result (λ arena. arena.limit ≡ S.limit stack) }
{
    let (arena, rest) = decode_direct_arena(stack, alloc, bytes)?;
    if !rest.is_empty() {
        return Err(DecodeError::Malformed(Fault::Trailing, rest.len()));
    }
    Ok(arena)
}
