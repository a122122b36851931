//! Strict arenas in files: each ends where it is saved, and goes on where its file is loaded.

ghost use Rattle.std.specs.Prelude.{◌≡◌, ◌≢◌, ◌<◌, ◌≤◌, ◌^◌, ◌++◌, ℕ, length, get_or, List, Option, Some, Ok, [], true, OnOk, IfOk, IfErr, IfSome, IsErr};
ghost use Rattle.std.specs.Io.KnownBytes.{Appends, IsAtEnd};
ghost use Rattle.std.specs.Option.{option_map};
ghost use Rattle.triple_arena_ptr.specs.Pointers.{Pointer};
ghost use Rattle.triple_arena_traits.specs.Entries.{look_up};
ghost use Rattle.triple_arena_traits.specs.ArenaState.{ArenaState};
ghost use Rattle.triple_arena_traits.specs.Insertion.{next_pointer};
ghost use Rattle.triple_arena_traits.specs.Walks.{keys};
ghost use Rattle.triple_arena_traits.specs.Histories.{begun_with, Fits, Continues};
ghost use Rattle.triple_arena_direct.specs.Gone.{IsGoneForGood};
ghost use Rattle.triple_arena_snapshot.specs.Coding.{Gives, whole};
ghost use Rattle.triple_arena_snapshot.specs.StrictFiles.{strict_arena_coding};
ghost use Rattle.triple_arena_snapshot.specs.Shapes.{strict_arena_shape};
ghost use Rattle.triple_arena_snapshot.specs.ArenaCodings.{arena_content};
ghost use Rattle.triple_arena_snapshot.specs.Files.{file_of, file_reading, SaveFails, Loads, LoadsFrom};

use crate::arenas::decode_arena;
use crate::codec::Codec;
use crate::fault::{DecodeError, Fault, LoadError, SaveError};
use crate::file::{in_value, payload_of};
use crate::generations::GenerationCodec;
use crate::laws::read_answers_as_written;
use crate::loading::read_all;
use crate::saving::save_arena_as;
use std::alloc::Global;
use std::io::{Read, Write};
use triple_arena::{ArenaSlot, NonZeroInxGenericStack};
use triple_arena_direct::{Leaving, StrictArena, into_arena, into_strict};
use triple_arena_ptr::Ptr;

/// What is saved by value, so that it ends where its file is written: strict arenas, over any stack.
/// Callers have [`save_strict_arena`], a function, as they have of every way out of a strict arena.
pub trait SavedStrictly<P: Ptr, T>: Leaving<P, T> {
    /// Writes its file, as [`save_strict_arena`] does.
    fn write_file<W: Write>(&self, alloc: Global, output: &mut W) -> Result<(), SaveError>
    where
        T: Codec,
        P::Gen: GenerationCodec,
        ensures written { OnOk result (Appends (W.contents output.old) (W.contents output.new)
            (file_of (strict_arena_shape T.shape) ((strict_arena_coding P.Gen.generations.counting
            P.Inx.greatest P.Gen.width (Self.state self.now).limit P.Gen.numbered T.coding).encoding
            (arena_content T.content (Self.state self.now))))) }
        ensures fits { OnOk result ((strict_arena_coding P.Gen.generations.counting P.Inx.greatest
            P.Gen.width (Self.state self.now).limit P.Gen.numbered T.coding).fits
            (arena_content T.content (Self.state self.now))) }
        ensures refused { IfErr result (λ e. SaveFails e (W.contents output.old) (W.contents output.new)
            (file_of (strict_arena_shape T.shape) ((strict_arena_coding P.Gen.generations.counting
            P.Inx.greatest P.Gen.width (Self.state self.now).limit P.Gen.numbered T.coding).encoding
            (arena_content T.content (Self.state self.now))))) };
}

impl<P: Ptr, T, S: NonZeroInxGenericStack<ArenaSlot<P, T>>> SavedStrictly<P, T>
    for StrictArena<P, T, S> {
    fn write_file<W: Write>(&self, alloc: Global, output: &mut W) -> Result<(), SaveError>
    where
        T: Codec,
        P::Gen: GenerationCodec,
    {
        // A history can begin with its pointers: so none is past the counter.
        let _counter = self.generation();
        save_arena_as(&[39], self.arena(), alloc, output)
    }
}

/// Writes the file of a strict arena, which ends here, and goes on where the file is loaded, by
/// [`load_strict_arena`]. The value's bytes are those of the arena inside, as
/// [`crate::save_arena`] writes them, but the file tells that it is a strict one; the arena inside comes
/// back, as [`into_arena`] gives it, for who has a use for its values yet.
///
/// Refused as there; then the strict arena comes back as it was.
pub fn save_strict_arena<P: Ptr, T: Codec, A: SavedStrictly<P, T>, W: Write>(
    strict: A,
    alloc: Global,
    output: &mut W,
) -> Result<A::Arena, (A, SaveError)>
where
    P::Gen: GenerationCodec,
    // Done: the file of the arena inside is written, which fits, and that arena comes back.
    ensures written { OnOk result (Appends (W.contents output.old) (W.contents output.new)
        (file_of (strict_arena_shape T.shape) ((strict_arena_coding P.Gen.generations.counting
        P.Inx.greatest P.Gen.width (A.state strict).limit P.Gen.numbered T.coding).encoding
        (arena_content T.content (A.state strict))))) }
    ensures fits { OnOk result ((strict_arena_coding P.Gen.generations.counting P.Inx.greatest
        P.Gen.width (A.state strict).limit P.Gen.numbered T.coding).fits
        (arena_content T.content (A.state strict))) }
    ensures inside { IfOk result (λ arena. A.inside arena ≡ A.state strict) }

    // Refused: the strict arena comes back as it was, and the error tells how much was written.
    ensures refused { IfErr result (λ old. A.state old.0 ≡ A.state strict) }
    ensures cut { IfErr result (λ old. SaveFails old.1 (W.contents output.old) (W.contents output.new)
        (file_of (strict_arena_shape T.shape) ((strict_arena_coding P.Gen.generations.counting
        P.Inx.greatest P.Gen.width (A.state strict).limit P.Gen.numbered T.coding).encoding
        (arena_content T.content (A.state strict))))) }
{
    match strict.write_file(alloc, output) {
        Ok(()) => Ok(into_arena(strict)),
        Err(refusal) => Err((strict, refusal)),
    }
}

/// The strict arena whose file the reader has left, over a stack without items, whose limit it has. It
/// goes on as the one that was saved: each pointer finds what it found (`found`), what was
/// gone for good is (`gone`), the next insertion gives the same pointer (`next`), and each history that
/// fitted fits (`history`).
///
/// Of any file, what is read of it is said (`read`), and a history can begin with the pointers loaded
/// (`begun`): none of them is given again. What was given before is promised only of one load of a file
/// that [`save_strict_arena`] wrote: two loads of one file give the same pointers, and so does the arena that
/// came back, made strict again. Where the stack has another limit than that of the arena that was saved,
/// [`crate::laws::fits_under_another_limit`] tells what fits.
///
/// Refused as [`crate::load_arena`], with `Shape` where [`crate::save_arena`] wrote the file: load that
/// there, and pass it to [`into_strict`]. And then with `Counter`, at the offset of the value's first byte,
/// where generations count and an entry is of one past the counter.
pub fn load_strict_arena<
    P: Ptr,
    T: Codec + Drop,
    S: NonZeroInxGenericStack<ArenaSlot<P, T>> + Drop,
    R: Read,
>(stack: S, alloc: Global, input: &mut R) -> Result<StrictArena<P, T, S>, LoadError>
where
    P::Gen: GenerationCodec,
    requires { S.items stack ≡ [] }
    // What is read of any file.
    ensures read { IfSome (R.remaining input.old) (λ bytes. LoadsFrom (arena_content T.content) result
        (file_reading (strict_arena_shape T.shape) (strict_arena_coding P.Gen.generations.counting
        P.Inx.greatest P.Gen.width (S.limit stack) P.Gen.numbered T.coding).decoding bytes)) }

    // What was saved is loaded, unless memory is refused or the reader fails.
    ensures again { (k : List (Option (ℕ × T.Content)) × (ℕ × List ℕ))
        → (strict_arena_coding P.Gen.generations.counting P.Inx.greatest P.Gen.width
        (S.limit stack) P.Gen.numbered T.coding).fits k
        → R.remaining input.old ≡ Some (file_of (strict_arena_shape T.shape)
        ((strict_arena_coding P.Gen.generations.counting P.Inx.greatest P.Gen.width (S.limit stack)
        P.Gen.numbered T.coding).encoding k))
        → LoadsFrom (arena_content T.content) result (Ok k) }

    // A file of any value, of which up to four bytes side by side were changed, is refused.
    ensures change_found { (shape saved front burst other rest : List ℕ)
        → ((i : ℕ) → get_or burst i 0 < 256) → length burst ≡ length other → length burst ≤ 4
        → burst ≢ other → file_of shape saved ≡ front ++ (burst ++ rest)
        → R.remaining input.old ≡ Some (front ++ (other ++ rest)) → IsErr result }

    // Loaded: the limit is that of the stack, and the reader is at its end.
    ensures limit { IfOk result (λ strict. strict.limit ≡ S.limit stack) }
    ensures end { OnOk result (IsAtEnd (R.remaining input.new)) }

    // Loaded of what was saved: each pointer finds what it found, the next insertion gives the same pointer,
    // what was gone for good is, and each history that fitted fits.
    ensures found { (saved : ArenaState T)
        → (strict_arena_coding P.Gen.generations.counting P.Inx.greatest P.Gen.width (S.limit stack)
        P.Gen.numbered T.coding).fits (arena_content T.content saved)
        → R.remaining input.old ≡ Some (file_of (strict_arena_shape T.shape)
        ((strict_arena_coding P.Gen.generations.counting P.Inx.greatest P.Gen.width (S.limit stack)
        P.Gen.numbered T.coding).encoding (arena_content T.content saved)))
        → IfOk result (λ strict. (q : Pointer)
        → option_map T.content (look_up strict.slots q) ≡ option_map T.content (look_up saved.slots q)) }
    ensures next { (saved : ArenaState T)
        → (strict_arena_coding P.Gen.generations.counting P.Inx.greatest P.Gen.width (S.limit stack)
        P.Gen.numbered T.coding).fits (arena_content T.content saved)
        → R.remaining input.old ≡ Some (file_of (strict_arena_shape T.shape)
        ((strict_arena_coding P.Gen.generations.counting P.Inx.greatest P.Gen.width (S.limit stack)
        P.Gen.numbered T.coding).encoding (arena_content T.content saved)))
        → IfOk result (λ strict. next_pointer strict ≡ next_pointer saved) }
    ensures gone { (saved : ArenaState T)
        → (strict_arena_coding P.Gen.generations.counting P.Inx.greatest P.Gen.width (S.limit stack)
        P.Gen.numbered T.coding).fits (arena_content T.content saved)
        → R.remaining input.old ≡ Some (file_of (strict_arena_shape T.shape)
        ((strict_arena_coding P.Gen.generations.counting P.Inx.greatest P.Gen.width (S.limit stack)
        P.Gen.numbered T.coding).encoding (arena_content T.content saved)))
        → IfOk result (λ strict. (q : Pointer) → IsGoneForGood saved q → IsGoneForGood strict q) }
    ensures history { (saved : ArenaState T)
        → (strict_arena_coding P.Gen.generations.counting P.Inx.greatest P.Gen.width (S.limit stack)
        P.Gen.numbered T.coding).fits (arena_content T.content saved)
        → R.remaining input.old ≡ Some (file_of (strict_arena_shape T.shape)
        ((strict_arena_coding P.Gen.generations.counting P.Inx.greatest P.Gen.width (S.limit stack)
        P.Gen.numbered T.coding).encoding (arena_content T.content saved)))
        → IfOk result (λ strict. Continues Fits saved [] strict) }

    // Loaded of any file: a history can begin with the pointers that stand.
    ensures begun { P.Gen.generations.counting ≡ true
        → IfOk result (λ strict. Fits (begun_with (keys strict.slots)) strict) }
{
    // What is read answers as what was written.
    read_answers_as_written::<T>();
    match read_all(alloc, input) {
        Ok(bytes) => read_strict_arena_file(stack, alloc, &bytes),
        Err(refusal) => Err(refusal),
    }
}

/// The strict arena at the front of the bytes, over a stack that has no item, and the bytes behind it; or
/// the first fault, as [`crate::decode_arena`]; and then `Counter`, where generations count and an entry is
/// of one past the counter.
pub fn decode_strict_arena<
    P: Ptr,
    T: Codec + Drop,
    S: NonZeroInxGenericStack<ArenaSlot<P, T>> + Drop,
>(stack: S, alloc: Global, bytes: &[u8]) -> Result<(StrictArena<P, T, S>, &[u8]), DecodeError>
where
    P::Gen: GenerationCodec,
    requires { S.items stack ≡ [] }
    ensures read { Gives (λ x. (arena_content T.content x.0, x.1.now)) result
        ((strict_arena_coding P.Gen.generations.counting P.Inx.greatest P.Gen.width (S.limit stack)
        P.Gen.numbered T.coding).decoding bytes.now) }
    ensures limit { IfOk result (λ x. x.0.limit ≡ S.limit stack) }
    ensures begun { P.Gen.generations.counting ≡ true
        → IfOk result (λ x. Fits (begun_with (keys x.0.slots)) x.0) }
{
    let (arena, rest) = decode_arena(stack, alloc, bytes)?;
    match into_strict(arena) {
        Ok(strict) => Ok((strict, rest)),
        Err(_) => Err(DecodeError::Malformed(Fault::Counter, bytes.len())),
    }
}

// The strict arena whose file these bytes are.
fn read_strict_arena_file<
    P: Ptr,
    T: Codec + Drop,
    S: NonZeroInxGenericStack<ArenaSlot<P, T>> + Drop,
>(stack: S, alloc: Global, bytes: &[u8]) -> Result<StrictArena<P, T, S>, LoadError>
where
    P::Gen: GenerationCodec,
    requires { S.items stack ≡ [] }
    ensures read { Loads (arena_content T.content) result (file_reading (strict_arena_shape T.shape)
        (strict_arena_coding P.Gen.generations.counting P.Inx.greatest P.Gen.width (S.limit stack)
        P.Gen.numbered T.coding).decoding bytes.now) }
    ensures limit { IfOk result (λ strict. strict.limit ≡ S.limit stack) }
    ensures begun { P.Gen.generations.counting ≡ true
        → IfOk result (λ strict. Fits (begun_with (keys strict.slots)) strict) }
    ensures few { length bytes.now < 2 ^ 64 }
    ensures small { (i : ℕ) → get_or bytes.now i 0 < 256 }
{
    let payload = payload_of::<T>(&[39], alloc, bytes)?;
    match whole_strict_arena(stack, alloc, payload) {
        Ok(strict) => Ok(strict),
        Err(refusal) => Err(in_value(refusal, bytes.len())),
    }
}

// The strict arena whose bytes these are, all of them.
fn whole_strict_arena<P: Ptr, T: Codec + Drop, S: NonZeroInxGenericStack<ArenaSlot<P, T>> + Drop>(
    stack: S,
    alloc: Global,
    bytes: &[u8],
) -> Result<StrictArena<P, T, S>, DecodeError>
where
    P::Gen: GenerationCodec,
    requires { S.items stack ≡ [] }
    ensures read { Gives (arena_content T.content) result (whole
        (strict_arena_coding P.Gen.generations.counting P.Inx.greatest P.Gen.width (S.limit stack)
        P.Gen.numbered T.coding).decoding bytes.now) }
    ensures limit { IfOk result (λ strict. strict.limit ≡ S.limit stack) }
    ensures begun { P.Gen.generations.counting ≡ true
        → IfOk result (λ strict. Fits (begun_with (keys strict.slots)) strict) }
{
    let (strict, rest) = decode_strict_arena(stack, alloc, bytes)?;
    if !rest.is_empty() {
        return Err(DecodeError::Malformed(Fault::Trailing, rest.len()));
    }
    Ok(strict)
}
