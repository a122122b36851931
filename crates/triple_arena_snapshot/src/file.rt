//! The bytes of a file: a mark, a version, the shape of the value's type, how many bytes the value takes, these, and a checksum.

ghost use Rattle.std.specs.Prelude.{◌≡◌, ◌≢◌, ◌<◌, ◌≤◌, ◌^◌, ◌++◌, ℕ, List, get_or, false, Ok, Err, OnOk, IfOk, IfErr, IsErr, length};
ghost use Rattle.triple_arena_snapshot.specs.Coding.{Gives, MayFail};
ghost use Rattle.triple_arena_snapshot.specs.Marks.{behind};
ghost use Rattle.triple_arena_snapshot.specs.Files.{head_of, file_of, before, unsealed, sealed_in, payload_in, file_reading, at_offset, value_refusal, Loads};

use crate::checksum::crc32c;
use crate::codec::{Codec, from_bytes, to_bytes};
use crate::containers::split_front;
use crate::fault::{DecodeError, Fault, LoadError};
use crate::shapes::{behind_shape, put_shape};
use std::alloc::Global;
use triple_arena_base::AllocError;

/// The file of a value, as bytes.
pub fn to_file_bytes<T: Codec>(value: &T, alloc: Global) -> Result<Vec<u8>, AllocError>
    ensures written { IfOk result (λ v.
        v.items ≡ file_of T.shape (T.coding.encoding (T.content value.now))) }
    ensures fits { OnOk result (T.coding.fits (T.content value.now)) }
{
    let payload = to_bytes(value, alloc)?;
    let mut out = head_of::<T>(&[], payload.len(), alloc)?;
    out.extend_from_slice(&payload)?;
    let sum = crc32c(&out);
    sum.encode(&mut out)?;
    Ok(out)
}

/// The value whose file these bytes are, all of them; or the first fault, by its offset in the file, or
/// `Memory`; never `Read`.
pub fn from_file_bytes<T: Codec + Drop>(alloc: Global, bytes: &[u8]) -> Result<T, LoadError>
    ensures read { Loads T.content result
        (file_reading T.shape T.coding.decoding bytes.now) }
    // What was saved is loaded, unless memory is refused.
    ensures again { (k : T.Content) → T.coding.fits k
        → bytes.now ≡ file_of T.shape (T.coding.encoding k) → Loads T.content result (Ok k) }

    // What is wrong in front of the value, or with the checksum, is told whatever memory is left; and
    // each fault is, of a type whose values are read without memory.
    ensures front { (fault : Fault × ℕ)
        → at_offset (length bytes.now) (payload_in T.shape bytes.now) ≡ Err fault
        → result ≡ Err (LoadError.Malformed fault.0 fault.1) }
    ensures memory { T.asks ≡ false → IfErr result (λ e. e ≢ LoadError.Memory) }

    // A file of any value, of which up to four bytes side by side were changed, is refused.
    ensures change_found { (shape saved front burst other rest : List ℕ)
        → ((i : ℕ) → get_or burst i 0 < 256) → length burst ≡ length other → length burst ≤ 4
        → burst ≢ other → file_of shape saved ≡ front ++ (burst ++ rest)
        → bytes.now ≡ front ++ (other ++ rest) → IsErr result }
{
    read_file(alloc, bytes)
}

// The value whose file these bytes are.
pub(crate) fn read_file<T: Codec + Drop>(alloc: Global, bytes: &[u8]) -> Result<T, LoadError>
    ensures read { Loads T.content result
        (file_reading T.shape T.coding.decoding bytes.now) }
    ensures front { (fault : Fault × ℕ)
        → at_offset (length bytes.now) (payload_in T.shape bytes.now) ≡ Err fault
        → result ≡ Err (LoadError.Malformed fault.0 fault.1) }
    ensures memory { T.asks ≡ false → IfErr result (λ e. e ≢ LoadError.Memory) }
    ensures few { length bytes.now < 2 ^ 64 }
    ensures small { (i : ℕ) → get_or bytes.now i 0 < 256 }
{
    let payload = payload_of::<T>(&[], alloc, bytes)?;
    match from_bytes(alloc, payload) {
        Ok(value) => Ok(value),
        Err(refusal) => Err(in_value(refusal, bytes.len())),
    }
}

// What stands in front of so many bytes of a value.
pub(crate) fn head_of<T: Codec>(
    outer: &[u8],
    count: usize,
    alloc: Global,
) -> Result<Vec<u8>, AllocError>
    ensures { IfOk result (λ v. v.items ≡ head_of (outer.now ++ T.shape) count) }
{
    let mut head = Vec::new(alloc);
    head.extend_from_slice(b"triarena")?;
    head.extend_from_slice(&[2])?;
    put_shape::<T>(outer, alloc, &mut head)?;
    count.encode(&mut head)?;
    Ok(head)
}

// The refusal of a value's bytes, by its offset in the file, which has so many.
pub(crate) fn in_value(refusal: DecodeError, file: usize) -> LoadError
    ensures { result ≡ value_refusal file refusal }
{
    match refusal {
        DecodeError::Memory => LoadError::Memory,
        DecodeError::Malformed(fault, left) => {
            LoadError::Malformed(fault, file.saturating_sub(4).saturating_sub(left))
        }
    }
}

// The value's bytes in a file; or the first fault, by its offset.
pub(crate) fn payload_of<'a, T: Codec>(
    outer: &[u8],
    alloc: Global,
    bytes: &'a [u8],
) -> Result<&'a [u8], LoadError>
    ensures read { Loads (λ x. x.now) result
        (at_offset (length bytes.now) (payload_in (outer.now ++ T.shape) bytes.now)) }
    ensures memory { IfErr result (λ e. e ≢ LoadError.Memory) }
    ensures few { length bytes.now < 2 ^ 64 }
    ensures small { (i : ℕ) → get_or bytes.now i 0 < 256 }
{
    // There are no more than fit.
    let _len = bytes.len();
    match payload_in::<T>(outer, alloc, bytes) {
        Ok(payload) => Ok(payload),
        Err(DecodeError::Memory) => Err(LoadError::Memory),
        Err(DecodeError::Malformed(fault, left)) => Err(LoadError::Malformed(
            fault,
            bytes.len().saturating_sub(left),
        )),
    }
}

fn payload_in<'a, T: Codec>(
    outer: &[u8],
    alloc: Global,
    bytes: &'a [u8],
) -> Result<&'a [u8], DecodeError>
    ensures read { Gives (λ x. x.now) result (payload_in (outer.now ++ T.shape) bytes.now) }
    ensures memory { IfErr result (λ e. MayFail false e) }
{
    let marked = behind(bytes, b"triarena", Fault::Mark)?;
    let rest = behind(marked, &[2], Fault::Version)?;
    let shaped = behind_shape::<T>(outer, alloc, rest)?;
    sealed_in(alloc, bytes, shaped)
}

// The bytes behind these, which stand at the front.
fn behind<'a>(bytes: &'a [u8], marked: &[u8], fault: Fault) -> Result<&'a [u8], DecodeError>
    ensures read { Gives (λ x. x.now) result (behind marked.now fault bytes.now) }
    ensures memory { IfErr result (λ e. MayFail false e) }
{
    let mut rest = bytes;
    for m in marked {
        match rest {
            [] => return Err(DecodeError::Malformed(Fault::Cut, 0)),
            [b, after @ ..] => {
                if b != m {
                    return Err(DecodeError::Malformed(fault, rest.len()));
                }
                rest = after;
            }
        }
    }
    Ok(rest)
}

// The value's bytes, behind their count and in front of the checksum, which ends the file.
fn sealed_in<'a>(alloc: Global, file: &[u8], bytes: &'a [u8]) -> Result<&'a [u8], DecodeError>
    ensures read { Gives (λ x. x.now) result (sealed_in file.now bytes.now) }
    ensures memory { IfErr result (λ e. MayFail false e) }
{
    let (count, rest) = usize::decode(alloc, bytes)?;
    let (payload, behind) = split_front(rest, count)?;
    unsealed(alloc, file, payload, behind)
}

// These bytes of a file, if behind them stands the checksum of all before it, and nothing behind that.
fn unsealed<'a>(
    alloc: Global,
    file: &[u8],
    payload: &'a [u8],
    behind: &[u8],
) -> Result<&'a [u8], DecodeError>
    ensures read { Gives (λ x. x.now) result (unsealed file.now payload.now behind.now) }
    ensures memory { IfErr result (λ e. MayFail false e) }
{
    let (sum, rest) = u32::decode(alloc, behind)?;
    if sum != crc32c(before(file, behind)) {
        return Err(DecodeError::Malformed(Fault::Sum, behind.len()));
    }
    if !rest.is_empty() {
        return Err(DecodeError::Malformed(Fault::Trailing, rest.len()));
    }
    Ok(payload)
}

// The bytes of a file in front of the last ones.
fn before<'a>(file: &'a [u8], rest: &[u8]) -> &'a [u8]
    ensures { result.now ≡ before file.now rest.now }
{
    &file[..file.len().saturating_sub(rest.len())]
}
