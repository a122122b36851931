//! The bytes that tell a type: how an impl of `Codec` gives them, and how they stand in a file.

ghost use Rattle.std.specs.Prelude.{◌≡◌, ◌<◌, ◌==◌, ◌++◌, ◌∷◌, [], false, length, get_or, OnOk, IfOk, IfErr};
ghost use Rattle.triple_arena_snapshot.specs.Coding.{Gives, MayFail};
ghost use Rattle.triple_arena_snapshot.specs.Marks.{behind};
ghost use Rattle.triple_arena_snapshot.specs.Shapes.{byte_at, counted, behind_shape};

use crate::codec::Codec;
use crate::fault::{DecodeError, Fault};
use std::alloc::Global;
use triple_arena_base::AllocError;

/// The byte at a place, from 0 on, of a shape that is a tag alone, which of a type of yours is 128 or more;
/// or how far past the shape's end the place is.
pub fn shape_alone(tag: u8, at: usize) -> Result<u8, usize>
    ensures { result ≡ byte_at (tag ∷ []) at }
{
    if at == 0 {
        return Ok(tag);
    }
    Err(at - 1)
}

/// So of a shape that is a tag, and behind it the shape of a type.
pub fn shape_over<T: Codec>(tag: u8, at: usize) -> Result<u8, usize>
    ensures { result ≡ byte_at (tag ∷ T.shape) at }
{
    if at == 0 {
        return Ok(tag);
    }
    T::shape_at(at - 1)
}

/// So of a shape that is a tag, and behind it the shapes of two types.
pub fn shape_over_both<A: Codec, B: Codec>(tag: u8, at: usize) -> Result<u8, usize>
    ensures { result ≡ byte_at (tag ∷ A.shape ++ B.shape) at }
{
    if at == 0 {
        return Ok(tag);
    }
    match A::shape_at(at - 1) {
        Ok(byte) => Ok(byte),
        Err(past) => B::shape_at(past),
    }
}

// The byte at a place of the shape of a value that stands within an arena, as these bytes tell; of the type alone, where there
// are none.
fn byte_within<T: Codec>(outer: &[u8], at: usize) -> Result<u8, usize>
    ensures { result ≡ byte_at (outer.now ++ T.shape) at }
{
    if at < outer.len() {
        return Ok(outer[at]);
    }
    T::shape_at(at - outer.len())
}

// Whether a shape ends at a place.
fn ends_at<T: Codec>(outer: &[u8], at: usize) -> bool
    ensures { result ≡ (at == length (outer.now ++ T.shape)) }
{
    match byte_within::<T>(outer, at) {
        Ok(_byte) => false,
        Err(past) => past == 0,
    }
}

// Whether this is the byte at a place of a shape.
fn has_byte<T: Codec>(outer: &[u8], at: usize, byte: u8) -> bool
    requires { at < length (outer.now ++ T.shape) }
    ensures { result ≡ (byte == get_or (outer.now ++ T.shape) at 0) }
{
    match byte_within::<T>(outer, at) {
        Ok(wanted) => byte == wanted,
        Err(_past) => false,
    }
}

// All bytes of a shape.
fn shape_of<T: Codec>(outer: &[u8], alloc: Global) -> Result<Vec<u8>, AllocError>
    ensures { IfOk result (λ shape. shape.items ≡ outer.now ++ T.shape) }
{
    let mut shape = Vec::new(alloc);
    'bytes: while let Ok(byte) = byte_within::<T>(outer, shape.len()) {
        byte.encode(&mut shape)?;
    }
    Ok(shape)
}

// Writes a shape, behind its count.
pub(crate) fn put_shape<T: Codec>(
    outer: &[u8],
    alloc: Global,
    out: &mut Vec<u8>,
) -> Result<(), AllocError>
    ensures { OnOk result (out.new.items ≡ out.old.items ++ counted (outer.now ++ T.shape)) }
{
    let shape = shape_of::<T>(outer, alloc)?;
    shape.len().encode(out)?;
    Ok(out.extend_from_slice(&shape)?)
}

// The bytes behind a shape and its count; or what is wrong where another stands.
pub(crate) fn behind_shape<'a, T: Codec>(
    outer: &[u8],
    alloc: Global,
    bytes: &'a [u8],
) -> Result<&'a [u8], DecodeError>
    ensures read { Gives (λ x. x.now) result (behind_shape (outer.now ++ T.shape) bytes.now) }
    ensures memory { IfErr result (λ e. MayFail false e) }
{
    let (count, rest) = usize::decode(alloc, bytes)?;
    if !ends_at::<T>(outer, count) {
        return Err(DecodeError::Malformed(Fault::Shape, bytes.len()));
    }
    behind_bytes::<T>(outer, count, rest)
}

// The bytes behind those of a shape, of which there are so many.
fn behind_bytes<'a, T: Codec>(
    outer: &[u8],
    count: usize,
    bytes: &'a [u8],
) -> Result<&'a [u8], DecodeError>
    requires { length (outer.now ++ T.shape) ≡ count }
    ensures read { Gives (λ x. x.now) result (behind (outer.now ++ T.shape) Fault.Shape bytes.now) }
    ensures memory { IfErr result (λ e. MayFail false e) }
{
    let mut rest = bytes;
    for at in 0..count {
        match rest {
            [] => return Err(DecodeError::Malformed(Fault::Cut, 0)),
            [b, after @ ..] => {
                if !has_byte::<T>(outer, at, *b) {
                    return Err(DecodeError::Malformed(Fault::Shape, rest.len()));
                }
                rest = after;
            }
        }
    }
    Ok(rest)
}
