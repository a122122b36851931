//! Values that can be written as bytes and read back.

ghost use Rattle.std.specs.Prelude.{◌≡◌, ◌++◌, Bool, List, ℕ, Ok, OnOk, IfOk, IfErr};
ghost use Rattle.triple_arena_snapshot.specs.Coding.{Coding, Gives, MayFail, whole};
ghost use Rattle.triple_arena_snapshot.specs.Shapes.{byte_at};

use crate::fault::{DecodeError, Fault};
use std::alloc::Global;
use triple_arena_base::AllocError;

/// A value that can be written as bytes and read back.
///
/// Of a value its `content` is written: the value without where it lies in memory. The `coding` says
/// which bytes a content has and what is read of bytes, and has the law that ties both. What of a value
/// its content leaves out doesn't come back.
///
/// A file tells of which type its value is by the `shape`: a byte of the type's own, which is 128 or more
/// of types that this crate doesn't have, and behind it the shapes of the types of which it is made. Its
/// `asks` says whether reading a value asks for memory.
pub trait Codec {
    // what is written of a value, and of what type that is
    ghost Content: { Type 0 };

    ghost content: { Self → Content };

    // how contents stand as bytes
    ghost coding: { Coding Content };

    // the bytes that tell the type: one of its own, and behind it the shapes of its parts
    ghost shape: { List ℕ };

    // whether reading a value asks for memory
    ghost asks: { Bool };

    /// The byte of the shape at this place, from 0 on; or how far past the shape's end the place is.
    fn shape_at(at: usize) -> Result<u8, usize>
        ensures shaped { result ≡ byte_at shape at };

    /// Writes the value's bytes at the end of `out`. Where memory is refused, nothing is said of what
    /// stands there.
    fn encode(&self, out: &mut Vec<u8>) -> Result<(), AllocError>
        ensures written { OnOk result
            (out.new.items ≡ out.old.items ++ coding.encoding (content self.now)) }
        ensures fits { OnOk result (coding.fits (content self.now)) };

    /// The value at the front of the bytes, and the bytes behind it; or the first fault, by how many bytes
    /// are left where it is; or `Memory`, which a type whose `asks` is false never answers.
    fn decode(alloc: Global, bytes: &[u8]) -> Result<(Self, &[u8]), DecodeError>
        ensures read { Gives (λ x. (content x.0, x.1.now)) result (coding.decoding bytes.now) }
        ensures memory { IfErr result (λ e. MayFail asks e) };
}

/// The bytes of a value.
pub fn to_bytes<T: Codec>(value: &T, alloc: Global) -> Result<Vec<u8>, AllocError>
    ensures written { IfOk result (λ v. v.items ≡ T.coding.encoding (T.content value.now)) }
    ensures fits { OnOk result (T.coding.fits (T.content value.now)) }
{
    let mut out = Vec::new(alloc);
    value.encode(&mut out)?;
    Ok(out)
}

/// The value whose bytes these are, all of them; or the first fault, by how many bytes are left where it
/// is; or `Memory`, which a type whose `asks` is false never answers.
pub fn from_bytes<T: Codec + Drop>(alloc: Global, bytes: &[u8]) -> Result<T, DecodeError>
    ensures read { Gives T.content result (whole T.coding.decoding bytes.now) }
    // What was written is read again, unless memory is refused.
    ensures again { (k : T.Content) → T.coding.fits k → bytes.now ≡ T.coding.encoding k
        → Gives T.content result (Ok k) }
    ensures memory { IfErr result (λ e. MayFail T.asks e) }
{
    read_whole(alloc, bytes)
}

fn read_whole<T: Codec + Drop>(alloc: Global, bytes: &[u8]) -> Result<T, DecodeError>
    ensures read { Gives T.content result (whole T.coding.decoding bytes.now) }
    ensures memory { IfErr result (λ e. MayFail T.asks e) }
{
    let (value, rest) = T::decode(alloc, bytes)?;
    if !rest.is_empty() {
        return Err(DecodeError::Malformed(Fault::Trailing, rest.len()));
    }
    Ok(value)
}
