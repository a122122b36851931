//! The values of std's types that hold others, and text, as bytes.

ghost use Rattle.std.specs.Prelude.{◌≡◌, ℕ, ◌^◌, ◌++◌, Bool, List, Option, OnOk, map, ◌∷◌, [], true, false, ◌||◌, IfErr};
ghost use Rattle.std.specs.Option.{option_map};
ghost use Rattle.std.specs.List.{flat_map, AllByRecursion};
ghost use Rattle.std.specs.String.{string_bytes};
ghost use Rattle.triple_arena_snapshot.specs.Coding.{Gives, MayFail};
ghost use Rattle.triple_arena_snapshot.specs.Codings.{front_of, many_at_front};
ghost use Rattle.triple_arena_snapshot.specs.Layouts.{unit, bool, option, both, list, text};

use crate::codec::Codec;
use crate::fault::{DecodeError, Fault};
use crate::shapes::{shape_alone, shape_over, shape_over_both};
use std::alloc::Global;
use triple_arena_base::AllocError;

/// A byte 0, so that each value has a byte, and a count is at most the bytes behind it.
impl Codec for () {
    ghost Content = { Unit {0} };

    ghost content = { λ u. u };

    ghost coding = { unit };

    ghost shape = { 19 ∷ [] };

    ghost asks = { false };

    fn shape_at(at: usize) -> Result<u8, usize> {
        shape_alone(19, at)
    }

    fn encode(&self, out: &mut Vec<u8>) -> Result<(), AllocError> {
        0u8.encode(out)
    }

    fn decode(_alloc: Global, bytes: &[u8]) -> Result<(Self, &[u8]), DecodeError> {
        match bytes {
            [] => Err(DecodeError::Malformed(Fault::Cut, 0)),
            [0, rest @ ..] => Ok(((), rest)),
            [_, ..] => Err(DecodeError::Malformed(Fault::Flag, bytes.len())),
        }
    }
}

/// A byte, 1 for true and 0 for false.
impl Codec for bool {
    ghost Content = { Bool };

    ghost content = { λ b. b };

    ghost coding = { bool };

    ghost shape = { 20 ∷ [] };

    ghost asks = { false };

    fn shape_at(at: usize) -> Result<u8, usize> {
        shape_alone(20, at)
    }

    fn encode(&self, out: &mut Vec<u8>) -> Result<(), AllocError> {
        match self {
            false => 0u8.encode(out),
            true => 1u8.encode(out),
        }
    }

    fn decode(_alloc: Global, bytes: &[u8]) -> Result<(Self, &[u8]), DecodeError> {
        match bytes {
            [] => Err(DecodeError::Malformed(Fault::Cut, 0)),
            [0, rest @ ..] => Ok((false, rest)),
            [1, rest @ ..] => Ok((true, rest)),
            [_, ..] => Err(DecodeError::Malformed(Fault::Flag, bytes.len())),
        }
    }
}

/// A byte 0, or a byte 1 and the value.
impl<T: Codec> Codec for Option<T> {
    ghost Content = { Option T.Content };

    ghost content = { option_map T.content };

    ghost coding = { option T.coding };

    ghost shape = { 21 ∷ T.shape };

    ghost asks = { T.asks };

    fn shape_at(at: usize) -> Result<u8, usize> {
        shape_over::<T>(21, at)
    }

    fn encode(&self, out: &mut Vec<u8>) -> Result<(), AllocError> {
        match self {
            None => 0u8.encode(out),
            Some(value) => {
                1u8.encode(out)?;
                value.encode(out)
            }
        }
    }

    fn decode(alloc: Global, bytes: &[u8]) -> Result<(Self, &[u8]), DecodeError> {
        match bytes {
            [] => Err(DecodeError::Malformed(Fault::Cut, 0)),
            [0, rest @ ..] => Ok((None, rest)),
            [1, rest @ ..] => {
                let (value, rest) = T::decode(alloc, rest)?;
                Ok((Some(value), rest))
            }
            [_, ..] => Err(DecodeError::Malformed(Fault::Flag, bytes.len())),
        }
    }
}

/// The first value and then the second.
impl<A: Codec + Drop, B: Codec> Codec for (A, B) {
    ghost Content = { A.Content × B.Content };

    ghost content = { λ p. (A.content p.0, B.content p.1) };

    ghost coding = { both A.coding B.coding };

    ghost shape = { 22 ∷ A.shape ++ B.shape };

    ghost asks = { A.asks || B.asks };

    fn shape_at(at: usize) -> Result<u8, usize> {
        shape_over_both::<A, B>(22, at)
    }

    fn encode(&self, out: &mut Vec<u8>) -> Result<(), AllocError> {
        self.0.encode(out)?;
        self.1.encode(out)
    }

    fn decode(alloc: Global, bytes: &[u8]) -> Result<(Self, &[u8]), DecodeError> {
        let (first, rest) = A::decode(alloc, bytes)?;
        let (second, rest) = B::decode(alloc, rest)?;
        Ok(((first, second), rest))
    }
}

/// How many there are, in eight bytes, and then each.
impl<T: Codec + Drop> Codec for Vec<T> {
    ghost Content = { List T.Content };

    ghost content = { λ v. map T.content v.items };

    ghost coding = { list T.coding };

    ghost shape = { 23 ∷ T.shape };

    ghost asks = { true };

    fn shape_at(at: usize) -> Result<u8, usize> {
        shape_over::<T>(23, at)
    }

    fn encode(&self, out: &mut Vec<u8>) -> Result<(), AllocError> {
        self.len().encode(out)?;
        encode_all(self.as_slice(), out)
    }

    fn decode(alloc: Global, bytes: &[u8]) -> Result<(Self, &[u8]), DecodeError> {
        let (count, rest) = u64::decode(alloc, bytes)?;
        decode_many(alloc, count, rest)
    }
}

/// How many bytes of UTF-8 there are, in eight bytes, and then they.
impl Codec for String {
    ghost Content = { List ℕ };

    ghost content = { string_bytes };

    ghost coding = { text };

    ghost shape = { 24 ∷ [] };

    ghost asks = { true };

    fn shape_at(at: usize) -> Result<u8, usize> {
        shape_alone(24, at)
    }

    fn encode(&self, out: &mut Vec<u8>) -> Result<(), AllocError> {
        self.len().encode(out)?;
        Ok(out.extend_from_slice(self.as_bytes())?)
    }

    fn decode(alloc: Global, bytes: &[u8]) -> Result<(Self, &[u8]), DecodeError> {
        let (count, rest) = usize::decode(alloc, bytes)?;
        let (front, behind) = split_front(rest, count)?;
        match String::from_utf8(Vec::from_slice(alloc, front)?) {
            Ok(text) => Ok((text, behind)),
            Err(_) => Err(DecodeError::Malformed(Fault::Text, rest.len())),
        }
    }
}

/// The first bytes, so many, and those behind them.
pub(crate) fn split_front(bytes: &[u8], count: usize) -> Result<(&[u8], &[u8]), DecodeError>
    ensures read { Gives (λ x. (x.0.now, x.1.now)) result (front_of count bytes.now) }
    ensures memory { IfErr result (λ e. MayFail false e) }
{
    if bytes.len() < count {
        return Err(DecodeError::Malformed(Fault::Cut, bytes.len()));
    }
    Ok(bytes.split_at(count))
}

/// Writes each value, in order.
pub(crate) fn encode_all<T: Codec>(values: &[T], out: &mut Vec<u8>) -> Result<(), AllocError>
    ensures written { OnOk result (out.new.items
        ≡ out.old.items ++ flat_map T.coding.encoding (map T.content values.now)) }
    ensures fits { OnOk result (AllByRecursion T.coding.fits (map T.content values.now)) }
{
    for value in values {
        value.encode(out)?;
    }
    Ok(())
}

/// So many values, and the bytes behind them. Room is made value by value, each from bytes that are
/// there.
fn decode_many<T: Codec + Drop>(
    alloc: Global,
    count: u64,
    bytes: &[u8],
) -> Result<(Vec<T>, &[u8]), DecodeError>
    ensures { Gives (λ x. (map T.content x.0.items, x.1.now)) result
        (many_at_front T.coding.decoding count bytes.now) }
{
    let mut values = Vec::new(alloc);
    let mut rest = bytes;
    for _ in 0..count {
        let (value, after) = T::decode(alloc, rest)?;
        values.push(value)?;
        rest = after;
    }
    Ok((values, rest))
}
