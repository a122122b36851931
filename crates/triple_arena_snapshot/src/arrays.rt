//! Arrays as bytes. There is a block for each length, as the borrow checker covers no call that answers an
//! array whose length is a parameter beside a reference. Reading one asks for no memory of its own.

ghost use Rattle.std.specs.Prelude.{◌∷◌, List, map};
ghost use Rattle.triple_arena_snapshot.specs.Arrays.{array};

use crate::codec::Codec;
use crate::containers::encode_all;
use crate::fault::DecodeError;
use crate::shapes::shape_over;
use std::alloc::Global;
use triple_arena_base::AllocError;

/// Each in order.
impl<T: Codec + Drop> Codec for [T; 1] {
    ghost Content = { List T.Content };

    ghost content = { map T.content };

    ghost coding = { array 1 T.coding };

    ghost shape = { 51 ∷ T.shape };

    ghost asks = { T.asks };

    fn shape_at(at: usize) -> Result<u8, usize> {
        shape_over::<T>(51, at)
    }

    fn encode(&self, out: &mut Vec<u8>) -> Result<(), AllocError> {
        encode_all(self.as_slice(), out)
    }

    fn decode(alloc: Global, bytes: &[u8]) -> Result<(Self, &[u8]), DecodeError> {
        let (a, rest) = T::decode(alloc, bytes)?;
        Ok(([a], rest))
    }
}

/// Each in order.
impl<T: Codec + Drop> Codec for [T; 2] {
    ghost Content = { List T.Content };

    ghost content = { map T.content };

    ghost coding = { array 2 T.coding };

    ghost shape = { 52 ∷ T.shape };

    ghost asks = { T.asks };

    fn shape_at(at: usize) -> Result<u8, usize> {
        shape_over::<T>(52, at)
    }

    fn encode(&self, out: &mut Vec<u8>) -> Result<(), AllocError> {
        encode_all(self.as_slice(), out)
    }

    fn decode(alloc: Global, bytes: &[u8]) -> Result<(Self, &[u8]), DecodeError> {
        let (a, rest) = T::decode(alloc, bytes)?;
        let (b, rest) = T::decode(alloc, rest)?;
        Ok(([a, b], rest))
    }
}

/// Each in order.
impl<T: Codec + Drop> Codec for [T; 3] {
    ghost Content = { List T.Content };

    ghost content = { map T.content };

    ghost coding = { array 3 T.coding };

    ghost shape = { 53 ∷ T.shape };

    ghost asks = { T.asks };

    fn shape_at(at: usize) -> Result<u8, usize> {
        shape_over::<T>(53, at)
    }

    fn encode(&self, out: &mut Vec<u8>) -> Result<(), AllocError> {
        encode_all(self.as_slice(), out)
    }

    fn decode(alloc: Global, bytes: &[u8]) -> Result<(Self, &[u8]), DecodeError> {
        let (a, rest) = T::decode(alloc, bytes)?;
        let (b, rest) = T::decode(alloc, rest)?;
        let (c, rest) = T::decode(alloc, rest)?;
        Ok(([a, b, c], rest))
    }
}

/// Each in order.
impl<T: Codec + Drop> Codec for [T; 4] {
    ghost Content = { List T.Content };

    ghost content = { map T.content };

    ghost coding = { array 4 T.coding };

    ghost shape = { 54 ∷ T.shape };

    ghost asks = { T.asks };

    fn shape_at(at: usize) -> Result<u8, usize> {
        shape_over::<T>(54, at)
    }

    fn encode(&self, out: &mut Vec<u8>) -> Result<(), AllocError> {
        encode_all(self.as_slice(), out)
    }

    fn decode(alloc: Global, bytes: &[u8]) -> Result<(Self, &[u8]), DecodeError> {
        let (a, rest) = T::decode(alloc, bytes)?;
        let (b, rest) = T::decode(alloc, rest)?;
        let (c, rest) = T::decode(alloc, rest)?;
        let (d, rest) = T::decode(alloc, rest)?;
        Ok(([a, b, c, d], rest))
    }
}

/// Each in order.
impl<T: Codec + Drop> Codec for [T; 5] {
    ghost Content = { List T.Content };

    ghost content = { map T.content };

    ghost coding = { array 5 T.coding };

    ghost shape = { 55 ∷ T.shape };

    ghost asks = { T.asks };

    fn shape_at(at: usize) -> Result<u8, usize> {
        shape_over::<T>(55, at)
    }

    fn encode(&self, out: &mut Vec<u8>) -> Result<(), AllocError> {
        encode_all(self.as_slice(), out)
    }

    fn decode(alloc: Global, bytes: &[u8]) -> Result<(Self, &[u8]), DecodeError> {
        let ([a, b, c, d], rest) = <[T; 4] as Codec>::decode(alloc, bytes)?;
        let ([e], rest) = <[T; 1] as Codec>::decode(alloc, rest)?;
        Ok(([a, b, c, d, e], rest))
    }
}

/// Each in order.
impl<T: Codec + Drop> Codec for [T; 6] {
    ghost Content = { List T.Content };

    ghost content = { map T.content };

    ghost coding = { array 6 T.coding };

    ghost shape = { 56 ∷ T.shape };

    ghost asks = { T.asks };

    fn shape_at(at: usize) -> Result<u8, usize> {
        shape_over::<T>(56, at)
    }

    fn encode(&self, out: &mut Vec<u8>) -> Result<(), AllocError> {
        encode_all(self.as_slice(), out)
    }

    fn decode(alloc: Global, bytes: &[u8]) -> Result<(Self, &[u8]), DecodeError> {
        let ([a, b, c, d], rest) = <[T; 4] as Codec>::decode(alloc, bytes)?;
        let ([e, f], rest) = <[T; 2] as Codec>::decode(alloc, rest)?;
        Ok(([a, b, c, d, e, f], rest))
    }
}

/// Each in order.
impl<T: Codec + Drop> Codec for [T; 7] {
    ghost Content = { List T.Content };

    ghost content = { map T.content };

    ghost coding = { array 7 T.coding };

    ghost shape = { 57 ∷ T.shape };

    ghost asks = { T.asks };

    fn shape_at(at: usize) -> Result<u8, usize> {
        shape_over::<T>(57, at)
    }

    fn encode(&self, out: &mut Vec<u8>) -> Result<(), AllocError> {
        encode_all(self.as_slice(), out)
    }

    fn decode(alloc: Global, bytes: &[u8]) -> Result<(Self, &[u8]), DecodeError> {
        let ([a, b, c, d], rest) = <[T; 4] as Codec>::decode(alloc, bytes)?;
        let ([e, f, g], rest) = <[T; 3] as Codec>::decode(alloc, rest)?;
        Ok(([a, b, c, d, e, f, g], rest))
    }
}

/// Each in order.
impl<T: Codec + Drop> Codec for [T; 8] {
    ghost Content = { List T.Content };

    ghost content = { map T.content };

    ghost coding = { array 8 T.coding };

    ghost shape = { 58 ∷ T.shape };

    ghost asks = { T.asks };

    fn shape_at(at: usize) -> Result<u8, usize> {
        shape_over::<T>(58, at)
    }

    fn encode(&self, out: &mut Vec<u8>) -> Result<(), AllocError> {
        encode_all(self.as_slice(), out)
    }

    fn decode(alloc: Global, bytes: &[u8]) -> Result<(Self, &[u8]), DecodeError> {
        let ([a, b, c, d], rest) = <[T; 4] as Codec>::decode(alloc, bytes)?;
        let ([e, f, g, h], rest) = <[T; 4] as Codec>::decode(alloc, rest)?;
        Ok(([a, b, c, d, e, f, g, h], rest))
    }
}
