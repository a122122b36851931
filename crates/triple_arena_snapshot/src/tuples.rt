//! Three and four values as bytes, one after another.

ghost use Rattle.std.specs.Prelude.{◌∷◌, ◌++◌, ◌||◌};
ghost use Rattle.triple_arena_snapshot.specs.Layouts.{both};

use crate::codec::Codec;
use crate::fault::DecodeError;
use crate::shapes::shape_over_both;
use std::alloc::Global;
use triple_arena_base::AllocError;

/// Each in order.
impl<A: Codec + Drop, B: Codec + Drop, C: Codec> Codec for (A, B, C) {
    ghost Content = { A.Content × (B.Content × C.Content) };

    ghost content = { λ t. (A.content t.0, (B.content t.1, C.content t.2)) };

    ghost coding = { both A.coding (both B.coding C.coding) };

    ghost shape = { 40 ∷ A.shape ++ 22 ∷ B.shape ++ C.shape };

    ghost asks = { A.asks || B.asks || C.asks };

    fn shape_at(at: usize) -> Result<u8, usize> {
        shape_over_both::<A, (B, C)>(40, at)
    }

    fn encode(&self, out: &mut Vec<u8>) -> Result<(), AllocError> {
        self.0.encode(out)?;
        self.1.encode(out)?;
        self.2.encode(out)
    }

    fn decode(alloc: Global, bytes: &[u8]) -> Result<(Self, &[u8]), DecodeError> {
        let (first, rest) = A::decode(alloc, bytes)?;
        let (second, rest) = B::decode(alloc, rest)?;
        let (third, rest) = C::decode(alloc, rest)?;
        Ok(((first, second, third), rest))
    }
}

/// Each in order.
impl<A: Codec + Drop, B: Codec + Drop, C: Codec + Drop, D: Codec> Codec for (A, B, C, D) {
    ghost Content = { A.Content × (B.Content × (C.Content × D.Content)) };

    ghost content = { λ t. (A.content t.0, (B.content t.1, (C.content t.2, D.content t.3))) };

    ghost coding = { both A.coding (both B.coding (both C.coding D.coding)) };

    ghost shape = { 41 ∷ A.shape ++ 40 ∷ B.shape ++ 22 ∷ C.shape ++ D.shape };

    ghost asks = { A.asks || B.asks || C.asks || D.asks };

    fn shape_at(at: usize) -> Result<u8, usize> {
        shape_over_both::<A, (B, C, D)>(41, at)
    }

    fn encode(&self, out: &mut Vec<u8>) -> Result<(), AllocError> {
        self.0.encode(out)?;
        self.1.encode(out)?;
        self.2.encode(out)?;
        self.3.encode(out)
    }

    fn decode(alloc: Global, bytes: &[u8]) -> Result<(Self, &[u8]), DecodeError> {
        let (first, rest) = A::decode(alloc, bytes)?;
        let (second, rest) = B::decode(alloc, rest)?;
        let (third, rest) = C::decode(alloc, rest)?;
        let (fourth, rest) = D::decode(alloc, rest)?;
        Ok(((first, second, third, fourth), rest))
    }
}
