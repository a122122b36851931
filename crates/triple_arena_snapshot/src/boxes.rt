//! What a box holds, as bytes.

ghost use Rattle.std.specs.Prelude.{◌∷◌, true};

use crate::codec::Codec;
use crate::fault::DecodeError;
use crate::shapes::shape_over;
use std::alloc::Global;
use triple_arena_base::AllocError;

/// The value alone.
impl<T: Codec + Drop> Codec for Box<T> {
    ghost Content = { T.Content };

    ghost content = { λ b. T.content b.value };

    ghost coding = { T.coding };

    ghost shape = { 42 ∷ T.shape };

    ghost asks = { true };

    fn shape_at(at: usize) -> Result<u8, usize> {
        shape_over::<T>(42, at)
    }

    fn encode(&self, out: &mut Vec<u8>) -> Result<(), AllocError> {
        (**self).encode(out)
    }

    fn decode(alloc: Global, bytes: &[u8]) -> Result<(Self, &[u8]), DecodeError> {
        let (value, rest) = T::decode(alloc, bytes)?;
        Ok((Box::new(alloc, value)?, rest))
    }
}
