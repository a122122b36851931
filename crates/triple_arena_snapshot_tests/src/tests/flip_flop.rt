//! A struct of three fields that is written as bytes and read back.

ghost use Rattle.std.specs.Prelude.{◌≡◌, ◌^◌, ◌∷◌, ℕ, true, List, [], Option, map, suc};
ghost use Rattle.std.specs.Int.{w64};
ghost use Rattle.std.specs.Option.{option_map};
ghost use Rattle.triple_arena_ptr.specs.Pointers.{Pointer};
ghost use Rattle.triple_arena_snapshot.specs.Layouts.{both, list, number, option, pointer};
ghost use Rattle.triple_arena_snapshot.specs.laws.CodingLaws.{wide64};

use std::alloc::Global;
use triple_arena_base::AllocError;
use triple_arena_ptr::P0;
use triple_arena_snapshot::{Codec, DecodeError, shape_over};

/// A flip-flop: what drives it, its clock, and how often it was switched.
#[derive(Debug, PartialEq, Drop)]
pub struct FlipFlop {
    pub inputs: Vec<P0>,
    pub clock: Option<P0>,
    pub switched: u64,
}

impl Codec for FlipFlop {
    ghost Content = { List Pointer × (Option Pointer × ℕ) };

    ghost content = { λ f. (
      map (λ p. (suc p.0, suc p.1)) f.inputs.items,
      (option_map (λ p. (suc p.0, suc p.1)) f.clock, f.switched),
    ) };

    ghost coding = { let wide = number w64 (2 ^ 64) wide64 in
        let p0 = pointer wide wide in
        both (list p0) (both (option p0) wide) };

    ghost shape = { 130 ∷ 22 ∷ 23 ∷ 25 ∷ 22 ∷ 21 ∷ 25 ∷ 4 ∷ [] };

    ghost asks = { true };

    fn shape_at(at: usize) -> Result<u8, usize> {
        shape_over::<(Vec<P0>, (Option<P0>, u64))>(130, at)
    }

    fn encode(&self, out: &mut Vec<u8>) -> Result<(), AllocError> {
        self.inputs.encode(out)?;
        self.clock.encode(out)?;
        self.switched.encode(out)
    }

    fn decode(alloc: Global, bytes: &[u8]) -> Result<(Self, &[u8]), DecodeError> {
        match <(Vec<P0>, (Option<P0>, u64)) as Codec>::decode(alloc, bytes) {
            Ok(((inputs, (clock, switched)), rest)) => Ok((
                FlipFlop {
                    inputs,
                    clock,
                    switched,
                },
                rest,
            )),
            Err(refusal) => Err(refusal),
        }
    }
}
