//! The way into a strict arena: an arena becomes one, and the promise begins with the pointers that stand.

ghost use Rattle.std.specs.Prelude.{◌≡◌, ◌&&◌, nat_lt, true, false, IfOk, OnOk, OnErr};
ghost use Rattle.std.specs.Result.{IfErr};
ghost use Rattle.triple_arena_traits.specs.ArenaState.{ArenaState};
ghost use Rattle.triple_arena_traits.specs.Walks.{keys};
ghost use Rattle.triple_arena_traits.specs.Histories.{begun_with, Fits};
ghost use Rattle.triple_arena_direct.specs.Gone.{is_any_past};

use super::StrictArena;
use std::cmp::Ordering;
use triple_arena::{Arena, ArenaSlot, ArenaTrait, CompactArenaTrait};
use triple_arena_ptr::{Ptr, PtrGen};
use triple_arena_stack::NonZeroInxGenericStack;

/// What is taken by value, so that a strict arena has it inside: arenas, over any stack. Callers have
/// [`into_strict`], as at [`Leaving`](super::leaving::Leaving).
pub trait Entering<P: Ptr, T>: Sized {
    /// The strict arena.
    type Strict;

    // what is in the arena
    ghost inside: { Self → ArenaState T };

    // what is in the strict arena
    ghost state: { Self.Strict → ArenaState T };

    /// As [`into_strict`].
    fn close(self) -> Result<Self::Strict, Self>
        // Done: inside is the arena as it is. Where generations count, no entry is past its counter, and a
        // history can begin.
        ensures made { IfOk result (λ strict. state strict ≡ inside self) }
        ensures allowed { OnOk result ((P.Gen.generations.counting
            && is_any_past (inside self).counter (inside self).slots) ≡ false) }
        ensures begun { P.Gen.generations.counting ≡ true
            → IfOk result (λ strict. Fits (begun_with (keys (state strict).slots)) (state strict)) }

        // Refused: an entry is past the counter, and the arena comes back as it was.
        ensures refusal { OnErr result ((P.Gen.generations.counting
            && is_any_past (inside self).counter (inside self).slots) ≡ true) }
        ensures refused { IfErr result (λ arena. inside arena ≡ inside self) };
}

impl<P: Ptr, T, S: NonZeroInxGenericStack<ArenaSlot<P, T>>> Entering<P, T> for Arena<P, T, S> {
    type Strict = StrictArena<P, T, S>;

    ghost inside = { λ arena. arena };

    ghost state = { λ strict. strict };

    fn close(self) -> Result<StrictArena<P, T, S>, Arena<P, T, S>> {
        if is_past_counter(&self) {
            return Err(self);
        }
        Ok(StrictArena { arena: self })
    }
}

/// The strict arena inside which this arena is, as it is. **Its promise begins here**, with the pointers
/// that stand (`begun`): none of them is given again. Of pointers that the arena gave before, and that find
/// nothing, it promises nothing where the counter was set, reset or copied since, or has wrapped.
///
/// Refused exactly where generations count and an entry is of one past the counter, as after the counter
/// wrapped or was set back; then the arena comes back as it was.
pub fn into_strict<P: Ptr, T, A: Entering<P, T>>(arena: A) -> Result<A::Strict, A>
    // Done: inside is the arena as it is. Where generations count, no entry is past its counter, and a
    // history can begin.
    ensures made { IfOk result (λ strict. A.state strict ≡ A.inside arena) }
    ensures allowed { OnOk result ((P.Gen.generations.counting
        && is_any_past (A.inside arena).counter (A.inside arena).slots) ≡ false) }
    ensures begun { P.Gen.generations.counting ≡ true
        → IfOk result (λ strict. Fits (begun_with (keys (A.state strict).slots)) (A.state strict)) }

    // Refused: an entry is past the counter, and the arena comes back as it was.
    ensures refusal { OnErr result ((P.Gen.generations.counting
        && is_any_past (A.inside arena).counter (A.inside arena).slots) ≡ true) }
    ensures refused { IfErr result (λ old. A.inside old ≡ A.inside arena) }
{
    arena.close()
}

// Whether generations count, and an entry is of one past the counter.
fn is_past_counter<P: Ptr, T, S: NonZeroInxGenericStack<ArenaSlot<P, T>>>(
    arena: &Arena<P, T, S>,
) -> bool
    ensures { result ≡ (P.Gen.generations.counting
        && is_any_past arena.now.counter arena.now.slots) }
{
    P::Gen::counts() && is_any_past(arena)
}

// Whether an entry is of a generation past the counter.
fn is_any_past<P: Ptr, T, S: NonZeroInxGenericStack<ArenaSlot<P, T>>>(
    arena: &Arena<P, T, S>,
) -> bool
    ensures { result ≡ is_any_past arena.now.counter arena.now.slots }
{
    let counter = arena.generation();
    'entries: for p in arena.ptrs() {
        if is_past(p.generation(), counter) {
            return true;
        }
    }
    false
}

// Whether a generation is past a counter.
fn is_past<G: PtrGen>(generation: G, counter: G) -> bool
    ensures { result ≡ nat_lt (G.number counter) (G.number generation) }
{
    generation.cmp(&counter) == Ordering::Greater
}
