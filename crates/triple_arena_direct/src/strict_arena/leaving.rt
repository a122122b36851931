//! The ways out of a strict arena: what is in it leaves it, and its promise ends with it.

ghost use Rattle.std.specs.Prelude.{◌≡◌, None, IfOk, OnOk, true};
ghost use Rattle.std.specs.Result.{IfErr};
ghost use Rattle.triple_arena_base.specs.Held.{held_all};
ghost use Rattle.triple_arena_ptr.specs.Numbers.{first_generation};
ghost use Rattle.triple_arena_traits.specs.ArenaState.{ArenaState, arena_len};
ghost use Rattle.triple_arena_traits.specs.Compression.{rank};
ghost use Rattle.triple_arena_traits.specs.Walks.{keys, values};
ghost use Rattle.triple_arena_traits.specs.Histories.{begun_with, Fits};
ghost use Rattle.triple_arena_recasting.specs.Renaming.{MapsPointers, first_unresolved, Refuses};
ghost use Rattle.triple_arena_direct.specs.StrictCompacted.{IsStrictlyRenaming, KeepsStrictSize};

use super::StrictArena;
use std::alloc::Global;
use triple_arena::{Arena, ArenaSlot};
use triple_arena_base::{CompactError, Recast};
use triple_arena_direct_arena::DirectArena;
use triple_arena_ptr::{Ptr, PtrGen};
use triple_arena_recasting::compress_recast;
use triple_arena_stack::NonZeroInxGenericStack;

/// What is taken by value, so that its values leave it: strict arenas, over any stack. Callers have
/// [`into_arena`] and [`renew`], since a method by value of an arena over any stack has no proved caller.
/// It is public for crates with a way out of their own, whose trait stands on it, as that of files.
pub trait Leaving<P: Ptr, T>: Sized {
    /// The arena inside.
    type Arena;

    // what is in it
    ghost state: { Self → ArenaState T };

    // what is in the arena inside
    ghost inside: { Self.Arena → ArenaState T };

    /// As [`into_arena`].
    fn open(self) -> Self::Arena
        ensures { inside result ≡ state self };

    /// As [`renew`].
    fn begin_anew(self, alloc: Global) -> Result<(Self, DirectArena<P, P>), (Self, CompactError<P>)>
    where
        T: Recast<P>,
        // Done: the map leads from the old pointers to the new ones. The new arena is the old one, compacted
        // with a reset, with each pointer renamed that its values hold. Each of these found an entry. Its
        // counter is the first one, and where generations count, a history can begin.
        ensures maps { IfOk result (λ new. MapsPointers P.numbers
            (rank (state self) (first_generation P.Gen.generations)) (state self).slots new.1.slots) }
        ensures compacted { IfOk result (λ new. IsStrictlyRenaming P.Gen.generations true (state self)
            P.numbers T.held T.refill (state new.0)) }
        ensures resolved { OnOk result (first_unresolved P.numbers (state self).slots
            (held_all T.held (values (state self).slots)) ≡ None) }
        ensures counter { IfOk result (λ new. (state new.0).counter ≡ first_generation P.Gen.generations) }
        ensures begun { P.Gen.generations.counting ≡ true
            → IfOk result (λ new. Fits (begun_with (keys (state new.0).slots)) (state new.0)) }
        ensures size { IfOk result (λ new. KeepsStrictSize (state self) (state new.0)) }

        // Refused: the arena comes back as it was, and the error tells why.
        ensures refused { IfErr result (λ old. state old.0 ≡ state self) }
        ensures refusal { IfErr result (λ old. Refuses (arena_len (state self))
            (first_unresolved P.numbers (state self).slots (held_all T.held (values (state self).slots))) old.1) };
}

impl<P: Ptr, T, S: NonZeroInxGenericStack<ArenaSlot<P, T>>> Leaving<P, T> for StrictArena<P, T, S> {
    type Arena = Arena<P, T, S>;

    ghost state = { λ strict. strict };

    ghost inside = { λ arena. arena };

    fn open(self) -> Arena<P, T, S> {
        let StrictArena { arena } = self;
        arena
    }

    fn begin_anew(self, alloc: Global) -> Result<(Self, DirectArena<P, P>), (Self, CompactError<P>)>
    where
        T: Recast<P>,
    {
        let StrictArena { mut arena } = self;
        match compress_recast(&mut arena, alloc, true) {
            Ok(answer) => Ok((StrictArena { arena }, answer.allow())),
            Err(refusal) => Err((StrictArena { arena }, refusal)),
        }
    }
}

/// The arena inside a strict arena, as it is, by value; also where the counter is at its greatest value.
/// The strict arena ends, and with it its promise: calls of an `Arena` may wrap, set or reset the counter.
///
/// By it the values leave: `for (p, value) in into_arena(strict)`.
pub fn into_arena<P: Ptr, T, A: Leaving<P, T>>(strict: A) -> A::Arena
    ensures { A.inside result ≡ A.state strict }
{
    strict.open()
}

/// Another strict arena, with the same values in their order: from index 1 on, under the first
/// generation, which is its counter. Each pointer that a value holds is renamed, and the map leads
/// from each old pointer to the new one, so that holders follow, as after
/// [`crate::compress_recast`] with a reset. It is the way on where the counter is at its greatest
/// value: no call of it is `Exhausted` because of what was done before.
///
/// **It is another arena**: the promise begins anew with the pointers that stand then. A pointer to
/// the old arena that wasn't renamed may find an entry, or come to name a later one.
///
/// Refused as [`crate::compress_recast`]: with `Reallocation` only where there is an entry and memory
/// for the map is refused, with `Unresolved` only where a value holds a pointer that finds no entry,
/// with the first one. Where one does, it is refused in any case. Then the arena comes back as it was.
pub fn renew<P: Ptr, T: Recast<P>, A: Leaving<P, T>>(
    strict: A,
    alloc: Global,
) -> Result<(A, DirectArena<P, P>), (A, CompactError<P>)>
    // Done: the map leads from the old pointers to the new ones. The new arena is the old one, compacted
    // with a reset, with each pointer renamed that its values hold. Each of these found an entry. Its
    // counter is the first one, and where generations count, a history can begin.
    ensures maps { IfOk result (λ new. MapsPointers P.numbers
        (rank (A.state strict) (first_generation P.Gen.generations)) (A.state strict).slots new.1.slots) }
    ensures compacted { IfOk result (λ new. IsStrictlyRenaming P.Gen.generations true (A.state strict)
        P.numbers T.held T.refill (A.state new.0)) }
    ensures resolved { OnOk result (first_unresolved P.numbers (A.state strict).slots
        (held_all T.held (values (A.state strict).slots)) ≡ None) }
    ensures counter { IfOk result (λ new. (A.state new.0).counter ≡ first_generation P.Gen.generations) }
    ensures begun { P.Gen.generations.counting ≡ true
        → IfOk result (λ new. Fits (begun_with (keys (A.state new.0).slots)) (A.state new.0)) }
    ensures size { IfOk result (λ new. KeepsStrictSize (A.state strict) (A.state new.0)) }

    // Refused: the arena comes back as it was, and the error tells why.
    ensures refused { IfErr result (λ old. A.state old.0 ≡ A.state strict) }
    ensures refusal { IfErr result (λ old. Refuses (arena_len (A.state strict))
        (first_unresolved P.numbers (A.state strict).slots (held_all T.held (values (A.state strict).slots))) old.1) }
{
    strict.begin_anew(alloc)
}
