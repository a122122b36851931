//! Two values of an arena, written at once.

ghost use Rattle.std.specs.Prelude.{◌≡◌, ◌≢◌, [], IfOk, OnErr};
ghost use Rattle.triple_arena_stack.specs.Disjoint.{MayWork, Worked};
ghost use Rattle.triple_arena_traits.specs.Entries.{entry_in, look_up};
ghost use Rattle.triple_arena_traits.specs.Histories.{Continues};
ghost use Rattle.triple_arena_traits.specs.DisjointEntries.{DisjointPtrAnswer, DisjointInxAnswer, MayWorkAtEntries, WorkedAtEntries};

use crate::arena_trait::ArenaTrait;
use triple_arena_base::GetDisjointMutError;
use triple_arena_ptr::{Ptr, PtrGen, PtrInx};

/// An arena that lends two of its values at once, to a closure.
///
/// The closure must be callable at the two values, where there are two. Neither call takes memory.
pub trait DisjointableArenaTrait<P: Ptr, T>: ArenaTrait<P, T> {
    /// Calls `f` at the values under two pointers, in their order, and gives its result; what it
    /// writes stands there, and nothing else changes.
    ///
    /// `IndexOutOfBounds` where either pointer is invalid, else `OverlappingIndices` where they are
    /// equal; then `f` isn't called, and the arena is unchanged.
    fn with_disjoint_mut<R, F: FnOnce(&mut T, &mut T) -> R>(
        &mut self,
        first: P,
        second: P,
        f: F,
    ) -> Result<R, GetDisjointMutError>
        requires { (P.numbers first).0 ≢ (P.numbers second).0 → MayWork F.FnOnce f
            (look_up (Self.slots self.old) (P.numbers first))
            (look_up (Self.slots self.old) (P.numbers second)) }
        ensures variant { DisjointPtrAnswer (Self.slots self.old)
            (P.numbers first) (P.numbers second) result }
        ensures refused { OnErr result (self.new ≡ self.old) }
        ensures worked { IfOk result (λ r. Worked F.FnOnce f
            (look_up (Self.slots self.old) (P.numbers first))
            (look_up (Self.slots self.old) (P.numbers second))
            r (λ x y. self.new ≡ Self.with_value
            (Self.with_value self.old (P.numbers first).0 x) (P.numbers second).0 y)) }
        ensures history { Continues Self.fits self.old [] self.new };

    /// Calls `f` at the entries at two indexes, in their order, each value after its generation, and
    /// gives its result; what it writes stands there, and nothing else changes.
    ///
    /// `IndexOutOfBounds` where either index is past the slots, else `OverlappingIndices` where they
    /// are equal, else `IndexOutOfBounds` where either slot has no entry; then `f` isn't called, and
    /// the arena is unchanged.
    fn with_disjoint_inx_mut<R, F: FnOnce(P::Gen, &mut T, P::Gen, &mut T) -> R>(
        &mut self,
        first: P::Inx,
        second: P::Inx,
        f: F,
    ) -> Result<R, GetDisjointMutError>
        requires { P.Inx.number first ≢ P.Inx.number second
            → MayWorkAtEntries P.Gen.number F.FnOnce f
            (entry_in (Self.slots self.old) (P.Inx.number first))
            (entry_in (Self.slots self.old) (P.Inx.number second)) }
        ensures variant { DisjointInxAnswer (Self.slots self.old)
            (P.Inx.number first) (P.Inx.number second) result }
        ensures refused { OnErr result (self.new ≡ self.old) }
        ensures worked { IfOk result (λ r. WorkedAtEntries P.Gen.number F.FnOnce f
            (entry_in (Self.slots self.old) (P.Inx.number first))
            (entry_in (Self.slots self.old) (P.Inx.number second))
            r (λ x y. self.new ≡ Self.with_value
            (Self.with_value self.old (P.Inx.number first) x) (P.Inx.number second) y)) }
        ensures history { Continues Self.fits self.old [] self.new };
}
