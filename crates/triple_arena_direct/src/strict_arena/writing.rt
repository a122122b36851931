//! Values of a strict arena that are written by a closure.

ghost use Rattle.std.specs.Prelude.{◌≡◌, ◌≢◌, true, List, [], ◌∷◌, IfOk, OnErr, OnOk};
ghost use Rattle.triple_arena_ptr.specs.Pointers.{Pointer};
ghost use Rattle.triple_arena_stack.specs.Disjoint.{MayWork, Worked};
ghost use Rattle.triple_arena_traits.specs.Entries.{look_up};
ghost use Rattle.triple_arena_traits.specs.ArenaState.{capacity, entry, with_value};
ghost use Rattle.triple_arena_traits.specs.Recasting.{written};
ghost use Rattle.triple_arena_traits.specs.Visits.{Visits};
ghost use Rattle.triple_arena_traits.specs.Walks.{entries, keys};
ghost use Rattle.triple_arena_traits.specs.DisjointEntries.{DisjointPtrAnswer, DisjointInxAnswer, MayWorkAtEntries, WorkedAtEntries};
ghost use Rattle.triple_arena_traits.specs.Histories.{Fits, Continues};
ghost use Rattle.triple_arena_direct.specs.Gone.{IsGoneForGood};
ghost use Rattle.triple_arena_direct.specs.StrictCalls.{IsStrictStep, to_write_each};

use super::StrictArena;
use triple_arena::{ArenaSlot, CompactArenaTrait, DisjointableArenaTrait};
use triple_arena_base::GetDisjointMutError;
use triple_arena_ptr::{Ptr, PtrGen, PtrInx};
use triple_arena_stack::NonZeroInxGenericStack;

impl<P: Ptr, T, S: NonZeroInxGenericStack<ArenaSlot<P, T>>> StrictArena<P, T, S> {
    /// Calls `f` at each entry, in the order of the indexes: at its pointer, and at its value, for
    /// writing. Nothing but values changes (`written`), and it takes no memory.
    pub fn for_each_mut<F: FnMut(P, &mut T)>(&mut self, f: F)
        requires callable { F.IsAlwaysCallable f }

        // Each value is as the call at its entry left it, and nothing else changes.
        ensures visited { (last : F) × Visits P.numbers F.step f
            (entries self.old.slots) (entries self.new.slots) last }
        ensures written { (values : List T)
            × (self.new ≡ written with_value (keys self.old.slots) values self.old) }
        ensures limit { self.new.limit ≡ self.old.limit }
        ensures capacity { capacity self.new ≡ capacity self.old }

        // It is a strict call, by which every history goes on, and what was gone for good stays so.
        ensures step { (values : List T) × IsStrictStep S.kind P.Gen.generations
            self.old (to_write_each (keys self.old.slots) values) [] self.new }
        ensures history { Continues Fits self.old [] self.new }
        ensures stays_gone { P.Gen.generations.counting ≡ true
            → (q : Pointer) → IsGoneForGood self.old q → IsGoneForGood self.new q }
    {
        self.arena.for_each_mut(f);
    }

    /// Calls `f` at the values under two pointers, in their order, and gives its result; what it
    /// writes stands there, and nothing else changes. It takes no memory.
    ///
    /// `IndexOutOfBounds` where either pointer is invalid, else `OverlappingIndices` where they are
    /// equal; then `f` isn't called, and the arena is unchanged.
    pub fn with_disjoint_mut<R, F: FnOnce(&mut T, &mut T) -> R>(
        &mut self,
        first: P,
        second: P,
        f: F,
    ) -> Result<R, GetDisjointMutError>
        requires { (P.numbers first).0 ≢ (P.numbers second).0 → MayWork F.FnOnce f
            (look_up self.old.slots (P.numbers first))
            (look_up self.old.slots (P.numbers second)) }

        // Done, what the call wrote stands at both; refused, nothing changes.
        ensures variant { DisjointPtrAnswer self.old.slots
            (P.numbers first) (P.numbers second) result }
        ensures refused { OnErr result (self.new ≡ self.old) }
        ensures worked { IfOk result (λ r. Worked F.FnOnce f
            (look_up self.old.slots (P.numbers first))
            (look_up self.old.slots (P.numbers second))
            r (λ x y. self.new ≡ with_value
            (with_value self.old (P.numbers first).0 x) (P.numbers second).0 y)) }

        // It is a strict call, by which every history goes on, and what was gone for good stays so.
        ensures step { OnOk result ((x y : T) × IsStrictStep S.kind P.Gen.generations
            self.old (to_write_each (P.numbers first ∷ P.numbers second ∷ []) (x ∷ y ∷ [])) [] self.new) }
        ensures history { Continues Fits self.old [] self.new }
        ensures stays_gone { P.Gen.generations.counting ≡ true
            → (q : Pointer) → IsGoneForGood self.old q → IsGoneForGood self.new q }
    {
        self.arena.with_disjoint_mut(first, second, f)
    }

    /// Calls `f` at the entries at two indexes, in their order, each value after its generation, and
    /// gives its result; what it writes stands there, and nothing else changes. It takes no memory.
    ///
    /// `IndexOutOfBounds` where either index is past the slots, else `OverlappingIndices` where they
    /// are equal, else `IndexOutOfBounds` where either slot has no entry; then `f` isn't called, and
    /// the arena is unchanged.
    pub fn with_disjoint_inx_mut<R, F: FnOnce(P::Gen, &mut T, P::Gen, &mut T) -> R>(
        &mut self,
        first: P::Inx,
        second: P::Inx,
        f: F,
    ) -> Result<R, GetDisjointMutError>
        requires { P.Inx.number first ≢ P.Inx.number second
            → MayWorkAtEntries P.Gen.number F.FnOnce f
            (entry self.old (P.Inx.number first))
            (entry self.old (P.Inx.number second)) }

        // Done, what the call wrote stands at both; refused, nothing changes.
        ensures variant { DisjointInxAnswer self.old.slots
            (P.Inx.number first) (P.Inx.number second) result }
        ensures refused { OnErr result (self.new ≡ self.old) }
        ensures worked { IfOk result (λ r. WorkedAtEntries P.Gen.number F.FnOnce f
            (entry self.old (P.Inx.number first))
            (entry self.old (P.Inx.number second))
            r (λ x y. self.new ≡ with_value
            (with_value self.old (P.Inx.number first) x) (P.Inx.number second) y)) }

        // It is a strict call, by which every history goes on, and what was gone for good stays so.
        ensures step { OnOk result ((p q : Pointer) × (x y : T)
            × (p.0 ≡ P.Inx.number first) × (q.0 ≡ P.Inx.number second)
            × IsStrictStep S.kind P.Gen.generations
            self.old (to_write_each (p ∷ q ∷ []) (x ∷ y ∷ [])) [] self.new) }
        ensures history { Continues Fits self.old [] self.new }
        ensures stays_gone { P.Gen.generations.counting ≡ true
            → (q : Pointer) → IsGoneForGood self.old q → IsGoneForGood self.new q }
    {
        self.arena.with_disjoint_inx_mut(first, second, f)
    }
}
