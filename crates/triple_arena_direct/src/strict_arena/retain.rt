//! Entries of a strict arena that are ended together.

ghost use Rattle.std.specs.Prelude.{◌≡◌, ◌∷◌, true, false, cond, List, [], Some, IsSome, OnOk, OnErr};
ghost use Rattle.triple_arena_ptr.specs.Numbers.{raise};
ghost use Rattle.triple_arena_ptr.specs.Pointers.{Pointer};
ghost use Rattle.triple_arena_traits.specs.Entries.{look_up};
ghost use Rattle.triple_arena_traits.specs.ArenaState.{capacity};
ghost use Rattle.triple_arena_traits.specs.SlotSteps.{IsTouched};
ghost use Rattle.triple_arena_traits.specs.Ending.{removed};
ghost use Rattle.triple_arena_traits.specs.Walks.{entries};
ghost use Rattle.triple_arena_traits.specs.Histories.{clearing};
ghost use Rattle.triple_arena_direct.specs.Gone.{IsGoneForGood};
ghost use Rattle.triple_arena_direct.specs.StrictAnswers.{is_exhausted_for_any, strict_all, calls_if_ok};
ghost use Rattle.triple_arena_direct.specs.StrictCalls.{IsStrictEnding, to_retain};
ghost use Rattle.triple_arena_direct.specs.StrictDone.{KeepsTheRest};
ghost use Rattle.triple_arena_direct.specs.StrictRetain.{Sorts, without_entries, ended_entries, pointers_lost, is_any};

use super::StrictArena;
use crate::errors::StrictError;
use triple_arena::{Arena, ArenaSlot, ArenaTrait};
use triple_arena_base::Advancer;
use triple_arena_ptr::{Ptr, PtrGen};
use triple_arena_stack::NonZeroInxGenericStack;

impl<P: Ptr, T, S: NonZeroInxGenericStack<ArenaSlot<P, T>>> StrictArena<P, T, S> {
    /// Asks `f` of each entry, in the order of the indexes, at its pointer and its value, and drops those
    /// that it doesn't keep. What it keeps stays under its pointer. The counter is raised once, if an
    /// entry was dropped; so where generations count, their pointers are gone for good
    /// (`IsGoneForGood`). Limit and capacity stay.
    ///
    /// `Exhausted` exactly where there is an entry and the counter is at its greatest value, also where
    /// `f` would keep all. Then nothing changes, and `f` is not called, which no clause can say of it.
    pub fn retain<F: FnMut(P, &T) -> bool>(&mut self, f: F) -> Result<(), StrictError>
    where
        T: Drop,
        requires callable { F.IsAlwaysCallable f }

        // Done, the entries are gone that the calls didn't keep; refused, nothing changes.
        ensures answer { result
            ≡ strict_all (is_exhausted_for_any P.Gen.generations self.old) }
        ensures done { OnOk result ((gone : List Pointer) × (last : F)
            × Sorts P.numbers F.step f (entries self.old.slots) gone last
            × IsTouched (ended_entries (raise P.Gen.generations) gone self.old) self.new) }
        ensures refused { OnErr result (self.new ≡ self.old) }

        // In each case the others stay, and it is one strict call: where generations count, a history
        // goes on by it.
        ensures rest { KeepsTheRest self.old P.Gen.generations self.new }
        ensures call { (gone : List Pointer) × IsStrictEnding S.kind P.Gen.generations
            self.old (to_retain gone)
            (calls_if_ok result (λ _. clearing (pointers_lost self.old self.new))) self.new }
    {
        if self.is_exhausted_for_any() {
            return Err(StrictError::Exhausted);
        }
        self.drop_others(f);
        Ok(())
    }

    // As `retain`, where the counter isn't exhausted.
    fn drop_others<F: FnMut(P, &T) -> bool>(&mut self, f: F)
    where
        T: Drop,
        requires callable { F.IsAlwaysCallable f }
        requires allowed { is_exhausted_for_any P.Gen.generations self.old ≡ false }

        // The entries are gone that the calls didn't keep, and the others stay. It is one strict call.
        ensures done { (gone : List Pointer) × (last : F)
            × Sorts P.numbers F.step f (entries self.old.slots) gone last
            × IsTouched (ended_entries (raise P.Gen.generations) gone self.old) self.new }
        ensures rest { KeepsTheRest self.old P.Gen.generations self.new }
        ensures call { (gone : List Pointer) × IsStrictEnding S.kind P.Gen.generations
            self.old (to_retain gone) (clearing (pointers_lost self.old self.new) ∷ []) self.new }
    {
        let ended = take_out_others(&mut self.arena, f);
        raise_if(&mut self.arena, ended);
    }
}

// Raises the counter of an arena, if it is told to.
pub(super) fn raise_if<P: Ptr, T, S: NonZeroInxGenericStack<ArenaSlot<P, T>>>(
    arena: &mut Arena<P, T, S>,
    raises: bool,
)
    ensures { arena.new ≡ cond raises
        (record arena.old { counter = raise P.Gen.generations arena.old.counter }) arena.old }
{
    if raises {
        let _answer = arena.inc_generation();
    }
}

// Drops the entries of an arena that the closure doesn't keep, leaves the counter as it is, and tells
// whether there was one.
fn take_out_others<
    P: Ptr,
    T: Drop,
    S: NonZeroInxGenericStack<ArenaSlot<P, T>>,
    F: FnMut(P, &T) -> bool,
>(arena: &mut Arena<P, T, S>, mut f: F) -> bool
    requires callable { F.IsAlwaysCallable f }
    ensures { (gone : List Pointer) × (last : F)
        × Sorts P.numbers F.step f (entries arena.old.slots) gone last
        × IsTouched (without_entries gone arena.old) arena.new
        × (result ≡ is_any gone) }
{
    let mut advancer = arena.advancer();
    let mut ended = false;
    'walk: while let Some(p) = advancer.advance(&*arena) {
        if !f(p, arena.get(p).unwrap()) {
            drop(take_out(arena, p));
            ended = true;
        }
    }
    ended
}

// Takes out the entry of a pointer, and leaves the counter as it is: the raise of its removal is taken back.
pub(super) fn take_out<P: Ptr, T, S: NonZeroInxGenericStack<ArenaSlot<P, T>>>(
    arena: &mut Arena<P, T, S>,
    p: P,
) -> T
    requires { IsSome (look_up arena.old.slots (P.numbers p)) }
    ensures value { look_up arena.old.slots (P.numbers p) ≡ Some result }
    ensures state { IsTouched (removed (λ n. n) arena.old (P.numbers p).0) arena.new }
{
    let counter = arena.generation();
    let value = arena.remove(p).unwrap().allow();
    arena.set_generation(counter);
    value
}
