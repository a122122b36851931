//! Draining any compact arena.

ghost use Rattle.std.specs.Prelude.{◌≡◌, ◌∷◌, [], length};
ghost use Rattle.std.specs.Iterator.{YieldsFirstBy, at_most};
ghost use Rattle.triple_arena_ptr.specs.Numbers.{greatest_index};
ghost use Rattle.triple_arena_traits.specs.Entries.{entry_count};
ghost use Rattle.triple_arena_traits.specs.Walks.{entries, keys};
ghost use Rattle.triple_arena_traits.specs.Histories.{clearing, CountsUp, Continues};
ghost use Rattle.triple_arena_traits.specs.Drains.{DrainStep, TakeStep, IsDraining, drain_arena, drain_lender};

use crate::answers::told;
use crate::arena_trait::ArenaTrait;
use crate::compact_arena_trait::CompactArenaTrait;
use std::marker::{Model, PhantomData};
use triple_arena_base::{Advancer, InvalidationOption};
use triple_arena_ptr::{Ptr, PtrGen, PtrInx};

/// Takes the entries out of an arena, in the order of their indexes.
///
/// Each step is a removal, and tells of a wrap as that does. Let go, it clears the arena, and what
/// that would tell is lost.
pub struct Drain<'a, P: Ptr, T: Drop, A: CompactArenaTrait<P, T>> {
    arena: &'a mut A,
    advancer: A::PtrAdvancer,
    of: PhantomData<(P, T)>,
}

impl<'a, P: Ptr, T: Drop, A: CompactArenaTrait<P, T>> Drop for Drain<'a, P, T, A> {
    fn drop(self)
        ensures cleared { A.clears (drain_arena self.entry) self.exit.0.now }
        ensures history { CountsUp P.Gen.generations (A.clearing_wraps (drain_arena self.entry))
            → Continues A.fits (drain_arena self.entry)
            (clearing (keys (A.slots (drain_arena self.entry))) ∷ []) self.exit.0.now }
    {
        let Drain {
            arena,
            advancer,
            of: _,
        } = self;
        drop(advancer);
        let _ = arena.clear();
    }
}

impl<'a, P: Ptr, T: Drop, A: CompactArenaTrait<P, T>> Drain<'a, P, T, A> {
    pub(crate) fn over(arena: &'a mut A) -> Self
        ensures arena { drain_arena result ≡ arena.old }
        ensures draining { IsDraining A.slots A.stand result }
        ensures same_reference { drain_lender result ≡ arena.entry.ghost_name }
    {
        Drain {
            advancer: arena.advancer(),
            arena,
            of: PhantomData,
        }
    }
}

impl<'a, P: Ptr, T: Drop, A: CompactArenaTrait<P, T>> Iterator for Drain<'a, P, T, A> {
    type Item = InvalidationOption<(P, T)>;

    ghost next_gives = { λ before item after. (drain_lender after ≡ drain_lender before)
        × (IsDraining A.slots A.stand before
        → DrainStep A.slots A.fits A.removes A.ending_wraps P.Gen.generations P.numbers
        (drain_arena before) item (drain_arena after) × IsDraining A.slots A.stand after) };

    ghost remaining = { λ drain. at_most (entry_count (A.slots (drain_arena drain))) };

    #[inline(always)]
    fn next(&mut self) -> Option<InvalidationOption<(P, T)>> {
        let (p, taken) = take_next(&mut *self.arena, &mut self.advancer)?;
        let (value, wrapped) = taken.overflowing();
        Some(told(wrapped, (p, value)))
    }

    fn size_hint(&self) -> (usize, Option<usize>) {
        let left = self.len();
        (left, Some(left))
    }
}

impl<'a, P: Ptr, T: Drop, A: CompactArenaTrait<P, T>> ExactSizeIterator for Drain<'a, P, T, A> {
    fn len(&self) -> usize {
        self.arena.len()
    }
}

/// Takes the entries out of an arena of its own, in the order of their indexes. It tells of no
/// wrap, since nothing is left to name what the arena held.
#[derive(Drop)]
pub struct CapacityDrain<P: Ptr, T, A: CompactArenaTrait<P, T>> {
    arena: A,
    advancer: A::PtrAdvancer,
    of: PhantomData<(P, T)>,
}

impl<P: Ptr, T, A: CompactArenaTrait<P, T>> Model for CapacityDrain<P, T, A> {
    ghost use Rattle.std.specs.Prelude.{List};
    ghost use Rattle.triple_arena_ptr.specs.Pointers.{Pointer};
    ghost use Rattle.triple_arena_traits.specs.Walks.{entries, IsBeforeAll};

    // What is left.
    ghost Value = { List (Pointer × T) };

    ghost view = { λ d. entries (A.slots d.arena) };

    ghost invariant = { λ d. IsBeforeAll (A.slots d.arena) (A.stand d.advancer) };
}

impl<P: Ptr, T, A: CompactArenaTrait<P, T>> CapacityDrain<P, T, A> {
    /// A drain of this arena, with all its entries ahead: for the `IntoIterator` of an arena.
    pub fn over(arena: A) -> Self
        ensures { result ≡ entries (A.slots arena) }
    {
        let advancer = arena.advancer();
        CapacityDrain {
            arena,
            advancer,
            of: PhantomData,
        }
    }
}

impl<P: Ptr, T: Drop, A: CompactArenaTrait<P, T> + Drop> Iterator for CapacityDrain<P, T, A> {
    type Item = (P, T);

    ghost next_gives = { YieldsFirstBy (λ item. (P.numbers item.0, item.1)) (λ rest. rest) };

    ghost remaining = { λ rest. at_most (length rest) };

    fn next(&mut self) -> Option<(P, T)> {
        let (p, taken) = take_next(&mut self.arena, &mut self.advancer)?;
        Some((p, taken.allow()))
    }

    fn size_hint(&self) -> (usize, Option<usize>) {
        let left = self.len();
        (left, Some(left))
    }
}

impl<P: Ptr, T: Drop, A: CompactArenaTrait<P, T> + Drop> ExactSizeIterator
    for CapacityDrain<P, T, A> {
    fn len(&self) -> usize {
        self.arena.len()
    }
}

// Goes on to the next entry, and takes it out.
#[inline(always)]
pub(crate) fn take_next<P: Ptr, T, A: CompactArenaTrait<P, T>>(
    arena: &mut A,
    advancer: &mut A::PtrAdvancer,
) -> Option<(P, InvalidationOption<T>)>
    ensures step { TakeStep A.slots A.fits A.removes A.ending_wraps P.Gen.generations P.numbers
        (greatest_index P.Inx.greatest) arena.old (A.stand advancer.old) result
        arena.new (A.stand advancer.new) }
{
    let p = advancer.advance(&*arena)?;
    Some((p, arena.remove(p).unwrap()))
}
