//! The advancer of arenas.

ghost use Rattle.std.specs.Prelude.{◌≡◌, ◌+◌, ◌-◌, ◌≤◌, ◌^◌, cond, false, length, map, min};
ghost use Rattle.std.specs.Int.NonZero.{non_zero_usize_get};
ghost use Rattle.std.specs.Option.{option_map};
ghost use Rattle.triple_arena_ptr.specs.Numbers.{greatest_index};
ghost use Rattle.triple_arena_traits.specs.Places.{number_or_zero};
ghost use Rattle.triple_arena_traits.specs.Walks.{place_of, standing_at, Steps};

use crate::entry_slot::EntrySlot;
use crate::entry_slots::{live_from, live_to, ptr_at};
use std::marker::{Model, PhantomData};
use std::num::NonZeroUsize;
use triple_arena_ptr::{Ptr, PtrInx};
use triple_arena_stack::NonZeroInxGenericStack;

/// A place in an arena, or none, and a direction: it goes from live index to live index.
///
/// A forward one answers the pointer of the least live index at or above its place, and then stands
/// one past it; where there is none, one past the greater of its place and the index after the last
/// slot. One in reverse answers that of the greatest live index at or below its place, and then
/// stands one below it; where there is none, nowhere. The arena may change between two steps: the
/// place of a forward one only rises, and that of one in reverse only falls, so that each walk ends.
///
/// An arena over a stack of slots is an `Advancer`'s collection by `step` over that stack.
#[derive(Drop)]
pub struct PtrAdvancer<P: Ptr> {
    // None is nowhere.
    place: Option<NonZeroUsize>,
    reverse: bool,
    of: PhantomData<P>,
}

impl<P: Ptr> Model for PtrAdvancer<P> {
    ghost use Rattle.triple_arena_traits.specs.Walks.{Stand};
    ghost use Rattle.triple_arena_traits.specs.Places.{number_or_zero};

    ghost Value = { Stand };

    ghost view = { λ a. record { place = number_or_zero a.place; reverse = a.reverse } };
}

impl<P: Ptr> PtrAdvancer<P> {
    /// A forward one at an index, or nowhere.
    pub fn from(place: Option<NonZeroUsize>) -> Self
        ensures { result ≡ record { place = number_or_zero place; reverse = false } }
    {
        PtrAdvancer {
            place,
            reverse: false,
            of: PhantomData,
        }
    }

    /// One at the index that is named (`standing_at`): past the greatest index, one in reverse stands
    /// at the greatest, and a forward one nowhere.
    pub fn at(inx: P::Inx, reverse: bool) -> Self
        ensures { result ≡ standing_at
            (greatest_index P.Inx.greatest) (P.Inx.number inx) reverse }
    {
        let place = match P::Inx::try_into_usize(inx) {
            Some(inx) => Some(inx),
            None if reverse => Some(P::Inx::max_index()),
            None => None,
        };
        PtrAdvancer {
            place,
            reverse,
            of: PhantomData,
        }
    }

    /// A step over these slots (`Steps`), which are no more than there are indexes: the pointer of
    /// the next live index in its direction, if there is one.
    #[inline(always)]
    pub fn step<T, X: EntrySlot<P, T>, S: NonZeroInxGenericStack<X>>(
        &mut self,
        stack: &S,
    ) -> Option<P>
        requires { length (S.items stack.now) ≤ greatest_index P.Inx.greatest }
        ensures { Steps (greatest_index P.Inx.greatest) (map X.entry (S.items stack.now))
            self.old (option_map P.numbers result) self.new }
    {
        let place = self.place?;
        let found = if self.reverse {
            live_to::<P, T, X, S>(stack, place)
        } else {
            live_from::<P, T, X, S>(stack, place)
        };
        match found {
            Some(inx) => {
                self.pass(inx);
                Some(ptr_at::<P, T, X, S>(stack, inx))
            }
            None => {
                self.place = if self.reverse {
                    None
                } else {
                    place_after::<P>(place.max(next_slot(stack)))
                };
                None
            }
        }
    }

    // Goes on from an answer at an index.
    fn pass(&mut self, inx: NonZeroUsize)
        ensures { self.new ≡ record self.old {
          place = cond self.old.reverse (non_zero_usize_get inx - 1)
              (place_of (greatest_index P.Inx.greatest) (non_zero_usize_get inx + 1));
        } }
    {
        self.place = if self.reverse {
            NonZeroUsize::new(inx.get() - 1)
        } else {
            place_after::<P>(inx)
        };
    }
}

// The index past the last item, or the greatest number.
fn next_slot<X, S: NonZeroInxGenericStack<X>>(stack: &S) -> NonZeroUsize
    ensures { non_zero_usize_get result ≡ min (length (S.items stack.now) + 1) (2 ^ 64 - 1) }
{
    NonZeroUsize::MIN.saturating_add(stack.len())
}

// The index after this one, if there is one.
fn place_after<P: Ptr>(inx: NonZeroUsize) -> Option<NonZeroUsize>
    ensures { number_or_zero result
        ≡ place_of (greatest_index P.Inx.greatest) (non_zero_usize_get inx + 1) }
{
    let greatest = P::Inx::max_index().get();
    match inx.checked_add(1) {
        Some(next) if next.get() <= greatest => Some(next),
        _ => None,
    }
}
