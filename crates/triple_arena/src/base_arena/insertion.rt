//! Insertion into an arena, and its growth.

ghost use Rattle.std.specs.Prelude.{◌≡◌, ◌<◌, ◌↔◌, [], IsOk, OnOk, OnErr, Err, IsTrue};
ghost use Rattle.triple_arena_ptr.specs.Numbers.{greatest_index};
ghost use Rattle.triple_arena_stack.specs.Capacity.{IsAtLimit, IsFullAtLimit, CanGrow};
ghost use Rattle.triple_arena_traits.specs.ArenaState.{capacity, arena_len, IsWellFormed};
ghost use Rattle.triple_arena_traits.specs.Insertion.{next_pointer, inserted};
ghost use Rattle.triple_arena_traits.specs.SlotSteps.{touched, insertion_steps};
ghost use Rattle.triple_arena_traits.specs.Reallocation.{grown};
ghost use Rattle.triple_arena_traits.specs.Histories.{Fits, Continues};

use crate::base_arena::Arena;
use triple_arena_base::{NotWithinCapacityError, ReallocationError};
use triple_arena_ptr::{Ptr, PtrInx};
use triple_arena_slots::ArenaSlot;
use triple_arena_stack::{NonZeroInxGenericStack, grown_capacity};
use triple_arena_traits::{ArenaInsertTrait, ArenaTrait, InsertFailed};

impl<P: Ptr, T, S: NonZeroInxGenericStack<ArenaSlot<P, T>>> ArenaInsertTrait<P, T>
    for Arena<P, T, S> {
    ghost use Rattle.std.proofs.Common.{ap};
    ghost use Rattle.triple_arena_traits.specs.laws.EntryLaws.{slots-inserted, limit-inserted, capacity-inserted, slots-grown, limit-grown, next-grown, well_formed-grown, capacity-grown, same-grown, generation-next};
    ghost use Rattle.triple_arena_traits.specs.laws.LengthLaws.{len-inserted, len-grown};
    ghost use Rattle.triple_arena.specs.laws.TouchedLaws.{grown_touched};

    // the first free index, or one past the last slot, under the counter
    ghost next = { next_pointer };

    // the value stands there, and the index is free no longer
    ghost inserted = { λ s value. touched (insertion_steps s) (inserted s value) };

    // a full arena has room for 4 slots or for twice its capacity, as far as the limit allows and
    // there are indexes
    ghost grown = { grown S.kind };

    fn next_ptr(&self) -> P {
        let inx = self.slots.place();
        P::_from_raw(P::Inx::try_from_usize(inx).unwrap(), self.counter)
    }

    #[inline(always)]
    fn insert_reserved(&mut self, t: T) -> P {
        let p = self.next_ptr();
        self.slots.occupy(self.counter, t);
        self.len += 1;
        p
    }

    // The trait's clauses are written out, since inheriting them makes each call dearer to prove.
    #[inline(always)]
    fn make_place(&mut self) -> Result<(), ReallocationError>
        ensures done { OnOk result (self.new ≡ grown S.kind self.old) }
        ensures refused { OnErr result (self.new ≡ self.old) }
        ensures beyond { (result ≡ Err ReallocationError.BeyondMaxCapacity)
            ↔ IsFullAtLimit (capacity self.old) self.old.limit (arena_len self.old) }
        ensures with_memory { CanGrow S.has_memory (capacity self.old) self.old.limit
            (greatest_index P.Inx.greatest) → IsOk result }
        ensures indexed { OnOk result (arena_len self.old ≡ capacity self.old
            → capacity self.old < greatest_index P.Inx.greatest) }
        ensures had_place { arena_len self.old < capacity self.old
            → IsOk result × (self.new ≡ self.old) }
        ensures place { OnOk result (arena_len self.new < capacity self.new) }
        ensures valid { IsWellFormed self.old }
        ensures history { Continues Fits self.old [] self.new }
    {
        let capacity = self.capacity();
        if self.len < capacity {
            return Ok(());
        }
        let limit = self.slots.slots.max_capacity();
        if is_at_limit(limit, capacity) {
            return Err(ReallocationError::BeyondMaxCapacity);
        }
        let greatest = P::Inx::max_index().get();
        if capacity == greatest {
            return Err(ReallocationError::AllocError);
        }
        self.reallocate(grown_capacity(capacity, limit, greatest))
    }

    #[inline(always)]
    fn insert_within_capacity(&mut self, t: T) -> Result<P, NotWithinCapacityError>
    where
        T: Drop,
    {
        if self.len() < self.capacity() {
            Ok(self.insert_reserved(t))
        } else {
            Err(NotWithinCapacityError)
        }
    }

    #[inline(always)]
    fn insert_reallocating(&mut self, t: T) -> Result<P, ReallocationError>
    where
        T: Drop,
    {
        match self.make_place() {
            Ok(()) => Ok(self.insert_reserved(t)),
            Err(error) => Err(error),
        }
    }

    #[inline(always)]
    fn insert(&mut self, t: T) -> Result<P, ReallocationError>
    where
        T: Drop,
    {
        self.insert_reallocating(t)
    }

    #[inline(always)]
    fn try_insert(&mut self, t: T) -> Result<P, InsertFailed<T>> {
        match self.make_place() {
            Ok(()) => Ok(self.insert_reserved(t)),
            Err(error) => Err(InsertFailed { value: t, error }),
        }
    }

    ghost generation_next = { generation-next };

    ghost slots_inserted = { slots-inserted };

    ghost len_inserted = { len-inserted };

    ghost limit_inserted = { limit-inserted };

    ghost capacity_inserted = { capacity-inserted };

    ghost next_unchanged = { λ _ _ same. ap next_pointer same.0 };

    ghost grown_unchanged = { grown_touched S.kind };

    ghost same_grown = { same-grown S.kind };

    ghost slots_grown = { slots-grown S.kind };

    ghost len_grown = { len-grown S.kind };

    ghost capacity_grown = { capacity-grown S.kind };

    ghost limit_grown = { limit-grown S.kind };

    ghost next_grown = { next-grown S.kind };

    ghost valid_grown = { well_formed-grown S.kind };
}

// Whether the limit, if there is one, is reached at this capacity.
fn is_at_limit(limit: Option<usize>, capacity: usize) -> bool
    ensures { IsTrue result ↔ IsAtLimit limit capacity }
{
    match limit {
        Some(most) => most <= capacity,
        None => false,
    }
}
