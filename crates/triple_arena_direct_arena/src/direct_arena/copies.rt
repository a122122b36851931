//! Cloning into the direct arena, and transfer.

ghost use Rattle.std.specs.Prelude.{◌≡◌, ℕ, List, Option, ◌≤◌, ◌<◌, ◌↔◌, length, IsOk, OnOk, OnErr, Err};
ghost use Rattle.triple_arena_ptr.specs.Numbers.{greatest_index};
ghost use Rattle.triple_arena_stack.specs.Capacity.{IsWithin, IsBeyond};
ghost use Rattle.triple_arena_traits.specs.Entries.{entry_count};
ghost use Rattle.triple_arena_traits.specs.Walks.{keys, entries};
ghost use Rattle.triple_arena_traits.specs.Copying.{Copies};
ghost use Rattle.triple_arena_traits.specs.FreeList.{last_index};
ghost use Rattle.triple_arena_traits.specs.Transfers.{Transfers};
ghost use Rattle.triple_arena_traits.specs.Drains.{removals, NoneWraps};
ghost use Rattle.triple_arena_traits.specs.Histories.{Continues};
ghost use Rattle.triple_arena_direct_arena.specs.DirectState.{direct_len, direct_capacity, SlotsFit, direct_shortened, direct_reallocated, direct_ready_for, direct_with_slots};

use super::DirectArena;
use crate::slot::DirectSlot;
use triple_arena_base::{CloneFromError, InvalidationOption, ReallocationError};
use triple_arena_ptr::{Ptr, PtrGen, PtrInx};
use triple_arena_stack::NonZeroInxGenericStack;
use triple_arena_traits::last_index::last_index;
use triple_arena_traits::{ArenaCloneFromWith, ArenaTrait, CompactArenaTrait};

impl<P: Ptr, T, S: NonZeroInxGenericStack<DirectSlot<P, T>>> ArenaCloneFromWith<P, T>
    for DirectArena<P, T, S> {
    ghost use Rattle.triple_arena_direct_arena.specs.laws.DirectCloningLaws.{kept-cloned, limit-cloned, capacity-cloned};

    // the slots of the copy stand, in room for the last index; there is no counter
    ghost clones = { λ old last _ copy new. new
        ≡ direct_with_slots (direct_ready_for S.kind old last) copy };

    fn clone_from_with<U, E, A: CompactArenaTrait<P, U>, M: FnMut(P, &U) -> Result<T, E>>(
        &mut self,
        source: &A,
        map: M,
    ) -> Result<(), CloneFromError<E>>
    where
        T: Drop,
    {
        self.make_room(last_index(source))?;
        match self.hold_copies(source, map) {
            Ok(()) => Ok(()),
            Err(refusal) => Err(CloneFromError::Map(refusal)),
        }
    }

    ghost slots_cloned = { kept-cloned S.kind };

    ghost limit_cloned = { limit-cloned S.kind };

    ghost capacity_cloned = { capacity-cloned S.kind };
}

impl<P: Ptr, T, S: NonZeroInxGenericStack<DirectSlot<P, T>>> DirectArena<P, T, S> {
    /// Drops the entries, and takes those of `source` out, one by one in the order of their indexes.
    /// What `map` makes of each stands from index 1 on, under `new_generation` (`Transfers`). `map`
    /// is called with the old pointer, with what the removal told, and with the new pointer. The
    /// pointer types may differ.
    ///
    /// `source` is left as its own removals leave it: it has no entry. Where none of them wraps its
    /// counter, each history that fitted it goes on by the removals of its pointers (`history`). The
    /// room changes only where there are more entries than fit, and no memory is taken elsewhere.
    ///
    /// Refused only where `source` has more entries than fit, and as `reallocate_min_capacity`
    /// refuses their number: `AllocError` where it is past the greatest index; else
    /// `BeyondMaxCapacity` exactly where the limit is below it; else `AllocError` where memory is
    /// refused. Then `source` and every entry are as they were.
    pub fn transfer_reallocating<
        Q: Ptr,
        U,
        A: CompactArenaTrait<Q, U>,
        M: FnMut(Q, InvalidationOption<U>, P) -> T,
    >(&mut self, new_generation: P::Gen, source: &mut A, map: M) -> Result<(), ReallocationError>
    where
        T: Drop,
        requires callable { M.IsAlwaysCallable map }
        ensures done { OnOk result ((put : List (Option (ℕ × T)))
            × Transfers Q.numbers P.numbers M.step A.slots A.fits A.removes A.ending_wraps
            Q.Gen.generations (P.Gen.number new_generation) map source.old source.new put
            × (self.new ≡ direct_with_slots (direct_ready_for S.kind self.old (length put)) put)) }
        ensures counted { OnOk result (direct_len self.new ≡ entry_count (A.slots source.old)) }
        ensures emptied { OnOk result (entry_count (A.slots source.new) ≡ 0) }
        ensures history { OnOk result (NoneWraps A.removes A.ending_wraps Q.Gen.generations
            source.old (keys (A.slots source.old)) → Continues A.fits source.old
            (removals (keys (A.slots source.old))) source.new) }
        ensures refused { OnErr result
            (self.new ≡ direct_shortened self.old (entry_count (A.slots source.old))) }
        ensures whole { OnErr result (source.new ≡ source.old) }
        ensures short { OnErr result (direct_capacity self.old < entry_count (A.slots source.old)) }
        ensures indexed { OnOk result (entry_count (A.slots source.old)
            ≤ greatest_index P.Inx.greatest) }
        ensures beyond { (result ≡ Err ReallocationError.BeyondMaxCapacity)
            ↔ ((direct_capacity self.old < entry_count (A.slots source.old))
            × (entry_count (A.slots source.old) ≤ greatest_index P.Inx.greatest)
            × IsBeyond self.old.limit (entry_count (A.slots source.old))) }
        ensures with_memory { entry_count (A.slots source.old) ≤ greatest_index P.Inx.greatest
            → IsWithin self.old.limit (entry_count (A.slots source.old))
            → S.has_memory
            (direct_reallocated S.kind self.old (entry_count (A.slots source.old))).room
            → IsOk result }
    {
        self.make_room(source.len())?;
        self.take_over(new_generation, source, map);
        Ok(())
    }

    // Takes the entries of an arena out, one by one in order, and holds them alone, from index 1 on,
    // each mapped by the closure, under this generation.
    fn take_over<Q: Ptr, U, A: CompactArenaTrait<Q, U>, M: FnMut(Q, InvalidationOption<U>, P) -> T>(
        &mut self,
        generation: P::Gen,
        source: &mut A,
        f: M,
    )
    where
        T: Drop,
        requires callable { M.IsAlwaysCallable f }
        requires fits { entry_count (A.slots source.old) ≤ direct_capacity self.old }
        ensures transferred { (put : List (Option (ℕ × T)))
            × Transfers Q.numbers P.numbers M.step A.slots A.fits A.removes A.ending_wraps
            Q.Gen.generations (P.Gen.number generation) f source.old source.new put
            × (self.new ≡ direct_with_slots self.old put)
            × (length put ≡ entry_count (A.slots source.old)) }
        ensures emptied { entry_count (A.slots source.new) ≡ 0 }
        ensures counted { direct_len self.new ≡ entry_count (A.slots source.old) }
    {
        self.slots.uncounted_stack_mut().clear();
        self.len = self.slots.uncounted_take_over(generation, source, f);
    }

    // Reallocates where so many are past the capacity.
    fn make_room(&mut self, min_capacity: usize) -> Result<(), ReallocationError>
        ensures done { OnOk result (self.new ≡ direct_ready_for S.kind self.old min_capacity) }
        ensures refused { OnErr result (self.new ≡ direct_shortened self.old min_capacity) }
        ensures short { OnErr result (direct_capacity self.old < min_capacity) }
        ensures fits { SlotsFit self.old }
        ensures beyond { (result ≡ Err ReallocationError.BeyondMaxCapacity)
            ↔ ((direct_capacity self.old < min_capacity)
            × (min_capacity ≤ greatest_index P.Inx.greatest)
            × IsBeyond self.old.limit min_capacity) }
        ensures with_memory { min_capacity ≤ greatest_index P.Inx.greatest
            → IsWithin self.old.limit min_capacity
            → S.has_memory (direct_reallocated S.kind self.old min_capacity).room → IsOk result }
        ensures place { OnOk result (min_capacity ≤ direct_capacity self.new) }
        ensures indexed { OnOk result (min_capacity ≤ greatest_index P.Inx.greatest) }
    {
        if min_capacity <= self.capacity() {
            return Ok(());
        }
        self.reallocate_min_capacity(min_capacity)
    }

    // Holds the entries of an arena alone, under the same pointers, each mapped by the closure, up to
    // its first refusal.
    fn hold_copies<U, E, A: CompactArenaTrait<P, U>, M: FnMut(P, &U) -> Result<T, E>>(
        &mut self,
        source: &A,
        f: M,
    ) -> Result<(), E>
    where
        T: Drop,
        requires callable { M.IsAlwaysCallable f }
        requires fits { last_index (A.slots source.now) ≤ direct_capacity self.old }
        ensures { (new : List (Option (ℕ × T)))
            × Copies P.numbers M.step f (entries (A.slots source.now)) result new
            × (self.new ≡ direct_with_slots self.old new) }
    {
        self.slots.uncounted_stack_mut().clear();
        let (len, answer) = self.slots.uncounted_copy(source, f);
        self.len = len;
        answer
    }
}
