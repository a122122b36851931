//! Cloning and transfer into the arena.

ghost use Rattle.std.specs.Prelude.{◌≡◌, ℕ, List, Option, ◌≤◌, ◌<◌, ◌↔◌, length, IsOk, OnOk, OnErr, Err};
ghost use Rattle.triple_arena_ptr.specs.Numbers.{greatest_index, first_generation};
ghost use Rattle.triple_arena_stack.specs.Capacity.{IsWithin, IsBeyond};
ghost use Rattle.triple_arena_traits.specs.ArenaState.{slot_count, capacity, arena_len};
ghost use Rattle.triple_arena_traits.specs.Entries.{entry_count};
ghost use Rattle.triple_arena_traits.specs.FreeList.{tidied, laid_out, last_index};
ghost use Rattle.triple_arena_traits.specs.SlotSteps.{IsTouched};
ghost use Rattle.triple_arena_traits.specs.Reallocation.{reallocated, ready_for};
ghost use Rattle.triple_arena_traits.specs.Walks.{entries, keys};
ghost use Rattle.triple_arena_traits.specs.Copying.{Copies};
ghost use Rattle.triple_arena_traits.specs.Cloning.{counter_of};
ghost use Rattle.triple_arena_traits.specs.Transfers.{Transfers};
ghost use Rattle.triple_arena_traits.specs.Drains.{removals, NoneWraps};
ghost use Rattle.triple_arena_traits.specs.Histories.{Continues};

use crate::base_arena::Arena;
use triple_arena_base::{CloneFromError, InvalidationOption, ReallocationError};
use triple_arena_ptr::{Ptr, PtrGen, PtrInx};
use triple_arena_slots::ArenaSlot;
use triple_arena_stack::NonZeroInxGenericStack;
use triple_arena_traits::last_index::last_index;
use triple_arena_traits::{ArenaCloneFromWith, ArenaTrait, CompactArenaTrait};

impl<P: Ptr, T, S: NonZeroInxGenericStack<ArenaSlot<P, T>>> ArenaCloneFromWith<P, T>
    for Arena<P, T, S> {
    ghost use Rattle.triple_arena.specs.laws.TouchedLaws.{cloned_slots, cloned_limit, cloned_capacity};

    // the slots of the copy stand, in room for the last index; the free indexes are the gaps in
    // rising order, and the counter is the source's, or the first generation
    ghost clones = { λ old last next copy new. IsTouched (laid_out (ready_for S.kind old last) copy
        (counter_of (first_generation P.Gen.generations) next)) new };

    fn clone_from_with<U, E, A: CompactArenaTrait<P, U>, M: FnMut(P, &U) -> Result<T, E>>(
        &mut self,
        source: &A,
        map: M,
    ) -> Result<(), CloneFromError<E>>
    where
        T: Drop,
    {
        self.make_room(last_index(source))?;
        let counter = source.singular_generation().unwrap_or(P::Gen::two());
        self.hold_copies(counter, source, map)
            .map_err(CloneFromError::Map)
    }

    ghost slots_cloned = { cloned_slots S.kind (first_generation P.Gen.generations) };

    ghost limit_cloned = { cloned_limit S.kind (first_generation P.Gen.generations) };

    ghost capacity_cloned = { cloned_capacity S.kind (first_generation P.Gen.generations) };
}

impl<P: Ptr, T, S: NonZeroInxGenericStack<ArenaSlot<P, T>>> Arena<P, T, S> {
    /// Drops the entries, and takes those of `source` out, one by one in the order of their indexes.
    /// What `map` makes of each stands from index 1 on, under `new_generation`, which becomes the
    /// counter (`Transfers`). `map` is called with the old pointer, with what the removal told, and
    /// with the new pointer. The pointer types may differ.
    ///
    /// `source` is left as its own removals leave it: it has no entry. Where none of them wraps its
    /// counter, each history that fitted it goes on by the removals of its pointers (`history`). The
    /// room changes only where there are more entries than fit, and no memory is taken elsewhere.
    ///
    /// Refused only where `source` has more entries than fit, and as `reallocate_min_capacity`
    /// refuses their number: `AllocError` where it is past the greatest index; else
    /// `BeyondMaxCapacity` exactly where the limit is below it; else `AllocError` where memory is
    /// refused. Then `source` and every entry are as they were.
    pub fn transfer_reallocating<
        Q: Ptr,
        U,
        A: CompactArenaTrait<Q, U>,
        M: FnMut(Q, InvalidationOption<U>, P) -> T,
    >(&mut self, new_generation: P::Gen, source: &mut A, map: M) -> Result<(), ReallocationError>
    where
        T: Drop,
        requires callable { M.IsAlwaysCallable map }
        ensures done { OnOk result ((put : List (Option (ℕ × T)))
            × Transfers Q.numbers P.numbers M.step A.slots A.fits A.removes A.ending_wraps
            Q.Gen.generations (P.Gen.number new_generation) map source.old source.new put
            × IsTouched (laid_out (ready_for S.kind self.old (length put)) put
            (P.Gen.number new_generation)) self.new) }
        ensures counted { OnOk result (arena_len self.new ≡ entry_count (A.slots source.old)) }
        ensures emptied { OnOk result (entry_count (A.slots source.new) ≡ 0) }
        ensures history { OnOk result (NoneWraps A.removes A.ending_wraps Q.Gen.generations
            source.old (keys (A.slots source.old)) → Continues A.fits source.old
            (removals (keys (A.slots source.old))) source.new) }
        ensures refused { OnErr result (IsTouched (tidied self.old) self.new) }
        ensures whole { OnErr result (source.new ≡ source.old) }
        ensures short { OnErr result (capacity self.old < entry_count (A.slots source.old)) }
        ensures indexed { OnOk result (entry_count (A.slots source.old)
            ≤ greatest_index P.Inx.greatest) }
        ensures beyond { (result ≡ Err ReallocationError.BeyondMaxCapacity)
            ↔ ((capacity self.old < entry_count (A.slots source.old))
            × (entry_count (A.slots source.old) ≤ greatest_index P.Inx.greatest)
            × IsBeyond self.old.limit (entry_count (A.slots source.old))) }
        ensures with_memory { entry_count (A.slots source.old) ≤ greatest_index P.Inx.greatest
            → IsWithin self.old.limit (entry_count (A.slots source.old))
            → S.has_memory (reallocated S.kind self.old (entry_count (A.slots source.old))).room
            → IsOk result }
    {
        self.make_room(source.len())?;
        self.take_over(new_generation, source, map);
        Ok(())
    }

    // Reallocates where so many are past the capacity.
    fn make_room(&mut self, min_capacity: usize) -> Result<(), ReallocationError>
        ensures done { OnOk result (IsTouched (ready_for S.kind self.old min_capacity) self.new) }
        ensures refused { OnErr result (IsTouched (tidied self.old) self.new) }
        ensures short { OnErr result (capacity self.old < min_capacity) }
        ensures fits { slot_count self.old ≤ capacity self.old }
        ensures beyond { (result ≡ Err ReallocationError.BeyondMaxCapacity)
            ↔ ((capacity self.old < min_capacity) × (min_capacity ≤ greatest_index P.Inx.greatest)
            × IsBeyond self.old.limit min_capacity) }
        ensures with_memory { min_capacity ≤ greatest_index P.Inx.greatest
            → IsWithin self.old.limit min_capacity
            → S.has_memory (reallocated S.kind self.old min_capacity).room → IsOk result }
        ensures place { OnOk result (min_capacity ≤ capacity self.new) }
        ensures indexed { OnOk result (min_capacity ≤ greatest_index P.Inx.greatest) }
    {
        if min_capacity <= self.capacity() {
            return Ok(());
        }
        self.reallocate_min_capacity(min_capacity)
    }

    // Holds the entries of an arena alone, under the same pointers, each mapped by the closure, up to
    // its first refusal.
    fn hold_copies<U, E, A: CompactArenaTrait<P, U>, M: FnMut(P, &U) -> Result<T, E>>(
        &mut self,
        counter: P::Gen,
        source: &A,
        f: M,
    ) -> Result<(), E>
    where
        T: Drop,
        requires callable { M.IsAlwaysCallable f }
        requires fits { last_index (A.slots source.now) ≤ capacity self.old }
        ensures { (new : List (Option (ℕ × T)))
            × Copies P.numbers M.step f (entries (A.slots source.now)) result new
            × IsTouched (laid_out self.old new (P.Gen.number counter)) self.new }
    {
        let (len, answer) = self.slots.copy(source, f);
        self.len = len;
        self.counter = counter;
        answer
    }

    // Takes the entries of an arena out, one by one in order, and holds them alone, from index 1 on,
    // each mapped by the closure, under this generation.
    fn take_over<Q: Ptr, U, A: CompactArenaTrait<Q, U>, M: FnMut(Q, InvalidationOption<U>, P) -> T>(
        &mut self,
        generation: P::Gen,
        source: &mut A,
        f: M,
    )
    where
        T: Drop,
        requires callable { M.IsAlwaysCallable f }
        requires fits { entry_count (A.slots source.old) ≤ capacity self.old }
        ensures transferred { (put : List (Option (ℕ × T)))
            × Transfers Q.numbers P.numbers M.step A.slots A.fits A.removes A.ending_wraps
            Q.Gen.generations (P.Gen.number generation) f source.old source.new put
            × IsTouched (laid_out self.old put (P.Gen.number generation)) self.new
            × (length put ≡ entry_count (A.slots source.old)) }
        ensures emptied { entry_count (A.slots source.new) ≡ 0 }
        ensures counted { arena_len self.new ≡ entry_count (A.slots source.old) }
    {
        self.len = self.slots.take_over(generation, source, f);
        self.counter = generation;
    }
}
