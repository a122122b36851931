//! The room of chains, which is that of their arena.

ghost use Rattle.std.specs.Prelude.{◌≡◌, ◌≤◌, [], ◌∷◌, OnOk, OnErr};
ghost use Rattle.triple_arena_ptr.specs.Numbers.{greatest_index};
ghost use Rattle.triple_arena_stack.specs.Capacity.{IsWithin};
ghost use Rattle.triple_arena.specs.Histories.{resizing, Continues};
ghost use Rattle.triple_arena_chain.specs.Chains.{chains_in};
ghost use Rattle.triple_arena_chain.specs.Room.{KeepsNodes, DependsOnLimit};

use crate::chains::Chains;
use crate::link::Link;
use crate::place::ChainError;
use triple_arena::{ArenaInsertTrait, ArenaTrait, CompactArenaTrait};
use triple_arena_base::ReallocationError;
use triple_arena_ptr::{Ptr, PtrInx};

impl<P: Ptr, T, A: CompactArenaTrait<P, Link<P, T>> + ArenaInsertTrait<P, Link<P, T>>> Chains<
    P,
    T,
    A,
> {
    /// How many entries fit without growth: no more than the limit allows, and than there are indexes.
    pub fn capacity(&self) -> usize
        ensures value { result ≡ self.now.capacity }
        ensures allowed { IsWithin self.now.limit result }
        ensures indexed { result ≤ greatest_index P.Inx.greatest }

        // What is read of chains is what their arena tells.
        ensures arena { self.now
            ≡ chains_in P.numbers A.slots A.capacity A.limit self.now.arena }
    {
        self.arena.capacity()
    }

    /// How many entries are allowed, if there is a limit.
    pub fn max_capacity(&self) -> Option<usize>
        ensures { result ≡ self.now.limit }
    {
        self.arena.max_capacity()
    }

    /// Changes the room so that there is place for `min_capacity` entries, and for the slots that are in
    /// use, as the arena's own call does (`done`): every pointer finds what it found.
    ///
    /// `NoRoom` exactly where the limit is below `min_capacity`, and there are so many indexes; else
    /// `NoMemory` where there are not, or memory is refused. Then the capacity stays, and free slots at the
    /// end may be gone. Where the room stays the same, no memory is taken.
    pub fn reallocate_min_capacity(&mut self, min_capacity: usize) -> Result<(), ChainError>
        // Done: there is room for so many.
        ensures done { OnOk result
            (A.reallocates self.old.arena min_capacity self.new.arena) }
        ensures place { OnOk result (min_capacity ≤ self.new.capacity) }

        // Refused: as many fit as before, and the arena may have given up free slots.
        ensures refused { OnErr result (A.tidies self.old.arena min_capacity self.new.arena) }
        ensures capacity { OnErr result (self.new.capacity ≡ self.old.capacity) }
        ensures room { DependsOnLimit (greatest_index P.Inx.greatest) min_capacity self.old.limit
            (A.keeps_room self.old.arena min_capacity) (A.gets_room self.old.arena min_capacity)
            result }

        // In each case the entries stay, and a history goes on.
        ensures entries { KeepsNodes self.old self.new }
        ensures history { Continues A.fits self.old.arena (resizing ∷ []) self.new.arena }
    {
        match self.arena.reallocate_min_capacity(min_capacity) {
            Ok(()) => Ok(()),
            Err(ReallocationError::BeyondMaxCapacity) => Err(ChainError::NoRoom),
            Err(ReallocationError::AllocError) => Err(ChainError::NoMemory),
        }
    }
}
