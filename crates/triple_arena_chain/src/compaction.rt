//! Compaction, which keeps every chain.

ghost use Rattle.std.specs.Prelude.{◌≡◌, ◌<◌, false, IfOk, OnOk, OnErr};
ghost use Rattle.std.specs.Result.{IfErr};
ghost use Rattle.triple_arena_recasting.specs.Compacted.{TellsMap};
ghost use Rattle.triple_arena_chain.specs.Chains.{KeepsSize};
ghost use Rattle.triple_arena_chain.specs.Compaction.{KeepsChains};

use crate::chains::Chains;
use crate::link::Link;
use crate::place::ChainError;
use std::alloc::Global;
use triple_arena::{ArenaInsertTrait, ArenaTrait, CompactArenaTrait};
use triple_arena_base::InvalidationOption;
use triple_arena_direct_arena::DirectArena;
use triple_arena_ptr::{Ptr, PtrGen};
use triple_arena_recasting::compress_recast;
use triple_arena_recasting::renaming_laws::arenas_resolve;

impl<P: Ptr, T, A: CompactArenaTrait<P, Link<P, T>> + ArenaInsertTrait<P, Link<P, T>>> Chains<
    P,
    T,
    A,
> {
    /// Compresses the arena (`compress_recast`), and renames the neighbours of the entries with them:
    /// every chain has the values that it had, in its order, and no index is above the number of
    /// entries (`KeepsChains`). The map tells the new pointer of each entry, which the arena gives, and
    /// the answer tells a wrap exactly where the compression wraps the arena's counter (`TellsMap`).
    /// Generations don't begin anew: where they count, and the counter doesn't wrap, no pointer that was
    /// given before finds anything (`history`).
    ///
    /// `NoMemory`, and only where there is an entry and memory for the map is refused; then nothing
    /// changes. It isn't refused for a pointer that leads nowhere: in chains there is none.
    pub fn compress(
        &mut self,
        alloc: Global,
    ) -> Result<InvalidationOption<DirectArena<P, P>>, ChainError>
        // Done: the map leads from the old pointers to the new ones, by which every chain is kept.
        ensures map { IfOk result (TellsMap P.numbers (A.rank self.old.arena false) self.old.slots
            (A.compression_wraps self.old.arena false)) }
        ensures kept { OnOk result (KeepsChains A.slots A.fits P.Gen.generations
            (A.compression_wraps self.old.arena false) (A.rank self.old.arena false)
            self.old self.new) }

        // Refused: nothing has changed, there are entries, and memory is refused.
        ensures refused { OnErr result (self.new ≡ self.old) }
        ensures refusal { IfErr result
            (λ refusal. (refusal ≡ ChainError.NoMemory) × (0 < self.old.len)) }

        // In each case entries are as many as before, and capacity and limit stay.
        ensures size { KeepsSize self.old self.new }
    {
        // A refusal tells of a pointer that finds nothing, or of memory.
        arenas_resolve::<P, Link<P, T>, Link<P, T>>();
        let Ok(answer) = compress_recast(&mut self.arena, alloc, false) else {
            return Err(ChainError::NoMemory);
        };
        Ok(answer)
    }
}
