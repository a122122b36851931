//! Compaction of the keys, which keeps every set.

ghost use Rattle.std.specs.Prelude.{◌≡◌, ◌<◌, false, IfOk, OnOk, OnErr};
ghost use Rattle.std.specs.Result.{IfErr};
ghost use Rattle.triple_arena_recasting.specs.Compacted.{TellsMap};
ghost use Rattle.triple_arena_surject.specs.Room.{KeepsSize};
ghost use Rattle.triple_arena_surject.specs.Compaction.{KeepsSets};

use crate::member::{Member, Shared};
use crate::refusal::SurjectError;
use crate::surject::SurjectArena;
use std::alloc::Global;
use triple_arena::{ArenaInsertTrait, ArenaTrait, CompactArenaTrait};
use triple_arena_base::InvalidationOption;
use triple_arena_chain::Link;
use triple_arena_direct_arena::DirectArena;
use triple_arena_ptr::{Ptr, PtrGen};

impl<
    P: Ptr,
    K,
    V,
    A: CompactArenaTrait<P, Link<P, Member<P, K>>> + ArenaInsertTrait<P, Link<P, Member<P, K>>>,
    B: ArenaInsertTrait<P, Shared<V>>,
> SurjectArena<P, K, V, A, B> {
    /// Compresses the arena of keys: each key has a new pointer in the set that it was in, the entries keep their
    /// order, and no index is above the number of keys (`KeepsSets`). Values stay where they are. The map tells the
    /// new pointers, and the answer a wrap exactly where the compression wraps the counter of that arena (`TellsMap`).
    /// Generations don't begin anew: where they count, and the counter doesn't wrap, no pointer that was given before
    /// finds anything (`history`).
    ///
    /// `NoMemory`, and only where there is a key and memory for the map is refused; then nothing changes.
    pub fn compress(
        &mut self,
        alloc: Global,
    ) -> Result<InvalidationOption<DirectArena<P, P>>, SurjectError>
        // Done: the map leads from the old pointers to the new ones, by which every set is kept.
        ensures map { IfOk result (TellsMap P.numbers (A.rank self.old.arena false) self.old.keys
            (A.compression_wraps self.old.arena false)) }
        ensures kept { OnOk result (KeepsSets A.slots A.fits P.Gen.generations
            (A.compression_wraps self.old.arena false) (A.rank self.old.arena false)
            self.old self.new) }

        // Refused: nothing has changed, there are keys, and memory is refused.
        ensures refused { OnErr result (self.new ≡ self.old) }
        ensures refusal { IfErr result
            (λ refusal. (refusal ≡ SurjectError.NoMemory) × (0 < self.old.len_keys)) }

        // In each case there are as many keys and sets as before, and as much room.
        ensures size { KeepsSize self.old self.new }
    {
        // Keys are counted.
        let _before = self.keys.len();
        let Ok(answer) = self.keys.compress(alloc) else {
            return Err(SurjectError::NoMemory);
        };
        let _after = self.keys.len();
        Ok(answer)
    }
}
