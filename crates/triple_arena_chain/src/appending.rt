//! A chain that grows at its end, as a list of values.

ghost use Rattle.std.specs.Prelude.{◌≡◌, List, [], ◌∷◌, ◌++◌, None, Some, Err, IsSome, IfOk, OnOk, OnErr};
ghost use Rattle.triple_arena_ptr.specs.Pointers.{Pointer};
ghost use Rattle.triple_arena_ptr.specs.Numbers.{greatest_index};
ghost use Rattle.triple_arena.specs.Histories.{insertion, Continues};
ghost use Rattle.triple_arena_chain.specs.Chains.{nodes, after_at, IsInserted, IsRun, Lists, values_at};
ghost use Rattle.triple_arena_chain.specs.Room.{HasOneMore, DependsOnRoom};

use crate::chains::Chains;
use crate::laws::chains_as_lists;
use crate::link::Link;
use crate::place::{ChainError, Place};
use triple_arena::{ArenaInsertTrait, ArenaTrait, CompactArenaTrait};
use triple_arena_ptr::{Ptr, PtrInx};

impl<P: Ptr, T, A: CompactArenaTrait<P, Link<P, T>> + ArenaInsertTrait<P, Link<P, T>>> Chains<
    P,
    T,
    A,
> {
    /// A value at the end of an open chain, behind its last entry: pointers that list the chain up to
    /// there list the same values with the new pointer behind them, and the new value last.
    ///
    /// `NoEntry` exactly where the pointer finds nothing, `Taken` exactly where an entry stands after
    /// it; else as [`Self::insert_new`]. Then nothing changes, and the value is dropped.
    pub fn push_back(&mut self, last: P, value: T) -> Result<P, ChainError>
    where
        T: Drop,
        // Done: the value stands behind the last entry, so that the chain lists one value more.
        ensures listed { IfOk result (λ q. (ps : List Pointer)
            → IsRun (nodes self.old) (ps ++ P.numbers last ∷ []) None
            → Lists (nodes self.new) (ps ++ P.numbers last ∷ P.numbers q ∷ []) None
            (values_at (nodes self.old) (ps ++ P.numbers last ∷ []) ++ Some value ∷ [])) }
        ensures inserted { IfOk result (λ q. IsInserted (nodes self.old)
            (Some (P.numbers last)) None (P.numbers q) value (nodes self.new)) }
        ensures size { OnOk result (HasOneMore A.capacity A.grown self.old self.new) }
        ensures history { IfOk result (λ q. Continues A.fits self.old.arena
            (insertion (P.numbers q) ∷ []) self.new.arena) }

        // Refused: nothing has changed. The pointer found nothing, an entry stood after it, or room or memory
        // was refused.
        ensures refused { OnErr result (self.new ≡ self.old) }
        ensures no_entry { nodes self.old (P.numbers last) ≡ None
            → result ≡ Err ChainError.NoEntry }
        ensures taken { IsSome (after_at (nodes self.old) (P.numbers last))
            → result ≡ Err ChainError.Taken }
        ensures room { IsSome (nodes self.old (P.numbers last))
            → after_at (nodes self.old) (P.numbers last) ≡ None
            → DependsOnRoom A.has_memory (greatest_index P.Inx.greatest) self.old result }
    {
        // How lists of pointers follow an insertion.
        chains_as_lists::<T>();
        match self.after(last) {
            Some(_next) => Err(ChainError::Taken),
            None => self.insert(Place::After(last), value),
        }
    }
}
