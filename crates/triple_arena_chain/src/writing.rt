//! The value under a pointer, for writing.

ghost use Rattle.std.specs.Borrow.{sem, LendsIf};
ghost use Rattle.std.specs.Prelude.{◌≡◌, [], IsSome};
ghost use Rattle.std.specs.Option.{option_copied_mut};
ghost use Rattle.triple_arena.specs.Histories.{Continues};
ghost use Rattle.triple_arena_chain.specs.Chains.{nodes, value_at, with_value_at, put_value, IsWritten};

use crate::chains::Chains;
use crate::link::Link;
use triple_arena::{ArenaInsertTrait, ArenaTrait, CompactArenaTrait, LendingArena};
use triple_arena_ptr::Ptr;

impl<P: Ptr, T, A: CompactArenaTrait<P, Link<P, T>> + ArenaInsertTrait<P, Link<P, T>>> Chains<
    P,
    T,
    A,
> {
    /// The value under a pointer, for writing; none exactly where the pointer finds nothing. What is
    /// written stands there, and all else stays.
    pub fn get_mut(&mut self, p: P) -> Option<&mut T>
        ensures value { option_copied_mut result ≡ value_at (nodes self.old) (P.numbers p) }
        ensures* writes_back { sem 𝓛 (LendsIf ⟦<Chains<P, T, A> as LendingArena>⟧.arena_row T.row
            self.entry result (with_value_at (put_value A.slots A.with_value) self.old
            (P.numbers p).0) self.old) }
        ensures written { IsSome (nodes self.old (P.numbers p)) → (value : T)
            → IsWritten (nodes self.old) (P.numbers p) value (nodes
            (with_value_at (put_value A.slots A.with_value) self.old (P.numbers p).0 value)) }
        ensures history { IsSome (nodes self.old (P.numbers p)) → (value : T)
            → Continues A.fits self.old.arena []
            (put_value A.slots A.with_value self.old.arena (P.numbers p).0 value) }
    {
        let link = self.arena.get_mut(p)?;
        Some(&mut link.value)
    }
}
