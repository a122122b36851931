//! The strict arena as clauses on loans name it.

use crate::strict_arena::StrictArena;
use triple_arena::{ArenaSlot, LendingArena};
use triple_arena_ptr::Ptr;
use triple_arena_stack::NonZeroInxGenericStack;

impl<P: Ptr, T, S: NonZeroInxGenericStack<ArenaSlot<P, T>>> LendingArena for StrictArena<P, T, S> {
    ghost use Rattle.triple_arena_direct.specs.contracts.strict_arena.StrictArena.{the_row};

    ghost arena_row = { the_row P.row T.row S.row P.Inx.row P.Gen.row
        P.Ptr.own P.Debug P.Hash.own P.PartialEq P.PartialOrd.own P.Ord.own P.Recast
        P.Inx.PtrInx.own P.Inx.Debug P.Inx.Hash.own P.Inx.PartialEq P.Inx.PartialOrd.own
        P.Inx.Ord.own P.Gen.PtrGen.own P.Gen.Debug P.Gen.Hash.own P.Gen.PartialEq
        P.Gen.PartialOrd.own P.Gen.Ord.own S.NonZeroInxGenericStack };
}
