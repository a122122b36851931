//! Chains as clauses on loans name them.

use crate::chains::Chains;
use crate::link::Link;
use triple_arena::{ArenaInsertTrait, CompactArenaTrait, LendingArena};
use triple_arena_ptr::Ptr;

impl<P: Ptr, T, A: CompactArenaTrait<P, Link<P, T>> + ArenaInsertTrait<P, Link<P, T>>> LendingArena
    for Chains<P, T, A> {
    ghost use Rattle.triple_arena_chain.specs.contracts.chains.Chains.{the_row};

    ghost arena_row = { the_row P.row T.row A.row P.Inx.row P.Gen.row A.PtrAdvancer.row
        P.Ptr.own P.Debug P.Hash.own P.PartialEq P.PartialOrd.own P.Ord.own P.Recast
        P.Inx.PtrInx.own P.Inx.Debug P.Inx.Hash.own P.Inx.PartialEq P.Inx.PartialOrd.own
        P.Inx.Ord.own P.Gen.PtrGen.own P.Gen.Debug P.Gen.Hash.own P.Gen.PartialEq
        P.Gen.PartialOrd.own P.Gen.Ord.own A.CompactArenaTrait.own A.ArenaTrait.own A.ArenaStates
        A.PtrAdvancer.Advancer A.ArenaInsertTrait.own };
}
