//! Sets of keys as clauses on loans name them.

use crate::member::{Member, Shared};
use crate::surject::SurjectArena;
use triple_arena::{ArenaInsertTrait, CompactArenaTrait, LendingArena};
use triple_arena_chain::Link;
use triple_arena_ptr::Ptr;

impl<
    P: Ptr,
    K,
    V,
    A: CompactArenaTrait<P, Link<P, Member<P, K>>> + ArenaInsertTrait<P, Link<P, Member<P, K>>>,
    B: ArenaInsertTrait<P, Shared<V>>,
> LendingArena for SurjectArena<P, K, V, A, B> {
    ghost use Rattle.triple_arena_surject.specs.contracts.surject.SurjectArena.{the_row};

    ghost arena_row = { the_row P.row K.row V.row A.row B.row P.Inx.row P.Gen.row A.PtrAdvancer.row
        B.PtrAdvancer.row
        P.Ptr.own P.Debug P.Hash.own P.PartialEq P.PartialOrd.own P.Ord.own P.Recast
        P.Inx.PtrInx.own P.Inx.Debug P.Inx.Hash.own P.Inx.PartialEq P.Inx.PartialOrd.own
        P.Inx.Ord.own P.Gen.PtrGen.own P.Gen.Debug P.Gen.Hash.own P.Gen.PartialEq
        P.Gen.PartialOrd.own P.Gen.Ord.own A.CompactArenaTrait.own A.ArenaTrait.own A.ArenaStates
        A.PtrAdvancer.Advancer A.ArenaInsertTrait.own B.ArenaInsertTrait.own B.ArenaTrait.own B.ArenaStates
        B.PtrAdvancer.Advancer };
}
