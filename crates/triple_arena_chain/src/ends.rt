//! Chains that are cut, and joined.

ghost use Rattle.std.specs.Prelude.{◌≡◌, ◌≢◌, ◌↔◌, ◌⊎◌, [], None, Some, IsSome, OnOk, OnErr, Err};
ghost use Rattle.std.specs.Result.{IfErr};
ghost use Rattle.triple_arena.specs.Histories.{Continues};
ghost use Rattle.triple_arena_chain.specs.Chains.{nodes, before_at, after_at, KeepsSize, IsCut, IsJoined, AreOpen, KeepsApart};

use crate::chains::Chains;
use crate::link::Link;
use crate::place::ChainError;
use crate::steps::tie;
use triple_arena::{ArenaInsertTrait, ArenaTrait, CompactArenaTrait};
use triple_arena_ptr::Ptr;

impl<P: Ptr, T, A: CompactArenaTrait<P, Link<P, T>> + ArenaInsertTrait<P, Link<P, T>>> Chains<
    P,
    T,
    A,
> {
    /// Cuts a chain behind an entry, which is the last of its chain then; what stood after it is the
    /// first of another, or of the same where the chain was a ring.
    ///
    /// `NoEntry` exactly where the pointer finds nothing; then nothing changes.
    pub fn cut_after(&mut self, p: P) -> Result<(), ChainError>
        // Done: the entry, which was there, is the last of its chain.
        ensures cut { OnOk result (IsCut (nodes self.old)
            (Some (P.numbers p)) (after_at (nodes self.old) (P.numbers p)) (nodes self.new)) }
        ensures there { OnOk result (IsSome (nodes self.old (P.numbers p))) }

        // Refused: nothing has changed, and the pointer found nothing.
        ensures refused { OnErr result (self.new ≡ self.old) }
        ensures no_entry { OnErr result (nodes self.old (P.numbers p) ≡ None) }
        ensures refusal { IfErr result (λ refusal. refusal ≡ ChainError.NoEntry) }

        // In each case there are as many entries and as much room, and a history goes on as it is.
        ensures size { KeepsSize self.old self.new }
        ensures history { Continues A.fits self.old.arena [] self.new.arena }
    {
        let Some(link) = self.arena.get(p) else {
            return Err(ChainError::NoEntry);
        };
        let next = link.after;
        tie(&mut self.arena, Some(p), next, None, None);
        Ok(())
    }

    /// Cuts a chain before an entry, which is the first of its chain then; what stood before it is the
    /// last of another, or of the same where the chain was a ring.
    ///
    /// `NoEntry` exactly where the pointer finds nothing; then nothing changes.
    pub fn cut_before(&mut self, p: P) -> Result<(), ChainError>
        // Done: the entry, which was there, is the first of its chain.
        ensures cut { OnOk result (IsCut (nodes self.old)
            (before_at (nodes self.old) (P.numbers p)) (Some (P.numbers p)) (nodes self.new)) }
        ensures there { OnOk result (IsSome (nodes self.old (P.numbers p))) }

        // Refused: nothing has changed, and the pointer found nothing.
        ensures refused { OnErr result (self.new ≡ self.old) }
        ensures no_entry { OnErr result (nodes self.old (P.numbers p) ≡ None) }
        ensures refusal { IfErr result (λ refusal. refusal ≡ ChainError.NoEntry) }

        // In each case there are as many entries and as much room, and a history goes on as it is.
        ensures size { KeepsSize self.old self.new }
        ensures history { Continues A.fits self.old.arena [] self.new.arena }
    {
        let Some(link) = self.arena.get(p) else {
            return Err(ChainError::NoEntry);
        };
        let prev = link.before;
        tie(&mut self.arena, prev, Some(p), None, None);
        Ok(())
    }

    /// Has a chain go on behind its last entry with another, from its first entry on. Where both are
    /// of one chain, it becomes a ring.
    ///
    /// `NoEntry` exactly where one of the pointers finds nothing, else `Taken` exactly where the one
    /// has an entry after it, or the other one before it; then nothing changes.
    pub fn join(&mut self, last: P, first: P) -> Result<(), ChainError>
        // Done: the one chain, which was open there, goes on with the other.
        ensures joined { OnOk result (IsJoined (nodes self.old)
            (P.numbers last) (P.numbers first) (nodes self.new)) }
        ensures open { OnOk result
            (AreOpen (nodes self.old) (P.numbers last) (P.numbers first)) }

        // Refused: nothing has changed. A pointer found nothing, or the one had an entry after it, or the other
        // one before it.
        ensures refused { OnErr result (self.new ≡ self.old) }
        ensures refusal { IfErr result
            (KeepsApart (nodes self.old) (P.numbers last) (P.numbers first)) }
        ensures no_entry { (result ≡ Err ChainError.NoEntry)
            ↔ ((nodes self.old (P.numbers last) ≡ None)
            ⊎ (nodes self.old (P.numbers first) ≡ None)) }
        ensures taken { (result ≡ Err ChainError.Taken)
            ↔ KeepsApart (nodes self.old) (P.numbers last) (P.numbers first) ChainError.Taken }

        // In each case there are as many entries and as much room, and a history goes on as it is.
        ensures size { KeepsSize self.old self.new }
        ensures history { Continues A.fits self.old.arena [] self.new.arena }
    {
        let Some(end) = self.arena.get(last) else {
            return Err(ChainError::NoEntry);
        };
        let after = end.after;
        let Some(start) = self.arena.get(first) else {
            return Err(ChainError::NoEntry);
        };
        let before = start.before;
        if after.is_some() {
            return Err(ChainError::Taken);
        }
        if before.is_some() {
            return Err(ChainError::Taken);
        }
        tie(
            &mut self.arena,
            Some(last),
            Some(first),
            Some(first),
            Some(last),
        );
        Ok(())
    }
}
