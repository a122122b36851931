//! Two sets made one.

ghost use Rattle.std.specs.Prelude.{◌≡◌, ◌↔◌, ◌⊎◌, [], None, Some, Ok, IsSome, IfOk, OnOk, OnErr};
ghost use Rattle.triple_arena.specs.Histories.{Continues};
ghost use Rattle.triple_arena_surject.specs.Surject.{found_at, val_at, AreTogether, IsUnited, KeepsTogether, IsRefusedWhere};
ghost use Rattle.triple_arena_surject.specs.Room.{MakesOne, KeepsKeys, HasOneLess};

use crate::member::{Member, Shared};
use crate::refusal::SurjectError;
use crate::steps::{count_keys, relabel, set_of, size_of, splice, take};
use crate::surject::SurjectArena;
use triple_arena::{ArenaInsertTrait, ArenaTrait, CompactArenaTrait};
use triple_arena_chain::Link;
use triple_arena_ptr::Ptr;

impl<
    P: Ptr,
    K,
    V,
    A: CompactArenaTrait<P, Link<P, Member<P, K>>> + ArenaInsertTrait<P, Link<P, Member<P, K>>>,
    B: ArenaInsertTrait<P, Shared<V>>,
> SurjectArena<P, K, V, A, B> {
    /// Makes one set of two. The value of the set with more keys stays, or of the first where both have as many; that
    /// of the other comes back. Nothing comes back where both are one set, and nothing changes then. Every key stays
    /// under its pointer, and a key whose set has another name then is of a set at least twice as large. It takes no
    /// memory.
    ///
    /// `NoEntry` exactly where one of the pointers finds nothing; then nothing changes.
    pub fn union(&mut self, p: P, q: P) -> Result<Option<V>, SurjectError>
        // Done: where they were two sets, they are one, and the value of the set that goes comes back.
        ensures united { IfOk result (λ gives. IsSome gives
            → MakesOne self.old (P.numbers p) (P.numbers q) gives self.new) }
        ensures together { OnOk result (AreTogether self.new (P.numbers p) (P.numbers q)) }

        // Where they were one set, nothing comes back, and nothing has changed.
        ensures one { (result ≡ Ok None) ↔ AreTogether self.old (P.numbers p) (P.numbers q) }
        ensures kept { result ≡ Ok None → self.new ≡ self.old }

        // Refused: nothing has changed, and one of the pointers found nothing.
        ensures refused { OnErr result (self.new ≡ self.old) }
        ensures no_entry { IsRefusedWhere ((found_at self.old (P.numbers p) ≡ None)
            ⊎ (found_at self.old (P.numbers q) ≡ None)) result }

        // In each case those that were together are, and no others but by this union; there are as many keys under the same
        // pointers, and as much room.
        ensures sets { KeepsTogether self.old (P.numbers p) (P.numbers q) self.new }
        ensures size { KeepsKeys A.fits self.old self.new }
    {
        let Some(first) = self.len_key_set(p) else {
            return Err(SurjectError::NoEntry);
        };
        let Some(second) = self.len_key_set(q) else {
            return Err(SurjectError::NoEntry);
        };
        if self.in_same_set(p, q) {
            return Ok(None);
        }
        if second <= first {
            Ok(Some(self.take_in(p, q)))
        } else {
            Ok(Some(self.take_in(q, p)))
        }
    }

    // Has one set take in the keys of another, and gives the value of that.
    fn take_in(&mut self, kept: P, gone: P) -> V
        requires kept { IsSome (found_at self.old (P.numbers kept)) }
        requires gone { IsSome (found_at self.old (P.numbers gone)) }
        requires apart { ¬ AreTogether self.old (P.numbers kept) (P.numbers gone) }
        ensures gives { val_at self.old (P.numbers gone) ≡ Some result }
        ensures united { IsUnited self.old (P.numbers kept) (P.numbers gone) self.new }
        ensures fewer { HasOneLess self.old self.new }
        ensures history { Continues A.fits self.old.arena [] self.new.arena }
    {
        // Neighbours lead to each other.
        let _len = self.keys.len();
        let first = set_of(&self.keys, kept);
        let set = first.unwrap();
        let second = set_of(&self.keys, gone);
        let other = second.unwrap();
        let count = size_of(&self.sets, set);
        let taken = take(&mut self.sets, other);
        let out = taken.unwrap();
        relabel(&mut self.keys, gone, out.keys, set);
        splice(&mut self.keys, kept, gone);
        // There are at least as many keys as both sets have.
        let _all = self.keys.len();
        count_keys(&mut self.sets, set, count + out.keys);
        out.value
    }
}
