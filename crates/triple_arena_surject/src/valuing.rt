//! The value of a set, for writing.

ghost use Rattle.std.specs.Borrow.{sem, LendsIf};
ghost use Rattle.std.specs.Prelude.{◌≡◌, ◌↔◌, None, Some, IsSome, IfOk, OnOk, OnErr};
ghost use Rattle.std.specs.Option.{option_copied_mut};
ghost use Rattle.triple_arena_surject.specs.Surject.{found_at, set_at, val_at, put_val, with_val, IsValued, IsRefusedWhere};
ghost use Rattle.triple_arena_surject.specs.Room.{KeepsSize};

use crate::member::{Member, Shared};
use crate::refusal::SurjectError;
use crate::steps::set_of;
use crate::surject::SurjectArena;
use std::mem;
use triple_arena::{ArenaInsertTrait, ArenaTrait, CompactArenaTrait, LendingArena};
use triple_arena_chain::Link;
use triple_arena_ptr::Ptr;

impl<
    P: Ptr,
    K,
    V,
    A: CompactArenaTrait<P, Link<P, Member<P, K>>> + ArenaInsertTrait<P, Link<P, Member<P, K>>>,
    B: ArenaInsertTrait<P, Shared<V>>,
> SurjectArena<P, K, V, A, B> {
    /// The value of a pointer's set, for writing; none exactly where the pointer finds nothing. What is written is what
    /// all keys of the set find, and all else stays.
    pub fn get_val_mut(&mut self, p: P) -> Option<&mut V>
        ensures value { option_copied_mut result ≡ val_at self.old (P.numbers p) }
        ensures some { IsSome result ↔ IsSome (found_at self.old (P.numbers p)) }
        ensures* writes_back { sem 𝓛 (LendsIf ⟦<SurjectArena<P, K, V, A, B> as LendingArena>⟧.arena_row
            V.row self.entry result (with_val (put_val B.slots B.with_value) self.old
            (set_at self.old (P.numbers p))) self.old) }
        ensures written { IsSome (found_at self.old (P.numbers p)) → (value : V)
            → IsValued self.old (P.numbers p) value
            (with_val (put_val B.slots B.with_value) self.old (set_at self.old (P.numbers p))
            value) }
    {
        let set = set_of(&self.keys, p)?;
        let shared = self.sets.get_mut(set)?;
        Some(&mut shared.value)
    }

    /// Puts another value for a pointer's set, and gives the one that it had.
    ///
    /// `NoEntry` exactly where the pointer finds nothing; then nothing changes, and the value is dropped.
    pub fn replace_val(&mut self, p: P, value: V) -> Result<V, SurjectError>
    where
        V: Drop,
        // Done: the set has this value, and the one that it had comes back.
        ensures was { IfOk result (λ was. val_at self.old (P.numbers p) ≡ Some was) }
        ensures valued { OnOk result (IsValued self.old (P.numbers p) value self.new) }

        // Refused: nothing has changed, and the pointer found nothing.
        ensures refused { OnErr result (self.new ≡ self.old) }
        ensures no_entry { IsRefusedWhere (found_at self.old (P.numbers p) ≡ None) result }

        // In each case there are as many keys and sets in the same arena, and as much room.
        ensures arena { self.new.arena ≡ self.old.arena }
        ensures size { KeepsSize self.old self.new }
    {
        let Some(place) = self.get_val_mut(p) else {
            return Err(SurjectError::NoEntry);
        };
        Ok(mem::replace(place, value))
    }
}
