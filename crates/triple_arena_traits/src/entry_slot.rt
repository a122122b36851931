//! What a slot is, for code that works on the slots of any arena.

ghost use Rattle.std.specs.Prelude.{◌≡◌, ℕ, Option, Some, None, IsSome, is_some, option_copied};
ghost use Rattle.std.specs.Borrow.{sem, Lends, LendsIf};
ghost use Rattle.std.specs.Option.{option_map, option_and_then, option_copied_mut};
ghost use Rattle.triple_arena_traits.specs.DisjointEntries.{value_of};
ghost use Rattle.triple_arena_traits.specs.Entries.{value_of_generation};

use triple_arena_ptr::{Ptr, PtrGen};

/// A slot with an entry or without one, as an arena's own slots are: what is read, filled or emptied
/// through this trait is so in the same way in each arena (`entry_slots`, `copy_entries`,
/// `close_up`).
pub trait EntrySlot<P: Ptr, T>: Sized {
    // the generation and the value of its entry, if it has one
    ghost entry: { Self → Option (ℕ × T) };

    // the slot with another value, if it has one
    ghost with_value: { Self → T → Self };

    /// A slot without an entry.
    fn vacant() -> Self
        ensures { entry result ≡ None };

    /// A slot with this entry.
    fn holding(generation: P::Gen, value: T) -> Self
        ensures { entry result ≡ Some (P.Gen.number generation, value) };

    /// The generation and the value of its entry, if it has one.
    fn entry(&self) -> Option<(P::Gen, &T)>
        ensures { option_map (λ e. (P.Gen.number e.0, e.1.now)) result ≡ entry self.now };

    /// The value of its entry, for writing.
    fn value_mut(&mut self) -> &mut T
        requires { IsSome (entry self.old) }
        ensures* writes_back { sem 𝓛 (Lends Self.row T.row self.entry result (with_value self.old)) }
        ensures value { option_map (λ e. e.1) (entry self.old) ≡ Some result.now };

    /// The generation and the value of its entry, if it has one.
    fn unpack(self) -> Option<(P::Gen, T)>
        ensures { option_map (λ e. (P.Gen.number e.0, e.1)) result ≡ entry self };

    /// Lets a slot without an entry go.
    fn discard(self)
        requires { entry self ≡ None };

    // the entry has the other value under its generation, and where there is none, there is none then
    ghost entry_with_value: { (slot : Self) (value : T) → entry (with_value slot value)
        ≡ option_map (λ e. (e.0, value)) (entry slot) };

    // a slot with its own value is itself
    ghost with_own_value: { (slot : Self) (e : ℕ × T) → entry slot ≡ Some e
        → with_value slot e.1 ≡ slot };

    // a slot without an entry stays so, whatever value it is given
    ghost vacant_with_value: { (slot : Self) (value : T) → entry slot ≡ None
        → with_value slot value ≡ slot };

    /// Whether it has an entry.
    final fn is_live(&self) -> bool
        ensures { result ≡ is_some (entry self.now) }
    {
        self.entry().is_some()
    }

    /// The generation of its entry, if it has one.
    final fn generation(&self) -> Option<P::Gen>
        ensures { option_map P.Gen.number result ≡ option_map (λ e. e.0) (entry self.now) }
    {
        let (generation, _value) = self.entry()?;
        Some(generation)
    }

    /// The value of its entry, for writing, if it has one.
    final fn live_value_mut(&mut self) -> Option<&mut T>
        ensures* lends { sem 𝓛 (LendsIf Self.row T.row self.entry result (with_value self.old)
            self.old) }
        ensures value { option_copied_mut result ≡ value_of (entry self.old) }
    {
        if self.is_live() {
            Some(self.value_mut())
        } else {
            None
        }
    }

    /// The value of its entry, if that has this generation.
    final fn look_up(&self, generation: P::Gen) -> Option<&T>
        ensures { option_copied result
            ≡ option_and_then (value_of_generation (P.Gen.number generation)) (entry self.now) }
    {
        match self.entry() {
            Some((own, value)) if own == generation => Some(value),
            _ => None,
        }
    }

    /// Takes the generation and the value out of a slot with an entry.
    final fn into_entry(self) -> (P::Gen, T)
        requires { IsSome (entry self) }
        ensures { entry self ≡ Some (P.Gen.number result.0, result.1) }
    {
        self.unpack().unwrap()
    }
}
