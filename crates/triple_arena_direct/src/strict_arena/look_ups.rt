//! Look-ups in a strict arena, by pointer and by index.

ghost use Rattle.std.specs.Prelude.{◌≡◌, ℕ, [], true, is_some, IsSome, Some, option_copied, MatchOption};
ghost use Rattle.std.specs.Borrow.{sem, LendsIf};
ghost use Rattle.std.specs.Option.{option_map, option_copied_mut};
ghost use Rattle.triple_arena_ptr.specs.Pointers.{Pointer};
ghost use Rattle.triple_arena_traits.specs.Entries.{look_up, IsFirst, IsLast};
ghost use Rattle.triple_arena_traits.specs.ArenaState.{arena_len, entry, with_value};
ghost use Rattle.triple_arena_traits.specs.Histories.{History, remains, Fits, Continues};
ghost use Rattle.triple_arena_direct.specs.Gone.{IsGoneForGood};
ghost use Rattle.triple_arena_direct.specs.StrictCalls.{IsStrictStep, to_write};

use super::StrictArena;
use triple_arena::{ArenaSlot, ArenaTrait, LendingArena};
use triple_arena_ptr::{Ptr, PtrGen, PtrInx};
use triple_arena_stack::NonZeroInxGenericStack;

impl<P: Ptr, T, S: NonZeroInxGenericStack<ArenaSlot<P, T>>> StrictArena<P, T, S> {
    /// Whether `p` is valid.
    pub fn contains(&self, p: P) -> bool
        ensures value { result ≡ is_some (look_up self.now.slots (P.numbers p)) }
        ensures history { (h : History) → Fits h self.now → result ≡ remains h (P.numbers p) }
    {
        self.arena.contains(p)
    }

    /// The value under `p`; none exactly where `p` is invalid.
    pub fn get(&self, p: P) -> Option<&T>
        ensures value { option_copied result ≡ look_up self.now.slots (P.numbers p) }
        ensures history { (h : History) → Fits h self.now
            → is_some result ≡ remains h (P.numbers p) }
    {
        self.arena.get(p)
    }

    /// The value under `p`, for writing; none exactly where `p` is invalid.
    pub fn get_mut(&mut self, p: P) -> Option<&mut T>
        // Of a valid pointer the value is lent; once the loan ends, what was written stands in its
        // place.
        ensures value { option_copied_mut result ≡ look_up self.old.slots (P.numbers p) }
        ensures* writes_back { sem 𝓛 (LendsIf ⟦<StrictArena<P, T, S> as LendingArena>⟧.arena_row T.row
            self.entry result (with_value self.old (P.numbers p).0) self.old) }
        ensures history { (h : History) → Fits h self.old
            → is_some result ≡ remains h (P.numbers p) }

        // It is a strict call, by which every history goes on, and what was gone for good stays so.
        ensures step { IsSome (look_up self.old.slots (P.numbers p)) → (value : T)
            → IsStrictStep S.kind P.Gen.generations self.old
            (to_write (P.numbers p) value) [] (with_value self.old (P.numbers p).0 value) }
        ensures written { (value : T) → Continues Fits self.old []
            (with_value self.old (P.numbers p).0 value) }
        ensures stays_gone { P.Gen.generations.counting ≡ true → (value : T) (q : Pointer)
            → IsGoneForGood self.old q → IsGoneForGood (with_value self.old (P.numbers p).0 value) q }
    {
        self.arena.get_mut(p)
    }

    /// The generation and the value of the entry at `inx`; none exactly where there is no entry.
    pub fn get_inx(&self, inx: P::Inx) -> Option<(P::Gen, &T)>
        ensures { option_map (λ e. (P.Gen.number e.0, e.1.now)) result
            ≡ entry self.now (P.Inx.number inx) }
    {
        self.arena.get_inx(inx)
    }

    /// The generation of the entry at `inx`; none exactly where there is no entry.
    pub fn generation_at(&self, inx: P::Inx) -> Option<P::Gen>
        ensures { option_map P.Gen.number result
            ≡ option_map (λ e. e.0) (entry self.now (P.Inx.number inx)) }
    {
        self.arena.generation_at(inx)
    }

    /// The value of the entry at `inx`, for writing; none exactly where there is no entry.
    pub fn get_inx_mut(&mut self, inx: P::Inx) -> Option<&mut T>
        // Of an entry the value is lent; once the loan ends, what was written stands in its place.
        ensures value { option_copied_mut result
            ≡ option_map (λ e. e.1) (entry self.old (P.Inx.number inx)) }
        ensures* writes_back { sem 𝓛 (LendsIf ⟦<StrictArena<P, T, S> as LendingArena>⟧.arena_row T.row
            self.entry result (with_value self.old (P.Inx.number inx)) self.old) }

        // It is a strict call, by which every history goes on, and what was gone for good stays so.
        ensures step { (generation : ℕ) (was value : T)
            → entry self.old (P.Inx.number inx) ≡ Some (generation, was)
            → IsStrictStep S.kind P.Gen.generations self.old
            (to_write (P.Inx.number inx, generation) value) []
            (with_value self.old (P.Inx.number inx) value) }
        ensures written { (value : T) → Continues Fits self.old []
            (with_value self.old (P.Inx.number inx) value) }
        ensures stays_gone { P.Gen.generations.counting ≡ true → (value : T) (q : Pointer)
            → IsGoneForGood self.old q
            → IsGoneForGood (with_value self.old (P.Inx.number inx) value) q }
    {
        self.arena.get_inx_mut(inx)
    }

    /// The pointer of the entry of least index; none exactly where there is no entry.
    pub fn find_first_inx_ptr(&self) -> Option<P>
        ensures { MatchOption result (arena_len self.now ≡ 0)
            (λ p. IsFirst self.now.slots (P.numbers p)) }
    {
        self.arena.find_first_inx_ptr()
    }

    /// The pointer of the entry of greatest index; none exactly where there is no entry.
    pub fn find_last_inx_ptr(&self) -> Option<P>
        ensures { MatchOption result (arena_len self.now ≡ 0)
            (λ p. IsLast self.now.slots (P.numbers p)) }
    {
        self.arena.find_last_inx_ptr()
    }
}
