//! Arenas that generic code walks.

ghost use Rattle.std.specs.Prelude.{◌≡◌, ℕ, false, ◌∷◌, Bool, List, [], Option, Some, IsSome, length, map};
ghost use Rattle.std.specs.List.{range_with_len};
ghost use Rattle.std.specs.Option.{option_map};
ghost use Rattle.triple_arena_ptr.specs.Numbers.{greatest_index};
ghost use Rattle.triple_arena_ptr.specs.Pointers.{Pointer};
ghost use Rattle.triple_arena_traits.specs.Items.{with_item};
ghost use Rattle.triple_arena_traits.specs.Entries.{entry_in, look_up, entry_count};
ghost use Rattle.triple_arena_traits.specs.Ending.{told};
ghost use Rattle.triple_arena_traits.specs.Moves.{Moves};
ghost use Rattle.triple_arena_traits.specs.Recasting.{written};
ghost use Rattle.triple_arena_traits.specs.Visits.{Visits};
ghost use Rattle.triple_arena_traits.specs.Walks.{Steps, entries, keys, values};
ghost use Rattle.triple_arena_traits.specs.Histories.{History, compression, begun_with, CountsUp, Continues};
ghost use Rattle.triple_arena_traits.specs.Drains.{IsDraining, drain_arena, drain_lender};

use crate::arena_iterators::{Drain, Iter, Ptrs, Vals};
use crate::arena_trait::ArenaTrait;
use triple_arena_base::{Advancer, InvalidationOption};
use triple_arena_ptr::{Ptr, PtrGen, PtrInx};

/// An arena whose advancers go from live index to live index, in the order of the indexes.
///
/// Where the arena is to change between two steps, an advancer walks it: by the law `advanced` each
/// of its steps answers the live pointer that is met first. The iterators stand on it.
pub trait CompactArenaTrait<P: Ptr, T>: ArenaTrait<P, T> {
    // what a compression leaves, with a reset or without, where these values stand then, in the order
    // of their entries
    ghost compresses: { Self → Bool → List T → Self → Type 0 };

    // the pointer that it gives to the entry of a pointer
    ghost rank: { Self → Bool → Pointer → Pointer };

    // whether it wraps the counter
    ghost compression_wraps: { Self → Bool → Bool };

    /// Moves the entries to the indexes from 1 on, in their order, and gives each a new pointer: the
    /// one that `rank` says. At each entry, in that order, it calls `f` at the old pointer, the value
    /// and the new pointer, and the entry has the value that `f` gives back. No free slot is left.
    ///
    /// Where the arena counts generations, all entries get its counter, which is raised once before
    /// if there is an entry; with `reset_generation` it begins anew instead, and then pointers that
    /// were given before may come to name later entries. Where it doesn't count them, each entry
    /// keeps its generation, and the answer is `Success`.
    ///
    /// Where it counts them, without a reset and a wrap, it is one model call: it ends every pointer,
    /// and gives those that stand after it (`history`). In each case a history can begin with these,
    /// if one fitted before (`begun`).
    ///
    /// It takes no memory, limit and capacity stay, and it goes through the slots once.
    fn compress_with<F: FnMut(P, T, P) -> T>(
        &mut self,
        reset_generation: bool,
        f: F,
    ) -> InvalidationOption<()>
        requires callable { F.IsAlwaysCallable f }
        ensures answer { result ≡ told (compression_wraps self.old reset_generation) tt }
        ensures moved { (values : List T)
            × Moves P.numbers F.step (rank self.old reset_generation) f
            (entries (Self.slots self.old)) values
            × compresses self.old reset_generation values self.new }
        ensures keys { keys (Self.slots self.new)
            ≡ map (rank self.old reset_generation) (keys (Self.slots self.old)) }
        ensures len { entry_count (Self.slots self.new) ≡ entry_count (Self.slots self.old) }
        ensures limit { Self.limit self.new ≡ Self.limit self.old }
        ensures capacity { Self.capacity self.new ≡ Self.capacity self.old }
        ensures history { reset_generation ≡ false
            → CountsUp P.Gen.generations (compression_wraps self.old reset_generation)
            → Continues Self.fits self.old
            (compression (keys (Self.slots self.old)) (keys (Self.slots self.new)) ∷ []) self.new }
        ensures begun { (h : History) → Self.fits h self.old
            → Self.fits (begun_with (keys (Self.slots self.new))) self.new };

    // a step of an advancer answers the live pointer that is met first, if one is ahead
    ghost advanced: { (before : Self.PtrAdvancer) (arena : Self) (answer : Option P)
        (after : Self.PtrAdvancer) → Self.PtrAdvancer.advances before arena answer after
        → Steps (greatest_index P.Inx.greatest) (Self.slots arena) (Self.stand before)
        (option_map P.numbers answer) (Self.stand after) };

    // the value that stands there, written again, changes nothing
    ghost with_value_same: { (arena : Self) (i : ℕ) (e : ℕ × T)
        → entry_in (Self.slots arena) i ≡ Some e → Self.with_value arena i e.1 ≡ arena };

    // after a compression the entries have the pointers that `rank` says, and the values that stand
    // then
    ghost keys_compressed: { (old : Self) (reset : Bool) (values : List T) (new : Self)
        → compresses old reset values new → length values ≡ entry_count (Self.slots old)
        → keys (Self.slots new) ≡ map (rank old reset) (keys (Self.slots old)) };

    ghost values_compressed: { (old : Self) (reset : Bool) (vs : List T) (new : Self)
        → compresses old reset vs new → length vs ≡ entry_count (Self.slots old)
        → values (Self.slots new) ≡ vs };

    // the indexes that `rank` gives, in the order of the entries, are those from 1 to their number:
    // it is one to one, keeps the order, and leaves out no index
    ghost ranked: { (arena : Self) (reset : Bool)
        → map (λ p. p.0) (map (rank arena reset) (keys (Self.slots arena)))
        ≡ range_with_len 1 (entry_count (Self.slots arena)) };

    // a value that is written after a compression might have been given back in it
    ghost compresses_with_value: { (old : Self) (reset : Bool) (values : List T) (new : Self)
        (i : ℕ) (value : T) → compresses old reset values new
        → compresses old reset (with_item values i value) (Self.with_value new i value) };

    // where nothing changed but how many slots were touched, a compression moves the same entries to
    // the same places, and is told as before
    ghost rank_unchanged: { (old new : Self) (reset : Bool) → Self.unchanged old new
        → rank new reset ≡ rank old reset };

    ghost compression_wraps_unchanged: { (old new : Self) (reset : Bool) → Self.unchanged old new
        → compression_wraps new reset ≡ compression_wraps old reset };

    // limit and capacity stay
    ghost limit_compressed: { (old : Self) (reset : Bool) (values : List T) (new : Self)
        → compresses old reset values new → Self.limit new ≡ Self.limit old };

    ghost capacity_compressed: { (old : Self) (reset : Bool) (values : List T) (new : Self)
        → compresses old reset values new → Self.capacity new ≡ Self.capacity old };

    /// As `compress_with`, and no value changes: each is found under its new pointer.
    final fn compress(&mut self, reset_generation: bool) -> InvalidationOption<()>
        ensures answer { result ≡ told (compression_wraps self.old reset_generation) tt }
        ensures done { compresses self.old reset_generation (values (Self.slots self.old)) self.new }
        ensures found { (p : Pointer) → IsSome (look_up (Self.slots self.old) p)
            → look_up (Self.slots self.new) (rank self.old reset_generation p)
            ≡ look_up (Self.slots self.old) p }
        ensures keys { keys (Self.slots self.new)
            ≡ map (rank self.old reset_generation) (keys (Self.slots self.old)) }
        ensures values { values (Self.slots self.new) ≡ values (Self.slots self.old) }
        ensures len { entry_count (Self.slots self.new) ≡ entry_count (Self.slots self.old) }
        ensures limit { Self.limit self.new ≡ Self.limit self.old }
        ensures capacity { Self.capacity self.new ≡ Self.capacity self.old }
        ensures history { reset_generation ≡ false
            → CountsUp P.Gen.generations (compression_wraps self.old reset_generation)
            → Continues Self.fits self.old
            (compression (keys (Self.slots self.old)) (keys (Self.slots self.new)) ∷ []) self.new }
        ensures begun { (h : History) → Self.fits h self.old
            → Self.fits (begun_with (keys (Self.slots self.new))) self.new }
    {
        self.compress_with(reset_generation, |_from, value, _to| value)
    }

    /// The pointers and the values of the entries, in the order of their indexes.
    final fn iter(&self) -> Iter<'_, P, T, Self>
        ensures { result ≡ entries (Self.slots self.now) }
    {
        Iter::over(self)
    }

    /// The pointers of the entries, in the order of their indexes.
    final fn ptrs(&self) -> Ptrs<'_, P, T, Self>
        ensures { result ≡ keys (Self.slots self.now) }
    {
        Ptrs::over(self)
    }

    /// The values of the entries, in the order of their indexes.
    final fn vals(&self) -> Vals<'_, P, T, Self>
        ensures { result ≡ values (Self.slots self.now) }
    {
        Vals::over(self)
    }

    /// Calls `f` at each entry, in the order of the indexes: at its pointer, and at its value, for
    /// writing. Nothing but values changes (`written`), and it takes no memory.
    final fn for_each_mut<F: FnMut(P, &mut T)>(&mut self, mut f: F)
        requires callable { F.IsAlwaysCallable f }
        ensures visited { (last : F) × Visits P.numbers F.step f
            (entries (Self.slots self.old)) (entries (Self.slots self.new)) last }
        ensures written { (values : List T)
            × (self.new ≡ written Self.with_value (keys (Self.slots self.old)) values self.old) }
        ensures limit { Self.limit self.new ≡ Self.limit self.old }
        ensures capacity { Self.capacity self.new ≡ Self.capacity self.old }
        ensures history { Continues Self.fits self.old [] self.new }
    {
        let mut advancer = self.advancer();
        'walk: while let Some(p) = advancer.advance(self) {
            if let Some(value) = self.get_mut(p) {
                f(p, value);
            }
        }
    }

    /// Takes out the entries, in the order of their indexes, one with each step. Let go, it clears
    /// the arena.
    final fn drain(&mut self) -> Drain<'_, P, T, Self>
    where
        T: Drop,
        ensures arena { drain_arena result ≡ self.old }
        ensures draining { IsDraining Self.slots Self.stand result }
        ensures same_reference { drain_lender result ≡ self.entry.ghost_name }
    {
        Drain::over(self)
    }
}
