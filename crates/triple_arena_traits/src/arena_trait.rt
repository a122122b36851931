//! What every arena answers.

ghost use Rattle.std.specs.Prelude.{◌≡◌, ◌≢◌, ℕ, ◌≤◌, ◌<◌, ◌==◌, ◌↔◌, ◌∷◌, Option, length, is_some, IsSome, IsOk, IfOk, OnOk, OnErr, MatchOption, None, Some, Err, [], option_copied};
ghost use Rattle.std.specs.Borrow.{sem, LendsIf};
ghost use Rattle.std.specs.Option.{option_map, option_copied_mut};
ghost use Rattle.triple_arena_ptr.specs.Numbers.{greatest_index};
ghost use Rattle.triple_arena_ptr.specs.Pointers.{Pointer};
ghost use Rattle.triple_arena_stack.specs.StackKind.{StackKind, new_room, new_limit, made_room, made_limit, CanHold, TakesNoMemory};
ghost use Rattle.triple_arena_stack.specs.Capacity.{IsWithin, IsBeyond};
ghost use Rattle.triple_arena_traits.specs.SlotSteps.{RisesByAtMost};
ghost use Rattle.triple_arena_traits.specs.Entries.{entry_in, look_up, entry_count, KeepsEntries, IsFirst, IsLast};
ghost use Rattle.triple_arena_traits.specs.Ending.{told, told_of, map_told};
ghost use Rattle.triple_arena_traits.specs.Walks.{Stand, standing_at, IsAtFirst, keys};
ghost use Rattle.triple_arena_traits.specs.Histories.{History, removal, invalidation, clearing, resizing, remains, CountsUp, Continues};

use crate::arena_states::ArenaLaws;
use std::alloc::Global;
use triple_arena_base::{
    Advancer, AllocError, InvalidationOption, InvalidationResult, ReallocationError,
};
use triple_arena_ptr::{Ptr, PtrGen, PtrInx};

/// An arena: values in slots that are numbered from 1, each named by a pointer.
///
/// A pointer is valid as long as an entry stands at its index under just its generation. A call on
/// any other pointer finds nothing, and changes nothing.
///
/// The slots lie in a stack; the capacity is that of the stack, but at most the greatest index of
/// the pointer type. Memory is asked for only by `with_min_capacity`, by `reallocate_min_capacity`
/// where it changes the room, by an insertion into a full arena, and by cloning and transfer into
/// an arena that has no place for so much. For which requests it is there is told by `has_memory`,
/// as the stack tells it, and these calls succeed where it says so: a body over any stack that
/// gives up without asking has no proof.
pub trait ArenaTrait<P: Ptr, T>: ArenaLaws<P, T> {
    /// A place in the arena, which goes from entry to entry.
    type PtrAdvancer: Advancer<Self, Item = P>;

    // where an advancer stands
    ghost stand: { Self.PtrAdvancer → Stand };

    // what constructors and reallocation make of room and limit
    ghost kind: { StackKind };

    // where room for so many slots is asked for, memory is there
    ghost has_memory: { ℕ → Type 0 };

    // what a reallocation to so many leaves
    ghost reallocates: { Self → ℕ → Self → Type 0 };

    // a reallocation to so many leaves the room as it is
    ghost keeps_room: { Self → ℕ → Type 0 };

    // for the room that a reallocation to so many asks for, memory is there
    ghost gets_room: { Self → ℕ → Type 0 };

    /// An arena without slots, with the room and the limit of a new stack. It takes no memory.
    fn new(alloc: Global) -> Self
        ensures { result ≡ Self.empty (new_room kind) (new_limit kind) };

    /// An arena without slots, over a stack with room for `min_capacity`.
    ///
    /// Refused where `min_capacity` is past the greatest index, and where the stack refuses it: an
    /// array of fewer places, and any other where memory is refused, which it isn't where it is there.
    fn with_min_capacity(alloc: Global, min_capacity: usize) -> Result<Self, AllocError>
        ensures made { IfOk result
            (λ arena. arena ≡ Self.empty (made_room kind min_capacity) (made_limit kind min_capacity)) }
        ensures holds { OnOk result
            ((min_capacity ≤ greatest_index P.Inx.greatest) × CanHold kind min_capacity) }
        ensures succeeds { min_capacity ≤ greatest_index P.Inx.greatest
            → TakesNoMemory kind min_capacity → IsOk result }
        ensures with_memory { min_capacity ≤ greatest_index P.Inx.greatest
            → CanHold kind min_capacity → has_memory min_capacity → IsOk result };

    /// How many entries fit without growth: the capacity of the stack, but at most the greatest
    /// index.
    fn capacity(&self) -> usize
        ensures value { result ≡ Self.capacity self.now }
        ensures fits { length (Self.slots self.now) ≤ result }
        ensures indexed { result ≤ greatest_index P.Inx.greatest }
        ensures allowed { IsWithin (Self.limit self.now) result };

    /// The limit of the stack, if there is one.
    fn max_capacity(&self) -> Option<usize>
        ensures { result ≡ Self.limit self.now };

    /// Changes the room so that there is place for `min_capacity` entries, and for the slots that
    /// are in use. First the arena gives up what free slots it can, and that stays done where the
    /// rest is refused.
    ///
    /// `AllocError` where `min_capacity` is past the greatest index; else `BeyondMaxCapacity`
    /// exactly where the limit is below it; else `AllocError` where memory is refused, which it isn't
    /// where it is there for the new room. Where the room stays the same, no memory is taken.
    fn reallocate_min_capacity(&mut self, min_capacity: usize) -> Result<(), ReallocationError>
        ensures done { OnOk result (reallocates self.old min_capacity self.new) }
        ensures refused { OnErr result (Self.tidies self.old min_capacity self.new) }
        ensures within { OnOk result
            ((min_capacity ≤ greatest_index P.Inx.greatest)
            × IsWithin (Self.limit self.old) min_capacity) }
        ensures beyond { (result ≡ Err ReallocationError.BeyondMaxCapacity)
            ↔ ((min_capacity ≤ greatest_index P.Inx.greatest)
            × IsBeyond (Self.limit self.old) min_capacity) }
        ensures succeeds { min_capacity ≤ greatest_index P.Inx.greatest
            → IsWithin (Self.limit self.old) min_capacity
            → keeps_room self.old min_capacity → IsOk result }
        ensures with_memory { min_capacity ≤ greatest_index P.Inx.greatest
            → IsWithin (Self.limit self.old) min_capacity
            → gets_room self.old min_capacity → IsOk result }
        ensures place { OnOk result (min_capacity ≤ Self.capacity self.new) }
        ensures history { Continues Self.fits self.old (resizing ∷ []) self.new };

    /// How many entries there are: never more than the capacity.
    fn len(&self) -> usize
        ensures value { result ≡ entry_count (Self.slots self.now) }
        ensures fits { entry_count (Self.slots self.now) ≤ Self.capacity self.now }
        ensures valid { Self.valid self.now };

    /// Whether there is no entry.
    fn is_empty(&self) -> bool
        ensures { result ≡ (entry_count (Self.slots self.now) == 0) };

    /// The generation of the next insertion; none where an insertion is told its generation.
    fn singular_generation(&self) -> Option<P::Gen>
        ensures { option_map P.Gen.number result ≡ Self.next_generation self.now };

    /// The value under `p`; none exactly where `p` is invalid.
    fn get(&self, p: P) -> Option<&T>
        ensures value { option_copied result ≡ look_up (Self.slots self.now) (P.numbers p) }
        ensures history { (h : History) → Self.fits h self.now
            → is_some result ≡ remains h (P.numbers p) };

    /// Whether `p` is valid.
    fn contains(&self, p: P) -> bool
        ensures value { result ≡ is_some (look_up (Self.slots self.now) (P.numbers p)) }
        ensures history { (h : History) → Self.fits h self.now → result ≡ remains h (P.numbers p) };

    /// The value under `p`, for writing; none exactly where `p` is invalid.
    fn get_mut(&mut self, p: P) -> Option<&mut T>
        ensures value { option_copied_mut result ≡ look_up (Self.slots self.old) (P.numbers p) }
        ensures* writes_back { sem 𝓛 (LendsIf Self.row T.row self.entry result
            (Self.with_value self.old (P.numbers p).0) self.old) }
        ensures history { (h : History) → Self.fits h self.old
            → is_some result ≡ remains h (P.numbers p) }
        ensures written { (value : T) → Continues Self.fits self.old []
            (Self.with_value self.old (P.numbers p).0 value) };

    /// The generation and the value of the entry at `inx`; none exactly where there is no entry.
    fn get_inx(&self, inx: P::Inx) -> Option<(P::Gen, &T)>
        ensures { option_map (λ e. (P.Gen.number e.0, e.1.now)) result
            ≡ entry_in (Self.slots self.now) (P.Inx.number inx) };

    /// The generation of the entry at `inx`; none exactly where there is no entry.
    fn generation_at(&self, inx: P::Inx) -> Option<P::Gen>
        ensures { option_map P.Gen.number result
            ≡ option_map (λ e. e.0) (entry_in (Self.slots self.now) (P.Inx.number inx)) };

    /// The value of the entry at `inx`, for writing; none exactly where there is no entry.
    fn get_inx_mut(&mut self, inx: P::Inx) -> Option<&mut T>
        ensures value { option_copied_mut result
            ≡ option_map (λ e. e.1) (entry_in (Self.slots self.old) (P.Inx.number inx)) }
        ensures* writes_back { sem 𝓛 (LendsIf Self.row T.row self.entry result
            (Self.with_value self.old (P.Inx.number inx)) self.old) }
        ensures written { (value : T) → Continues Self.fits self.old []
            (Self.with_value self.old (P.Inx.number inx) value) };

    /// The pointer of the entry of least index; none exactly where there is no entry.
    fn find_first_inx_ptr(&self) -> Option<P>
        ensures { MatchOption result (entry_count (Self.slots self.now) ≡ 0)
            (λ p. IsFirst (Self.slots self.now) (P.numbers p)) };

    /// The pointer of the entry of greatest index; none exactly where there is no entry.
    fn find_last_inx_ptr(&self) -> Option<P>
        ensures { MatchOption result (entry_count (Self.slots self.now) ≡ 0)
            (λ p. IsLast (Self.slots self.now) (P.numbers p)) };

    /// A forward advancer at the entry of least index, or nowhere where there is no entry.
    fn advancer(&self) -> Self::PtrAdvancer
        ensures { IsAtFirst (Self.slots self.now) (stand result) };

    /// An advancer at `inx`, forward or in reverse. Past the greatest index a forward one is
    /// nowhere, and one in reverse is at the greatest.
    fn advancer_inx(&self, inx: P::Inx, reverse: bool) -> Self::PtrAdvancer
        ensures { stand result
            ≡ standing_at (greatest_index P.Inx.greatest) (P.Inx.number inx) reverse };

    /// Gives the entry under `p` a new pointer, where the arena counts generations; `p` is invalid
    /// from then on, unless the new generation is its own, as it may be once the counter wrapped. It
    /// touches at most 6 slots, where the arena counts them.
    ///
    /// `InvalidPtr` exactly where `p` is invalid; then nothing changes but how many slots were touched.
    /// `GenerationOverflow` exactly where it is valid and the counter wraps.
    fn invalidate(&mut self, p: P) -> InvalidationResult<P>
        ensures answer { map_told P.numbers result ≡ told_of (Self.ending_wraps self.old) (option_map
            (λ _. ((P.numbers p).0, Self.renewed self.old (P.numbers p).0))
            (look_up (Self.slots self.old) (P.numbers p))) }
        ensures done { IsSome (look_up (Self.slots self.old) (P.numbers p))
            → Self.invalidates self.old (P.numbers p).0 self.new }
        ensures found { IsSome (look_up (Self.slots self.old) (P.numbers p))
            → look_up (Self.slots self.new) ((P.numbers p).0, Self.renewed self.old (P.numbers p).0)
            ≡ look_up (Self.slots self.old) (P.numbers p) }
        ensures gone { Self.renewed self.old (P.numbers p).0 ≢ (P.numbers p).1
            → look_up (Self.slots self.new) (P.numbers p) ≡ None }
        ensures others { (q : Pointer) → q.0 ≢ (P.numbers p).0
            → look_up (Self.slots self.new) q ≡ look_up (Self.slots self.old) q }
        ensures unchanged { look_up (Self.slots self.old) (P.numbers p) ≡ None
            → Self.unchanged self.old self.new }
        ensures bounded { RisesByAtMost 6 (Self.steps self.old) (Self.steps self.new) }
        ensures history { IsSome (look_up (Self.slots self.old) (P.numbers p))
            → CountsUp P.Gen.generations (Self.ending_wraps self.old) → Continues Self.fits self.old
            (invalidation (P.numbers p) ((P.numbers p).0, Self.renewed self.old (P.numbers p).0) ∷ [])
            self.new };

    /// Takes out the entry under `p`, and gives its value. It touches at most 6 slots, where the arena
    /// counts them.
    ///
    /// `InvalidPtr` exactly where `p` is invalid; then nothing changes but how many slots were touched.
    /// `GenerationOverflow` exactly where it is valid and the counter wraps.
    fn remove(&mut self, p: P) -> InvalidationResult<T>
        ensures answer { result
            ≡ told_of (Self.ending_wraps self.old) (look_up (Self.slots self.old) (P.numbers p)) }
        ensures done { IsSome (look_up (Self.slots self.old) (P.numbers p))
            → Self.removes self.old (P.numbers p).0 self.new }
        ensures gone { look_up (Self.slots self.new) (P.numbers p) ≡ None }
        ensures others { (q : Pointer) → q ≢ P.numbers p
            → look_up (Self.slots self.new) q ≡ look_up (Self.slots self.old) q }
        ensures unchanged { look_up (Self.slots self.old) (P.numbers p) ≡ None
            → Self.unchanged self.old self.new }
        ensures bounded { RisesByAtMost 6 (Self.steps self.old) (Self.steps self.new) }
        ensures history { IsSome (look_up (Self.slots self.old) (P.numbers p))
            → CountsUp P.Gen.generations (Self.ending_wraps self.old)
            → Continues Self.fits self.old (removal (P.numbers p) ∷ []) self.new };

    /// Takes out the entry at `inx`, and gives its generation and its value. It touches at most 6
    /// slots, where the arena counts them.
    ///
    /// `InvalidPtr` exactly where there is no entry; then nothing changes but how many slots were
    /// touched. `GenerationOverflow` exactly where there is one and the counter wraps.
    fn remove_inx(&mut self, inx: P::Inx) -> InvalidationResult<(P::Gen, T)>
        ensures answer { map_told (λ e. (P.Gen.number e.0, e.1)) result
            ≡ told_of (Self.ending_wraps self.old) (entry_in (Self.slots self.old) (P.Inx.number inx)) }
        ensures done { IsSome (entry_in (Self.slots self.old) (P.Inx.number inx))
            → Self.removes self.old (P.Inx.number inx) self.new }
        ensures gone { entry_in (Self.slots self.new) (P.Inx.number inx) ≡ None }
        ensures others { (q : Pointer) → q.0 ≢ P.Inx.number inx
            → look_up (Self.slots self.new) q ≡ look_up (Self.slots self.old) q }
        ensures unchanged { entry_in (Self.slots self.old) (P.Inx.number inx) ≡ None
            → Self.unchanged self.old self.new }
        ensures bounded { RisesByAtMost 6 (Self.steps self.old) (Self.steps self.new) }
        ensures history { (generation : ℕ) (value : T)
            → entry_in (Self.slots self.old) (P.Inx.number inx) ≡ Some (generation, value)
            → CountsUp P.Gen.generations (Self.ending_wraps self.old)
            → Continues Self.fits self.old (removal (P.Inx.number inx, generation) ∷ []) self.new };

    /// Drops all entries; where the arena has a counter, raises it once if there was an entry, and
    /// tells of a wrap. The capacity stays.
    fn clear(&mut self) -> InvalidationOption<()>
    where
        T: Drop,
        ensures answer { result ≡ told (Self.clearing_wraps self.old) tt }
        ensures done { Self.clears self.old self.new }
        ensures gone { (q : Pointer) → look_up (Self.slots self.new) q ≡ None }
        ensures history { CountsUp P.Gen.generations (Self.clearing_wraps self.old)
            → Continues Self.fits self.old (clearing (keys (Self.slots self.old)) ∷ []) self.new };

    // where nothing changed but the count, a reallocation that left the room as it is leaves it so,
    // and one for whose room memory was there has it
    ghost keeps_room_unchanged: { (old new : Self) (m : ℕ) → Self.unchanged old new
        → keeps_room old m → keeps_room new m };

    ghost gets_room_unchanged: { (old new : Self) (m : ℕ) → Self.unchanged old new
        → gets_room old m → gets_room new m };

    // a reallocation leaves every entry and the limit
    ghost slots_reallocated: { (old : Self) (m : ℕ) (new : Self) → reallocates old m new
        → KeepsEntries (Self.slots old) (Self.slots new) };

    ghost len_reallocated: { (old : Self) (m : ℕ) (new : Self) → reallocates old m new
        → entry_count (Self.slots new) ≡ entry_count (Self.slots old) };

    ghost limit_reallocated: { (old : Self) (m : ℕ) (new : Self) → reallocates old m new
        → Self.limit new ≡ Self.limit old };
}
