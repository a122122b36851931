//! Chains over any compact arena.

ghost use Rattle.std.specs.Prelude.{◌≡◌, ◌≤◌, ◌↔◌, ◌+◌, ◌==◌, [], ◌∷◌, None, Some, Err, IsOk, IsSome, is_some, IfSome, IfOk, OnOk, OnErr, option_copied, min};
ghost use Rattle.std.specs.Option.{option_map};
ghost use Rattle.std.specs.Result.{IfErr};
ghost use Rattle.triple_arena_ptr.specs.Numbers.{greatest_index};
ghost use Rattle.triple_arena_stack.specs.Capacity.{stack_capacity};
ghost use Rattle.triple_arena_stack.specs.StackKind.{new_room, new_limit, made_room, made_limit, CanHold, TakesNoMemory};
ghost use Rattle.triple_arena.specs.Entries.{entry_count};
ghost use Rattle.triple_arena.specs.Histories.{History, insertion, remains, Continues};
ghost use Rattle.triple_arena_chain.specs.Endings.{EndsEntry};
ghost use Rattle.triple_arena_chain.specs.Chains.{nodes, value_at, before_at, after_at, IsLinked, place_at, place_before, place_after, IsInserted, IsRemoved};
ghost use Rattle.triple_arena_chain.specs.Room.{AreEmpty, KeepsRoom, HasOneMore, DependsOnRoom, TellsValue};

use crate::link::Link;
use crate::place::{ChainError, Place};
use crate::steps::{insert_between, unlink};
use std::alloc::Global;
use std::marker::{Model, PhantomData};
use triple_arena::{AllocError, Arena, ArenaInsertTrait, ArenaTrait, CompactArenaTrait};
use triple_arena_base::InvalidationOption;
use triple_arena_ptr::{Ptr, PtrGen, PtrInx};

/// Chains of values in a compact arena, each value named by the pointer that its insertion gave.
///
/// Each entry stands in one chain: what stands after another has that before it, and both are there. A chain is open, or
/// a ring.
#[derive(Drop)]
pub struct Chains<
    P: Ptr,
    T,
    A: CompactArenaTrait<P, Link<P, T>> + ArenaInsertTrait<P, Link<P, T>> = Arena<P, Link<P, T>>,
> {
    pub(crate) arena: A,
    of: PhantomData<(P, T)>,
}

impl<P: Ptr, T, A: CompactArenaTrait<P, Link<P, T>> + ArenaInsertTrait<P, Link<P, T>>> Model
    for Chains<P, T, A> {
    ghost use Rattle.triple_arena_chain.specs.Chains.{ChainState, state_of, nodes, IsLinked};

    ghost Value = { ChainState A T };

    ghost view = { λ chains. state_of P.numbers chains.arena (A.slots chains.arena)
        (A.capacity chains.arena) (A.limit chains.arena) };

    ghost invariant = { λ chains. IsLinked (nodes (state_of P.numbers chains.arena
        (A.slots chains.arena) (A.capacity chains.arena) (A.limit chains.arena))) };
}

impl<P: Ptr, T, A: CompactArenaTrait<P, Link<P, T>> + ArenaInsertTrait<P, Link<P, T>>> Chains<
    P,
    T,
    A,
> {
    /// Chains without entries in a new arena, with the room and the limit of a new stack. It takes no
    /// memory.
    pub fn new(alloc: Global) -> Self
        ensures arena { result.arena ≡ A.empty (new_room A.kind) (new_limit A.kind) }
        ensures empty { AreEmpty (min (stack_capacity (new_room A.kind) (new_limit A.kind))
            (greatest_index P.Inx.greatest)) (new_limit A.kind) result }
    {
        Chains::of_arena(A::new(alloc))
    }

    /// Chains without entries in a new arena, with room for `min_capacity`.
    ///
    /// Refused where the arena's own constructor with room is: past the greatest index, where the stack
    /// can't hold so many, and where memory is refused, which it isn't where it is there.
    pub fn with_min_capacity(alloc: Global, min_capacity: usize) -> Result<Self, AllocError>
        // Done: there is room for so many.
        ensures arena { IfOk result (λ chains. chains.arena
            ≡ A.empty (made_room A.kind min_capacity) (made_limit A.kind min_capacity)) }
        ensures empty { IfOk result (AreEmpty
            (min (stack_capacity (made_room A.kind min_capacity) (made_limit A.kind min_capacity))
            (greatest_index P.Inx.greatest)) (made_limit A.kind min_capacity)) }
        ensures holds { OnOk result
            ((min_capacity ≤ greatest_index P.Inx.greatest) × CanHold A.kind min_capacity) }

        // It isn't refused where it takes no memory, nor where memory is there.
        ensures succeeds { min_capacity ≤ greatest_index P.Inx.greatest
            → TakesNoMemory A.kind min_capacity → IsOk result }
        ensures with_memory { min_capacity ≤ greatest_index P.Inx.greatest
            → CanHold A.kind min_capacity → A.has_memory min_capacity → IsOk result }
    {
        match A::with_min_capacity(alloc, min_capacity) {
            Ok(arena) => Ok(Chains::of_arena(arena)),
            Err(refusal) => Err(refusal),
        }
    }

    /// Chains without entries in this arena, with its room, its limit and its counter. It takes no memory.
    ///
    /// Refused exactly where the arena has an entry; then it comes back.
    pub fn over(arena: A) -> Result<Self, A>
        ensures arena { IfOk result (λ chains. chains.arena ≡ arena) }
        ensures empty { IfOk result (AreEmpty (A.capacity arena) (A.limit arena)) }
        ensures back { IfErr result (λ back. back ≡ arena) }
        ensures variant { IsOk result ↔ (entry_count (A.slots arena) ≡ 0) }
    {
        if arena.is_empty() {
            Ok(Chains::of_arena(arena))
        } else {
            Err(arena)
        }
    }

    // Chains in an arena, which has no entries.
    fn of_arena(arena: A) -> Self
        requires { entry_count (A.slots arena) ≡ 0 }
        ensures arena { result.arena ≡ arena }
        ensures empty { AreEmpty (A.capacity arena) (A.limit arena) result }
    {
        Chains {
            arena,
            of: PhantomData,
        }
    }

    /// How many entries there are, in all chains: never more than fit.
    pub fn len(&self) -> usize
        ensures value { result ≡ self.now.len }
        ensures fits { self.now.len ≤ self.now.capacity }
        ensures counted { entry_count self.now.slots ≡ self.now.len }
        ensures linked { IsLinked (nodes self.now) }
    {
        self.arena.len()
    }

    /// Whether there is no entry.
    pub fn is_empty(&self) -> bool
        ensures { result ≡ (self.now.len == 0) }
    {
        self.arena.is_empty()
    }

    /// The value under a pointer.
    pub fn get(&self, p: P) -> Option<&T>
        ensures { option_copied result ≡ value_at (nodes self.now) (P.numbers p) }
    {
        match self.arena.get(p) {
            Some(link) => Some(&link.value),
            None => None,
        }
    }

    /// Whether a pointer finds an entry. By a history of the arena, it is one that was given and has not
    /// ended (`history`).
    pub fn contains(&self, p: P) -> bool
        ensures value { result ≡ is_some (nodes self.now (P.numbers p)) }
        ensures history { (h : History) → A.fits h self.now.arena
            → result ≡ remains h (P.numbers p) }
    {
        self.arena.contains(p)
    }

    /// The pointer before a pointer; none where it is the first of its chain, or finds nothing.
    pub fn before(&self, p: P) -> Option<P>
        ensures { option_map P.numbers result ≡ before_at (nodes self.now) (P.numbers p) }
    {
        self.arena.get(p)?.before
    }

    /// The pointer after a pointer; none where it is the last of its chain, or finds nothing.
    pub fn after(&self, p: P) -> Option<P>
        ensures { option_map P.numbers result ≡ after_at (nodes self.now) (P.numbers p) }
    {
        self.arena.get(p)?.after
    }

    /// A new chain of one value.
    ///
    /// `NoRoom` exactly where the arena is full and its limit is reached, else `NoMemory` where it is
    /// full and memory is refused, or there is no greater index; then nothing changes, and the value
    /// is dropped. Where the arena isn't full, its capacity stays; a full one grows as its own
    /// insertions have it grow (`grown`).
    pub fn insert_new(&mut self, value: T) -> Result<P, ChainError>
    where
        T: Drop,
        // Done: the value stands alone in a chain.
        ensures inserted { IfOk result (λ q.
            IsInserted (nodes self.old) None None (P.numbers q) value (nodes self.new)) }
        ensures size { OnOk result (HasOneMore A.capacity A.grown self.old self.new) }
        ensures history { IfOk result (λ q. Continues A.fits self.old.arena
            (insertion (P.numbers q) ∷ []) self.new.arena) }

        // Refused: nothing has changed, and room or memory was refused.
        ensures refused { OnErr result (self.new ≡ self.old) }
        ensures room { DependsOnRoom A.has_memory (greatest_index P.Inx.greatest)
            self.old result }
    {
        insert_between(&mut self.arena, value, None, None)
    }

    /// A value at a place in a chain.
    ///
    /// `NoEntry` exactly where the pointer of the place finds nothing; else as [`Self::insert_new`].
    pub fn insert(&mut self, place: Place<P>, value: T) -> Result<P, ChainError>
    where
        T: Drop,
        // Done: the value stands at the place.
        ensures inserted { IfOk result (λ q. IsInserted (nodes self.old)
            (place_before P.numbers (nodes self.old) place)
            (place_after P.numbers (nodes self.old) place)
            (P.numbers q) value (nodes self.new)) }
        ensures size { OnOk result (HasOneMore A.capacity A.grown self.old self.new) }
        ensures history { IfOk result (λ q. Continues A.fits self.old.arena
            (insertion (P.numbers q) ∷ []) self.new.arena) }

        // Refused: nothing has changed. The place's pointer found nothing, or room or memory was refused.
        ensures refused { OnErr result (self.new ≡ self.old) }
        ensures no_entry { (result ≡ Err ChainError.NoEntry)
            ↔ (nodes self.old (place_at P.numbers place) ≡ None) }
        ensures room { IsSome (nodes self.old (place_at P.numbers place))
            → DependsOnRoom A.has_memory (greatest_index P.Inx.greatest) self.old result }
    {
        match self.ends(place) {
            Some((prev, next)) => insert_between(&mut self.arena, value, prev, next),
            None => Err(ChainError::NoEntry),
        }
    }

    // The neighbours that an entry gets at a place; none where its pointer finds nothing.
    fn ends(&self, place: Place<P>) -> Option<(Option<P>, Option<P>)>
        ensures none { result ≡ None → nodes self.now (place_at P.numbers place) ≡ None }
        ensures there { IsSome result → IsSome (nodes self.now (place_at P.numbers place)) }
        ensures before { IfSome result (λ ends. option_map P.numbers ends.0
            ≡ place_before P.numbers (nodes self.now) place) }
        ensures after { IfSome result (λ ends. option_map P.numbers ends.1
            ≡ place_after P.numbers (nodes self.now) place) }
    {
        match place {
            Place::After(p) => match self.arena.get(p) {
                Some(link) => Some((Some(p), link.after)),
                None => None,
            },
            Place::Before(p) => match self.arena.get(p) {
                Some(link) => Some((link.before, Some(p))),
                None => None,
            },
        }
    }

    /// Takes a value out of its chain, whose neighbours come to stand beside each other.
    ///
    /// `NoEntry` exactly where the pointer finds nothing; then nothing changes. `GenerationOverflow`
    /// exactly where the removal from the arena wraps its counter (`answer`).
    pub fn remove(&mut self, p: P) -> Result<InvalidationOption<T>, ChainError>
        // Done: the value comes back, told with a wrap if there was one, and its entry is gone.
        ensures answer { IfOk result (TellsValue (A.ending_wraps self.old.arena)
            (value_at (nodes self.old) (P.numbers p))) }
        ensures removed { OnOk result
            (IsRemoved (nodes self.old) (P.numbers p) (nodes self.new)) }
        ensures ended { OnOk result (EndsEntry A.removes A.with_value A.fits P.Gen.generations
            (A.ending_wraps self.old.arena) self.old.arena (P.numbers p) self.new.arena) }
        ensures len { OnOk result (self.new.len + 1 ≡ self.old.len) }

        // Refused: nothing has changed, and the pointer found nothing.
        ensures refused { OnErr result (self.new ≡ self.old) }
        ensures no_entry { (result ≡ Err ChainError.NoEntry)
            ↔ (nodes self.old (P.numbers p) ≡ None) }
        ensures refusal { IfErr result (λ refusal. refusal ≡ ChainError.NoEntry) }

        // In each case the room stays.
        ensures room { KeepsRoom self.old self.new }
    {
        let Some(_link) = self.arena.get(p) else {
            return Err(ChainError::NoEntry);
        };
        Ok(unlink(&mut self.arena, p))
    }
}
