//! Sets of keys over any compact arena, and their values over any arena.

ghost use Rattle.std.specs.Prelude.{◌≡◌, ◌≤◌, ◌↔◌, ◌==◌, None, is_some, IsSome, IfSome, IsOk, IfOk, OnOk, MatchOption, true, option_copied, min};
ghost use Rattle.std.specs.Result.{IfErr};
ghost use Rattle.triple_arena_ptr.specs.Numbers.{greatest_index};
ghost use Rattle.triple_arena_stack.specs.Capacity.{stack_capacity};
ghost use Rattle.triple_arena_stack.specs.StackKind.{new_room, new_limit, made_room, made_limit, CanHold};
ghost use Rattle.triple_arena.specs.Entries.{entry_count};
ghost use Rattle.triple_arena.specs.Histories.{History, remains};
ghost use Rattle.triple_arena_surject.specs.Surject.{found_at, key_at, val_at, AreTogether, HasKeys, EachHasOther, sets_in};
ghost use Rattle.triple_arena_surject.specs.Room.{AreNoSets, CanBeMade};

use crate::member::{Member, Shared};
use crate::steps::{are_same, set_of};
use std::alloc::Global;
use std::marker::{Model, PhantomData};
use triple_arena::{AllocError, Arena, ArenaInsertTrait, ArenaTrait, CompactArenaTrait};
use triple_arena_chain::{Chains, Link};
use triple_arena_ptr::{Ptr, PtrInx};

/// Sets of keys, each key under the pointer that its insertion gave, and each set with one value, which all its keys
/// find.
///
/// A set has a key at least: with its last key its value goes. The keys of a set stand in a ring of a compact arena,
/// the values in an arena of their own, whose pointers nobody sees.
#[derive(Drop)]
pub struct SurjectArena<
    P: Ptr,
    K,
    V,
    A: CompactArenaTrait<P, Link<P, Member<P, K>>>
        + ArenaInsertTrait<P, Link<P, Member<P, K>>> = Arena<P, Link<P, Member<P, K>>>,
    B: ArenaInsertTrait<P, Shared<V>> = Arena<P, Shared<V>>,
> {
    pub(crate) keys: Chains<P, Member<P, K>, A>,
    pub(crate) sets: B,
    of: PhantomData<V>,
}

impl<
    P: Ptr,
    K,
    V,
    A: CompactArenaTrait<P, Link<P, Member<P, K>>> + ArenaInsertTrait<P, Link<P, Member<P, K>>>,
    B: ArenaInsertTrait<P, Shared<V>>,
> Model for SurjectArena<P, K, V, A, B> {
    ghost use Rattle.triple_arena.specs.Entries.{look_up};
    ghost use Rattle.triple_arena_chain.specs.Chains.{nodes};
    ghost use Rattle.triple_arena_surject.specs.Surject.{SurjectState, state_of};
    ghost use Rattle.triple_arena_surject.specs.Rings.{counts, IsSound};

    ghost Value = { SurjectState A B K V };

    ghost view = { λ s. state_of P.numbers s.sets s.keys
        (B.slots s.sets) (B.capacity s.sets) (B.limit s.sets) };

    ghost invariant = { λ s. IsSound P.numbers (nodes s.keys) (counts (B.slots s.sets)) };
}

impl<
    P: Ptr,
    K,
    V,
    A: CompactArenaTrait<P, Link<P, Member<P, K>>> + ArenaInsertTrait<P, Link<P, Member<P, K>>>,
    B: ArenaInsertTrait<P, Shared<V>>,
> SurjectArena<P, K, V, A, B> {
    /// No sets in new arenas, with room and limit of a new stack for keys and for values. It takes no memory.
    pub fn new(alloc: Global) -> Self
        ensures arena { result.arena ≡ A.empty (new_room A.kind) (new_limit A.kind) }
        ensures val_arena { result.val_arena ≡ B.empty (new_room B.kind) (new_limit B.kind) }
        ensures empty { AreNoSets
            (min (stack_capacity (new_room A.kind) (new_limit A.kind)) (greatest_index P.Inx.greatest))
            (new_limit A.kind)
            (min (stack_capacity (new_room B.kind) (new_limit B.kind)) (greatest_index P.Inx.greatest))
            (new_limit B.kind) result }
    {
        SurjectArena {
            keys: Chains::new(alloc),
            sets: B::new(alloc),
            of: PhantomData,
        }
    }

    /// No sets in new arenas, with room for so many keys and so many sets.
    ///
    /// Refused where the constructor with room of one of the arenas is: past the greatest index, where its stack can't
    /// hold so many, and where memory is refused, which it isn't where it is there. An array takes none, nor does a
    /// stack without room.
    pub fn with_min_capacity(alloc: Global, keys: usize, values: usize) -> Result<Self, AllocError>
    where
        A: Drop,
        // Done: there is room for so many.
        ensures arenas { IfOk result (λ sets.
            (sets.arena ≡ A.empty (made_room A.kind keys) (made_limit A.kind keys))
            × (sets.val_arena ≡ B.empty (made_room B.kind values) (made_limit B.kind values))) }
        ensures empty { IfOk result (AreNoSets
            (min (stack_capacity (made_room A.kind keys) (made_limit A.kind keys))
            (greatest_index P.Inx.greatest)) (made_limit A.kind keys)
            (min (stack_capacity (made_room B.kind values) (made_limit B.kind values))
            (greatest_index P.Inx.greatest)) (made_limit B.kind values)) }
        ensures holds { OnOk result ((keys ≤ greatest_index P.Inx.greatest)
            × CanHold A.kind keys
            × (values ≤ greatest_index P.Inx.greatest) × CanHold B.kind values) }

        // It isn't refused where neither arena is: where each takes no memory, or memory is there for it.
        ensures succeeds { keys ≤ greatest_index P.Inx.greatest
            → values ≤ greatest_index P.Inx.greatest
            → CanBeMade A.has_memory A.kind keys → CanBeMade B.has_memory B.kind values
            → IsOk result }
    {
        let keys = Chains::with_min_capacity(alloc, keys)?;
        let sets = B::with_min_capacity(alloc, values)?;
        Ok(SurjectArena {
            keys,
            sets,
            of: PhantomData,
        })
    }

    /// No sets in these arenas, of keys and of values, with their room, their limits and their counters. It takes no
    /// memory.
    ///
    /// Refused exactly where one of the arenas has an entry; then both come back.
    pub fn over(keys: A, values: B) -> Result<Self, (A, B)>
        ensures arenas { IfOk result
            (λ sets. (sets.arena ≡ keys) × (sets.val_arena ≡ values)) }
        ensures empty { IfOk result (AreNoSets
            (A.capacity keys) (A.limit keys) (B.capacity values) (B.limit values)) }
        ensures back { IfErr result (λ back. (back.0 ≡ keys) × (back.1 ≡ values)) }
        ensures variant { IsOk result
            ↔ ((entry_count (A.slots keys) ≡ 0) × (entry_count (B.slots values) ≡ 0)) }
    {
        if !values.is_empty() {
            return Err((keys, values));
        }
        match Chains::over(keys) {
            Ok(keys) => Ok(SurjectArena {
                keys,
                sets: values,
                of: PhantomData,
            }),
            Err(keys) => Err((keys, values)),
        }
    }

    /// How many keys there are, in all sets: never more than fit.
    pub fn len_keys(&self) -> usize
        ensures value { result ≡ self.now.len_keys }
        ensures fits { self.now.len_keys ≤ self.now.key_capacity }
    {
        self.keys.len()
    }

    /// Whether there is no key.
    pub fn is_empty(&self) -> bool
        ensures { result ≡ (self.now.len_keys == 0) }
    {
        self.keys.is_empty()
    }

    /// How many sets there are, each with its value: never more than fit. Each key has a value, and each value a key.
    pub fn len_vals(&self) -> usize
        ensures value { result ≡ self.now.len_vals }
        ensures fits { self.now.len_vals ≤ self.now.val_capacity }
        ensures onto { EachHasOther self.now }

        // What is read of sets is what their arenas tell, of keys and of values.
        ensures arenas { self.now ≡ sets_in P.numbers A.slots A.capacity A.limit
            B.slots B.capacity B.limit self.now.arena self.now.val_arena }
    {
        // What is read of chains is what their arena tells.
        let _capacity = self.keys.capacity();
        self.sets.len()
    }

    /// Whether a pointer finds a key. By a history of the arena of keys, it is one that was given and has not ended
    /// (`history`).
    pub fn contains(&self, p: P) -> bool
        ensures value { result ≡ is_some (found_at self.now (P.numbers p)) }
        ensures history { (h : History) → A.fits h self.now.arena → result ≡ remains h (P.numbers p) }
    {
        self.keys.contains(p)
    }

    /// The key under a pointer; none exactly where it finds nothing.
    pub fn get_key(&self, p: P) -> Option<&K>
        ensures { option_copied result ≡ key_at self.now (P.numbers p) }
    {
        match self.keys.get(p) {
            Some(member) => Some(&member.key),
            None => None,
        }
    }

    /// The value of a pointer's set; none exactly where the pointer finds nothing.
    pub fn get_val(&self, p: P) -> Option<&V>
        ensures value { option_copied result ≡ val_at self.now (P.numbers p) }
        ensures some { IsSome result ↔ IsSome (found_at self.now (P.numbers p)) }
    {
        let set = set_of(&self.keys, p)?;
        match self.sets.get(set) {
            Some(shared) => Some(&shared.value),
            None => None,
        }
    }

    /// Whether two pointers are of one set. A pointer that finds nothing is of none.
    pub fn in_same_set(&self, p: P, q: P) -> bool
        ensures { (result ≡ true) ↔ AreTogether self.now (P.numbers p) (P.numbers q) }
    {
        match (set_of(&self.keys, p), set_of(&self.keys, q)) {
            (Some(first), Some(second)) => are_same(first, second),
            _ => false,
        }
    }

    /// How many keys the set of a pointer has; none exactly where the pointer finds nothing.
    pub fn len_key_set(&self, p: P) -> Option<usize>
        ensures keys { MatchOption result (found_at self.now (P.numbers p) ≡ None)
            (λ n. HasKeys self.now (P.numbers p) n) }
        ensures there { IsSome result → IsSome (found_at self.now (P.numbers p)) }
        ensures fits { IfSome result (λ n. n ≤ self.now.len_keys) }
    {
        // Neighbours lead to each other, and keys are counted.
        let _len = self.keys.len();
        let set = set_of(&self.keys, p)?;
        match self.sets.get(set) {
            Some(shared) => Some(shared.keys),
            None => None,
        }
    }
}
