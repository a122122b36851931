//! Laws over several calls: of walks and of clones, which hold of every arena, and of the state of an
//! `Arena`.

ghost use Rattle.std.specs.Prelude.{◌≡◌, ◌⊎◌, ◌↔◌, ◌+◌, ◌<◌, ◌≤◌, ℕ, Bool, List, [], ◌∷◌, ◌++◌, map, All, Contains, Option, Some, None, IsSome, IsTrue, true, false, length, min};
ghost use Rattle.std.specs.List.{FoldsTo, range_with_len};
ghost use Rattle.triple_arena_ptr.specs.Numbers.{counting_to, raise, wraps};
ghost use Rattle.triple_arena_ptr.specs.Pointers.{Pointer};
ghost use Rattle.triple_arena_stack.specs.StackKind.{StackKind};
ghost use Rattle.triple_arena_traits.specs.Entries.{entry_in, look_up, entry_count, IsLast};
ghost use Rattle.triple_arena_traits.specs.ArenaState.{ArenaState, new_arena, arena_len, capacity, entry, with_value, IsWellFormed};
ghost use Rattle.triple_arena_traits.specs.Insertion.{inserted};
ghost use Rattle.triple_arena_traits.specs.Ending.{removed, invalidated, cleared};
ghost use Rattle.triple_arena_traits.specs.FreeList.{IsRising, tidied, without_free_end, laid_out};
ghost use Rattle.triple_arena_traits.specs.Reallocation.{EndsBy, reallocated, with_limit, grown};
ghost use Rattle.triple_arena_traits.specs.Values.{with_values_of};
ghost use Rattle.triple_arena_traits.specs.HeldSlots.{refill_slots};
ghost use Rattle.triple_arena_traits.specs.Walks.{Stand, Steps, Walk, IsAtFirst, keys, values};
ghost use Rattle.triple_arena_traits.specs.Cloning.{clonable, CloneTurn};
ghost use Rattle.triple_arena_traits.specs.Compression.{closed_up, compressed, rank, rank_among};
ghost use Rattle.triple_arena_traits.specs.Drains.{NoneWraps};
ghost use Rattle.triple_arena_traits.specs.Histories.{has, ModelCall, insertion, History, begun_with, and_then, given, ended, followed_by, is_live, Fits, Continues, IsModelCall, AreModelCalls};

use crate::arena_clone_trait::ArenaCloneFromWith;
use crate::compact_arena_trait::CompactArenaTrait;
use triple_arena_base::Recast;
use triple_arena_ptr::Ptr;

/// The pointers of a walk (`keys`): those of all entries, and no others, with rising indexes. The
/// pointer that `find_last_inx_ptr` answers is the last.
pub fn walk_in_order<T>()
    ensures rising { (slots : List (Option (ℕ × T))) → IsRising 1 (map (λ p. p.0) (keys slots)) }
    ensures all { (slots : List (Option (ℕ × T))) (p : Pointer)
        → IsSome (look_up slots p) ↔ Contains (keys slots) p }
    ensures last { (slots : List (Option (ℕ × T))) (p : Pointer) → IsLast slots p
        → (before : List Pointer) × (keys slots ≡ before ++ p ∷ []) }
{}

/// A forward advancer rises, and sees all that stays: the indexes that it answers rise up to its
/// first `None`, also where the arena changes between two steps; and one that `advancer` gave
/// answers each index that is live at its making and at every step up to there.
pub fn forward_walk<T>()
    ensures rises { (greatest : ℕ) (from : Stand)
        (turns : List (List (Option (ℕ × T)) × Pointer)) (to : Stand) → from.reverse ≡ false
        → Walk greatest from turns to → IsRising from.place (map (λ turn. turn.1.0) turns) }
    ensures sees { (greatest : ℕ) (first : List (Option (ℕ × T))) (from : Stand)
        (turns : List (List (Option (ℕ × T)) × Pointer)) (to : Stand)
        (last : List (Option (ℕ × T))) (end : Stand) (i : ℕ) → IsAtFirst first from
        → Walk greatest from turns to → Steps greatest last to None end
        → IsSome (entry_in first i) → All (λ turn. IsSome (entry_in turn.0 i)) turns
        → IsSome (entry_in last i) → Contains (map (λ turn. turn.1.0) turns) i }
{}

/// Clones keep their capacity. Cloning leaves the capacity where the source's last index is not
/// above it; so of two arenas that are cloned into each other by turns, with no refusal and no
/// other call between, at most the target of the first clone is reallocated.
pub fn clones_keep_capacity<
    P: Ptr,
    T,
    U,
    A: ArenaCloneFromWith<P, T>,
    B: ArenaCloneFromWith<P, U>,
>()
    ensures fits { (old : A) (last : ℕ) (next : Option ℕ) (copy : List (Option (ℕ × T))) (new : A)
        → A.clones old last next copy new → last ≤ A.capacity old
        → A.capacity new ≡ A.capacity old }
    ensures kept { (start : A × B) (first : Bool) (middle : A × B) (turns : List Bool)
        (end : A × B)
        → CloneTurn (clonable A.slots A.capacity A.clones) (clonable B.slots B.capacity B.clones)
        start first middle
        → FoldsTo (CloneTurn (clonable A.slots A.capacity A.clones)
        (clonable B.slots B.capacity B.clones)) middle turns end
        → (A.capacity end.0 ≡ A.capacity middle.0) × (B.capacity end.1 ≡ B.capacity middle.1) }
{}

/// A limit that is set back: once a limit is set, the old one can be set again, and then the old
/// capacity is there again. All else is as it was, or as it was with the free list tidied.
pub fn limit_set_back<T>()
    ensures succeeds { (s : ArenaState T) (x most : ℕ) → IsWellFormed s → s.limit ≡ Some most
        → EndsBy (with_limit s x) most }
    ensures same_capacity { (s : ArenaState T) (x most : ℕ) → s.limit ≡ Some most
        → capacity (with_limit (with_limit s x) most) ≡ capacity s }
    ensures state { (s : ArenaState T) (x most : ℕ) → s.limit ≡ Some most
        → (with_limit (with_limit s x) most ≡ s) ⊎ (with_limit (with_limit s x) most ≡ tidied s) }
{}

/// Under a limit that was set, the capacity is the smallest of room, limit and greatest index.
pub fn capacity_under_limit<T>()
    ensures { (s : ArenaState T) (x : ℕ)
        → capacity (with_limit s x) ≡ min (min s.room x) s.greatest }
{}

/// A new arena is well formed, and each step of a well-formed arena leaves it so: an insertion
/// where there is a place, a removal where there is an entry, a limit that no entry stands past,
/// slots that are laid out within the capacity, and other steps.
pub fn well_formed_stays<T>()
    ensures new { (room : ℕ) (limit : Option ℕ) (greatest counter : ℕ)
        → IsWellFormed {T = T} (new_arena room limit greatest counter) }
    ensures inserted { (s : ArenaState T) (value : T) → IsWellFormed s → arena_len s < capacity s
        → IsWellFormed (inserted s value) }
    ensures with_value { (s : ArenaState T) (i : ℕ) (value : T) → IsWellFormed s
        → IsWellFormed (with_value s i value) }
    ensures invalidated { (raise : ℕ → ℕ) (s : ArenaState T) (i : ℕ) → IsWellFormed s
        → IsWellFormed (invalidated raise s i) }
    ensures removed { (raise : ℕ → ℕ) (s : ArenaState T) (i : ℕ) → IsWellFormed s
        → IsSome (entry s i) → IsWellFormed (removed raise s i) }
    ensures cleared { (raise : ℕ → ℕ) (s : ArenaState T) → IsWellFormed (cleared raise s) }
    ensures tidied { (s : ArenaState T) → IsWellFormed s → IsWellFormed (tidied s) }
    ensures without_free_end { (s : ArenaState T) → IsWellFormed s
        → IsWellFormed (without_free_end s) }
    ensures reallocated { (kind : StackKind) (s : ArenaState T) (m : ℕ) → IsWellFormed s
        → IsWellFormed (reallocated kind s m) }
    ensures with_limit { (s : ArenaState T) (x : ℕ) → IsWellFormed s → EndsBy s x
        → IsWellFormed (with_limit s x) }
    ensures grown { (kind : StackKind) (s : ArenaState T) → IsWellFormed s
        → IsWellFormed (grown kind s) }
    ensures with_values_of { (s w : ArenaState T) → IsWellFormed s
        → IsWellFormed (with_values_of s w) }
    ensures laid_out { (s : ArenaState T) (slots : List (Option (ℕ × T))) (counter : ℕ)
        → length slots ≤ capacity s → IsWellFormed (laid_out s slots counter) }
    ensures counter { (s : ArenaState T) (counter : ℕ) → IsWellFormed s
        → IsWellFormed (record s { counter = counter }) }
{}

/// Freshness: a history that fits an arena goes on to fit it, followed by the model calls that are
/// made, as long as none of them wraps the counter. What leaves the pointers as they are, and the
/// counter no lower, as a write does, is none of them (`none`). So no pointer is given twice, and the
/// arena's pointers are exactly those that were given and have not ended (`Fits`). Of as many removals
/// as the counter is below the greatest generation, none wraps it (`none_wraps`).
pub fn pointers_are_fresh<T>()
    ensures empty { (s : ArenaState T) → arena_len s ≡ 0 → Fits (begun_with []) s }
    ensures begun { (s : ArenaState T) → ((p : Pointer) → IsTrue (is_live s p) → p.1 ≤ s.counter)
        → Fits (begun_with (keys s.slots)) s }
    ensures reset { (s : ArenaState T) (counter : ℕ) (values : List T)
        → Fits (begun_with (keys (closed_up counter values))) (compressed s counter values) }
    ensures call { (s : ArenaState T) (call : ModelCall) (t : ArenaState T) → IsModelCall s call t
        → Continues Fits s (call ∷ []) t }
    ensures calls { (s : ArenaState T) (calls : List ModelCall) (t : ArenaState T)
        → AreModelCalls s calls t → Continues Fits s calls t }
    ensures none { (s t : ArenaState T) → ((p : Pointer) → is_live t p ≡ is_live s p)
        → s.counter ≤ t.counter → Continues Fits s [] t }
    ensures one_after_another { (s m t : ArenaState T) (first second : List ModelCall)
        → Continues Fits s first m → Continues Fits m second t
        → Continues Fits s (first ++ second) t }
    ensures new { (h : History) (p : Pointer) (s : ArenaState T) → Fits (and_then h (insertion p)) s
        → has (given h) p ≡ false }
    ensures gone { (h : History) (calls : List ModelCall) (t : ArenaState T) (p : Pointer)
        → IsTrue (has (ended h) p) → Fits (followed_by h calls) t → is_live t p ≡ false }
    ensures never_live { (s : ArenaState T) (calls : List ModelCall) (t : ArenaState T)
        (p : Pointer) → arena_len s ≡ 0 → p.1 < s.counter → Continues Fits s calls t
        → is_live t p ≡ false }
    ensures none_wraps { (greatest : ℕ) (s : ArenaState T) (ps : List Pointer)
        → s.counter + length ps ≤ greatest
        → NoneWraps (λ old i new. new ≡ removed (raise (counting_to greatest)) old i)
        (λ a. wraps (counting_to greatest) a.counter) (counting_to greatest) s ps }
{}

/// A recast gives and ends no pointer, whatever images the held items have, and leaves a well-formed
/// arena well formed.
pub fn recasts_are_fresh<I, T: Recast<I>>()
    ensures history { (s : ArenaState T) (items : List I) → Continues Fits s []
        (record s { slots = refill_slots T.held T.refill s.slots items }) }
    ensures well_formed { (s : ArenaState T) (items : List I) → IsWellFormed s
        → IsWellFormed (record s { slots = refill_slots T.held T.refill s.slots items }) }
{}

/// A compression moves the entries to the indexes from 1 to their number, by `rank`: it gives no two
/// entries one index, keeps their order, and leaves out no index. Each has the value that was given
/// for it.
pub fn compression_moves<T>()
    ensures onto { (s : ArenaState T) (counter : ℕ)
        → map (λ p. p.0) (map (rank s counter) (keys s.slots)) ≡ range_with_len 1 (arena_len s) }
    ensures rises { (s : ArenaState T) (counter : ℕ) (p q : Pointer) → IsSome (look_up s.slots q)
        → p.0 < q.0 → (rank s counter p).0 < (rank s counter q).0 }
    ensures one_to_one { (s : ArenaState T) (counter : ℕ) (p q : Pointer) → IsSome (look_up s.slots p)
        → IsSome (look_up s.slots q) → rank s counter p ≡ rank s counter q → p ≡ q }
    ensures pointers { (s : ArenaState T) (counter : ℕ) (new : List T) → length new ≡ arena_len s
        → keys (compressed s counter new).slots ≡ map (rank s counter) (keys s.slots) }
    ensures values { (s : ArenaState T) (counter : ℕ) (new : List T) → length new ≡ arena_len s
        → values (compressed s counter new).slots ≡ new }
    ensures well_formed { (s : ArenaState T) (counter : ℕ) (new : List T) → IsWellFormed s
        → length new ≡ arena_len s → IsWellFormed (compressed s counter new) }
{}

/// The order that compressions of any compact arena keep. Each moves the entry of a pointer to the
/// index that tells how many entries there are up to it (`rank_among`): so no two entries come to one
/// index, one behind another stays behind it, and no index is left out.
pub fn compression_keeps_order<P: Ptr, T, A: CompactArenaTrait<P, T>>()
    ensures index { (arena : A) (reset : Bool) (p : Pointer) → IsSome (look_up (A.slots arena) p)
        → (A.rank arena reset p).0 ≡ rank_among (A.slots arena) p.0 }
    ensures rises { (arena : A) (reset : Bool) (p q : Pointer) → IsSome (look_up (A.slots arena) p)
        → IsSome (look_up (A.slots arena) q) → p.0 < q.0
        → (A.rank arena reset p).0 < (A.rank arena reset q).0 }
    ensures one_to_one { (arena : A) (reset : Bool) (p q : Pointer)
        → IsSome (look_up (A.slots arena) p) → IsSome (look_up (A.slots arena) q)
        → (A.rank arena reset p).0 ≡ (A.rank arena reset q).0 → p ≡ q }
    ensures onto { (arena : A) (reset : Bool)
        → map (λ p. p.0) (map (A.rank arena reset) (keys (A.slots arena)))
        ≡ range_with_len 1 (entry_count (A.slots arena)) }
{}
