//! Laws of renaming: how holders follow a compaction, arenas among them, and what is read of values.

ghost use Rattle.std.specs.Prelude.{◌≡◌, ◌++◌, ℕ, List, [], Contains, Option, None, Some, IsSome, Ok};
ghost use Rattle.std.specs.Option.{option_map, option_and_then, unwrap_or};
ghost use Rattle.triple_arena_base.specs.Held.{held_all, recast_items, recast_answer};
ghost use Rattle.triple_arena_ptr.specs.Pointers.{Pointer};
ghost use Rattle.triple_arena_traits.specs.Entries.{look_up, entry_count};
ghost use Rattle.triple_arena_traits.specs.ArenaState.{ArenaState};
ghost use Rattle.triple_arena_traits.specs.HeldSlots.{held_slots, refill_slots};
ghost use Rattle.triple_arena_traits.specs.Walks.{keys, values};
ghost use Rattle.triple_arena_direct_arena.specs.DirectState.{DirectState};
ghost use Rattle.triple_arena_recasting.specs.Concrete.{renamed_if_live};
ghost use Rattle.triple_arena_recasting.specs.Renaming.{MapsPointers, first_unresolved, Refuses, AllResolve, RefusesStray, IsRenamed, AreRenamed, IsFoundRenamed};
ghost use Rattle.triple_arena_recasting.specs.RenamingBoth.{IsFoundRenamedBoth, RefusesBoth, RefusesBothStray};

use crate::errors::CompactBothError;
use crate::reading::Reading;
use triple_arena_base::{CompactError, Recast};
use triple_arena_ptr::Ptr;

/// Holders follow by the map of a compaction: where each pointer of a value found an entry before it,
/// as [`unresolved`](crate::unresolved) tells, a recast by the map isn't refused (`succeeds`), and what
/// it leaves is the value with each pointer renamed once (`renamed`).
///
/// The map finds just the pointers that found an entry before, so that `unresolved` answers of the
/// map what it did of the arena (`same`). Where it answers none, each pointer finds an entry (`live`).
pub fn holders_follow<P: Ptr, T, H: Recast<P>>()
    ensures succeeds { (rename : Pointer → Pointer) (slots : List (Option (ℕ × T)))
        (images : List (Option (ℕ × P))) (holder : H) → MapsPointers P.numbers rename slots images
        → first_unresolved P.numbers slots (H.held holder) ≡ None
        → recast_answer (λ p. look_up images (P.numbers p)) (H.held holder) ≡ Ok tt }
    ensures renamed { (rename : Pointer → Pointer) (slots : List (Option (ℕ × T)))
        (images : List (Option (ℕ × P))) (old new : H) → MapsPointers P.numbers rename slots images
        → first_unresolved P.numbers slots (H.held old) ≡ None
        → new ≡ H.refill old (recast_items (λ p. look_up images (P.numbers p)) (H.held old))
        → IsRenamed P.numbers rename H.held H.refill old new }
    ensures same { (rename : Pointer → Pointer) (slots : List (Option (ℕ × T)))
        (images : List (Option (ℕ × P))) (ps : List P) → MapsPointers P.numbers rename slots images
        → first_unresolved P.numbers images ps ≡ first_unresolved P.numbers slots ps }
    ensures live { (slots : List (Option (ℕ × T))) (ps : List P) (p : P)
        → first_unresolved P.numbers slots ps ≡ None → Contains ps p
        → IsSome (look_up slots (P.numbers p)) }
{}

/// What the map of a compaction has of one pointer, as `map.get(p)` asks: where the pointer found an
/// entry before, its new pointer (`live`); and only there (`image`). So `map.get(p)`, or the pointer
/// itself where the map has none, is the pointer by which the entry is found, if there was one (`kept`).
pub fn image_found<P: Ptr, T>()
    ensures live { (rename : Pointer → Pointer) (slots : List (Option (ℕ × T)))
        (images : List (Option (ℕ × P))) → MapsPointers P.numbers rename slots images
        → (p : P) → IsSome (look_up slots (P.numbers p)) → (q : P)
        × (look_up images (P.numbers p) ≡ Some q) × (P.numbers q ≡ rename (P.numbers p)) }
    ensures image { (rename : Pointer → Pointer) (slots : List (Option (ℕ × T)))
        (images : List (Option (ℕ × P))) → MapsPointers P.numbers rename slots images
        → (p q : P) → look_up images (P.numbers p) ≡ Some q
        → IsSome (look_up slots (P.numbers p)) × (P.numbers q ≡ rename (P.numbers p)) }
    ensures kept { (rename : Pointer → Pointer) (slots : List (Option (ℕ × T)))
        (images : List (Option (ℕ × P))) → MapsPointers P.numbers rename slots images
        → (p : P) → P.numbers (unwrap_or (look_up images (P.numbers p)) p)
        ≡ renamed_if_live rename slots (P.numbers p) }
{}

/// Names follow: where a name leads by a pointer that was recast by the map of a compaction, as
/// [`recast_values`](crate::recast_values) does it, it leads to the new pointer of its entry, or, where
/// that was gone before, to where it led (`led`). What was read under the name, of an entry that was
/// there, is read under it, if it is none of the pointers that values hold: of a cell its kind (`read`).
pub fn names_follow<P: Ptr, T: Recast<P>, R>()
    ensures led { (rename : Pointer → Pointer) (slots : List (Option (ℕ × T)))
        (images : List (Option (ℕ × P))) → MapsPointers P.numbers rename slots images
        → (before after : Option P) → after ≡ option_map (λ p. P.refill p
        (recast_items (λ q. look_up images (P.numbers q)) (P.held p))) before
        → option_map P.numbers after
        ≡ option_map (renamed_if_live rename slots) (option_map P.numbers before) }
    ensures read { (read : T → R) → ((v : T) (ps : List P) → read (T.refill v ps) ≡ read v)
        → (rename : Pointer → Pointer) (slots news : List (Option (ℕ × T)))
        → ((p : Pointer) → IsSome (look_up slots p) → IsFoundRenamed P.numbers rename
        T.held T.refill (look_up slots p) (look_up news (rename p)))
        → (led : Option Pointer) (value : R)
        → option_and_then (λ p. option_map read (look_up slots p)) led ≡ Some value
        → option_and_then (λ p. option_map read (look_up news p))
        (option_map (renamed_if_live rename slots) led) ≡ Some value }
{}

/// So is what is read under a name after a compaction of two arenas that point at each other.
pub fn names_follow_both<P: Ptr, Q: Ptr, T: Recast<P> + Recast<Q>, R>()
    ensures { (read : T → R) → ((v : T) (ps : List P) (qs : List Q)
        → read (⟦<T as Recast<Q>>⟧.refill (⟦<T as Recast<P>>⟧.refill v ps) qs) ≡ read v)
        → (rename rename_too : Pointer → Pointer) (slots news : List (Option (ℕ × T)))
        → ((p : Pointer) → IsSome (look_up slots p) → IsFoundRenamedBoth
        P.numbers rename ⟦<T as Recast<P>>⟧.held ⟦<T as Recast<P>>⟧.refill
        Q.numbers rename_too ⟦<T as Recast<Q>>⟧.held ⟦<T as Recast<Q>>⟧.refill
        (look_up slots p) (look_up news (rename p)))
        → (led : Option Pointer) (value : R)
        → option_and_then (λ p. option_map read (look_up slots p)) led ≡ Some value
        → option_and_then (λ p. option_map read (look_up news p))
        (option_map (renamed_if_live rename slots) led) ≡ Some value }
{}

/// Arenas are holders, as their values are: one whose pointers of another arena were renamed has the
/// entries that it had (`keys`), whose values were renamed one by one (`values`), and each pointer
/// finds in it what it found, so renamed (`found`). No more changes (`rest`); of a direct arena as well.
pub fn arenas_follow<P: Ptr, U: Recast<P>>()
    ensures keys { (rename : Pointer → Pointer) (old new : ArenaState U) → IsRenamed P.numbers rename
        (λ s. held_slots U.held U.refill s.slots)
        (λ s l. record s { slots = refill_slots U.held U.refill s.slots l }) old new
        → keys new.slots ≡ keys old.slots }
    ensures values { (rename : Pointer → Pointer) (old new : ArenaState U) → IsRenamed P.numbers rename
        (λ s. held_slots U.held U.refill s.slots)
        (λ s l. record s { slots = refill_slots U.held U.refill s.slots l }) old new
        → AreRenamed P.numbers rename U.held U.refill (values old.slots) (values new.slots) }
    ensures found { (rename : Pointer → Pointer) (old new : ArenaState U) → IsRenamed P.numbers rename
        (λ s. held_slots U.held U.refill s.slots)
        (λ s l. record s { slots = refill_slots U.held U.refill s.slots l }) old new
        → (q : Pointer) → IsFoundRenamed P.numbers rename U.held U.refill
        (look_up old.slots q) (look_up new.slots q) }
    ensures rest { (rename : Pointer → Pointer) (old new : ArenaState U) → IsRenamed P.numbers rename
        (λ s. held_slots U.held U.refill s.slots)
        (λ s l. record s { slots = refill_slots U.held U.refill s.slots l }) old new
        → new ≡ record old { slots = new.slots } }
    ensures direct { (rename : Pointer → Pointer) (old new : DirectState U) → IsRenamed P.numbers rename
        (λ s. held_slots U.held U.refill s.slots)
        (λ s l. record s { slots = refill_slots U.held U.refill s.slots l }) old new
        → (keys new.slots ≡ keys old.slots)
        × AreRenamed P.numbers rename U.held U.refill (values old.slots) (values new.slots)
        × ((q : Pointer) → IsFoundRenamed P.numbers rename U.held U.refill
        (look_up old.slots q) (look_up new.slots q))
        × (new ≡ record old { slots = new.slots }) }
{}

/// What the values of an arena lead to, that hold the pointers to another. Where the first of these
/// that finds nothing is none, each pointer that a value holds finds an entry (`all`). A refusal with
/// the first tells of a pointer that a value holds, and that finds nothing (`stray`). An arena holds
/// what its values hold, in their order (`same`).
pub fn arenas_resolve<P: Ptr, T, U: Recast<P>>()
    ensures all { (slots : List (Option (ℕ × T))) (holders : List (Option (ℕ × U)))
        → first_unresolved P.numbers slots (held_all U.held (values holders)) ≡ None
        → AllResolve P.numbers slots U.held holders }
    ensures stray { (slots : List (Option (ℕ × T))) (holders : List (Option (ℕ × U)))
        (refusal : CompactError P) → Refuses (entry_count slots)
        (first_unresolved P.numbers slots (held_all U.held (values holders))) refusal
        → RefusesStray P.numbers slots U.held holders refusal }
    ensures same { (holders : List (Option (ℕ × U)))
        → held_slots U.held U.refill holders ≡ held_all U.held (values holders) }
{}

/// What is read of values follows their pointers ([`Reading`]): where what is found was renamed, what is
/// read of it is renamed (`found`), and so it is under each pointer of an arena that was a holder
/// (`arenas`).
pub fn readings_follow<P: Ptr, U: Reading<P>>()
    ensures found { (rename : Pointer → Pointer) (before after : Option U)
        → IsFoundRenamed P.numbers rename U.held U.refill before after
        → option_map U.read after ≡ option_map (U.renamed rename) (option_map U.read before) }
    ensures arenas { (rename : Pointer → Pointer) (old new : ArenaState U) → IsRenamed P.numbers rename
        (λ s. held_slots U.held U.refill s.slots)
        (λ s l. record s { slots = refill_slots U.held U.refill s.slots l }) old new
        → (q : Pointer) → option_map U.read (look_up new.slots q)
        ≡ option_map (U.renamed rename) (option_map U.read (look_up old.slots q)) }
{}

/// So it is after a compaction of two arenas that point at each other: of values that hold none of the
/// pointers `P` to their own arena, what is read of those to the other, `Q`, is renamed.
pub fn readings_follow_both<P: Ptr, Q: Ptr, T: Recast<P> + Reading<Q>>()
    ensures { ((v : T) → ⟦<T as Recast<P>>⟧.held v ≡ []) → (rename rename_too : Pointer → Pointer)
        (before after : Option T) → IsFoundRenamedBoth
        P.numbers rename ⟦<T as Recast<P>>⟧.held ⟦<T as Recast<P>>⟧.refill
        Q.numbers rename_too ⟦<T as Recast<Q>>⟧.held ⟦<T as Recast<Q>>⟧.refill before after
        → option_map T.read after ≡ option_map (T.renamed rename_too) (option_map T.read before) }
{}

/// As [`arenas_resolve`], of the pointers that the values of an arena hold to it, and then those that the
/// values of another hold, which was compacted with it or was its holder (`all_with`, `stray_with`). A
/// refusal tells of the other's pointers where the first values hold none.
pub fn relations_resolve<P: Ptr, T: Recast<P>, U: Recast<P>>()
    ensures all { (slots : List (Option (ℕ × T))) (holders : List (Option (ℕ × U)))
        → first_unresolved P.numbers slots
        (held_all T.held (values slots) ++ held_all U.held (values holders)) ≡ None
        → AllResolve P.numbers slots U.held holders }
    ensures all_with { (slots : List (Option (ℕ × T))) (holders : List (Option (ℕ × U)))
        → first_unresolved P.numbers slots
        (held_all T.held (values slots) ++ held_slots U.held U.refill holders) ≡ None
        → AllResolve P.numbers slots U.held holders }
    ensures stray_with { ((v : T) → T.held v ≡ []) → (slots : List (Option (ℕ × T)))
        (holders : List (Option (ℕ × U))) (refusal : CompactError P) → Refuses (entry_count slots)
        (first_unresolved P.numbers slots
        (held_all T.held (values slots) ++ held_slots U.held U.refill holders)) refusal
        → RefusesStray P.numbers slots U.held holders refusal }
{}

/// So of two arenas and a holder beside them, as
/// [`compress_recast_both_with`](crate::compress_recast_both_with) says: of the pointers to one arena, each
/// that the values of the other hold finds an entry (`all`), and each that the holder holds (`holder`).
pub fn holder_resolves<P: Ptr, T: Recast<P>, U: Recast<P>, H: Recast<P>>()
    ensures all { (slots : List (Option (ℕ × T))) (holders : List (Option (ℕ × U))) (holder : H)
        → first_unresolved P.numbers slots ((held_all T.held (values slots)
        ++ held_all U.held (values holders)) ++ H.held holder) ≡ None
        → AllResolve P.numbers slots U.held holders }
    ensures holder { (slots : List (Option (ℕ × T))) (holders : List (Option (ℕ × U))) (holder : H)
        → first_unresolved P.numbers slots ((held_all T.held (values slots)
        ++ held_all U.held (values holders)) ++ H.held holder) ≡ None
        → (p : P) → Contains (H.held holder) p → IsSome (look_up slots (P.numbers p)) }
{}

/// Why neither of two arenas was compacted, in look-ups, where the values of each hold none of the
/// pointers to their own.
pub fn relations_resolve_both<P: Ptr, Q: Ptr, T: Recast<P> + Recast<Q>, U: Recast<P> + Recast<Q>>()
    ensures { ((v : T) → ⟦<T as Recast<P>>⟧.held v ≡ []) → ((v : U) → ⟦<U as Recast<Q>>⟧.held v ≡ [])
        → (slots : List (Option (ℕ × T))) (slots_too : List (Option (ℕ × U)))
        (refusal : CompactBothError P Q) → RefusesBoth
        (entry_count slots) (first_unresolved P.numbers slots
        (held_all ⟦<T as Recast<P>>⟧.held (values slots)
        ++ held_all ⟦<U as Recast<P>>⟧.held (values slots_too)))
        (entry_count slots_too) (first_unresolved Q.numbers slots_too
        (held_all ⟦<U as Recast<Q>>⟧.held (values slots_too)
        ++ held_all ⟦<T as Recast<Q>>⟧.held (values slots))) refusal
        → RefusesBothStray P.numbers Q.numbers slots ⟦<U as Recast<P>>⟧.held
        slots_too ⟦<T as Recast<Q>>⟧.held refusal }
{}
