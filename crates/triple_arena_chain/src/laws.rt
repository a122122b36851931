//! Chains as lists: what a call leaves of the values from a pointer on.

ghost use Rattle.std.specs.Prelude.{◌≡◌, ◌≢◌, ℕ, List, [], ◌∷◌, ◌++◌, map, Option, None, Some, IsSome, Contains};
ghost use Rattle.std.specs.Option.{option_map};
ghost use Rattle.triple_arena_ptr.specs.Pointers.{Pointer};
ghost use Rattle.triple_arena_chain.specs.Chains.{Node, value_at, after_at, before_at, IsLinked, IsInserted, IsRemoved, IsMoved, IsRun, Lists, values_at, IsCut, IsJoined, begun_at, Answers, IsRest};
ghost use Rattle.triple_arena.specs.Entries.{look_up, entry_count};

/// Lists of pointers that stand one after another (`IsRun`), and of their values (`Lists`). An insertion
/// behind one puts the new value behind its value (`inserted`), and each list stays that has no
/// neighbour of the new entry which leads on to it (`others`). One before an entry puts it before its
/// value (`inserted_before`). A removal takes one value out of the middle (`removed`). After a
/// compaction the new names list the same values (`moved`). Of cuts and joins tells `ends_as_lists`.
pub fn chains_as_lists<T>()
    ensures inserted { (old : Pointer → Option (Node T)) (p q : Pointer) (value : T)
        (new : Pointer → Option (Node T)) (xs ys : List Pointer) (rest : Option Pointer)
        → IsInserted old (Some p) (after_at old p) q value new → IsRun old (xs ++ p ∷ ys) rest
        → ((r : Pointer) → Contains xs r → p ≢ r) → ((r : Pointer) → Contains ys r → p ≢ r)
        → Lists new (xs ++ p ∷ q ∷ ys) rest
        (values_at old xs ++ value_at old p ∷ Some value ∷ values_at old ys) }
    ensures others { (old : Pointer → Option (Node T)) (prev next : Option Pointer) (q : Pointer)
        (value : T) (new : Pointer → Option (Node T)) (ps : List Pointer) (rest : Option Pointer)
        → IsInserted old prev next q value new → IsRun old ps rest
        → ((p : Pointer) → Contains ps p → prev ≢ Some p)
        → Lists new ps rest (values_at old ps) }
    ensures inserted_before { (old : Pointer → Option (Node T)) (p q : Pointer) (value : T)
        (new : Pointer → Option (Node T)) (xs ys : List Pointer) (rest : Option Pointer)
        → IsLinked old → IsInserted old (before_at old p) (Some p) q value new
        → IsRun old (xs ++ p ∷ ys) rest
        → ((r : Pointer) → Contains xs r → p ≢ r) → ((r : Pointer) → Contains ys r → p ≢ r)
        → rest ≢ Some p → Lists new (xs ++ q ∷ p ∷ ys) rest
        (values_at old xs ++ Some value ∷ value_at old p ∷ values_at old ys) }
    ensures removed { (old : Pointer → Option (Node T)) (p : Pointer)
        (new : Pointer → Option (Node T)) (xs ys : List Pointer) (rest : Option Pointer)
        → IsLinked old → IsRemoved old p new → IsRun old (xs ++ p ∷ ys) rest
        → ((r : Pointer) → Contains xs r → p ≢ r) → ((r : Pointer) → Contains ys r → p ≢ r)
        → rest ≢ Some p
        → Lists new (xs ++ ys) rest (values_at old xs ++ values_at old ys) }
    ensures moved { (old : Pointer → Option (Node T)) (rename : Pointer → Pointer)
        (new : Pointer → Option (Node T)) (ps : List Pointer) (rest : Option Pointer)
        → IsMoved old rename new → IsRun old ps rest
        → Lists new (map rename ps) (option_map rename rest) (values_at old ps) }
{}

/// Lists of pointers where chains are cut and joined. A cut leaves the values up to it and those from it
/// on (`cut_after`, `cut_before`); a chain that is joined to another has its values behind its own
/// (`joined`), and one that is joined to itself the same, in a ring (`ring`).
pub fn ends_as_lists<T>()
    ensures cut_after { (old : Pointer → Option (Node T)) (p : Pointer)
        (new : Pointer → Option (Node T)) (xs ys : List Pointer) (rest : Option Pointer)
        → IsCut old (Some p) (after_at old p) new → IsRun old (xs ++ p ∷ ys) rest
        → ((r : Pointer) → Contains xs r → p ≢ r) → ((r : Pointer) → Contains ys r → p ≢ r)
        → Lists new (xs ++ p ∷ []) None (values_at old (xs ++ p ∷ []))
        × Lists new ys rest (values_at old ys) }
    ensures cut_before { (old : Pointer → Option (Node T)) (p : Pointer)
        (new : Pointer → Option (Node T)) (xs ys : List Pointer) (rest : Option Pointer)
        → IsLinked old → IsCut old (before_at old p) (Some p) new → IsRun old (xs ++ p ∷ ys) rest
        → ((r : Pointer) → Contains xs r → p ≢ r) → ((r : Pointer) → Contains ys r → p ≢ r)
        → rest ≢ Some p → Lists new xs None (values_at old xs)
        × Lists new (p ∷ ys) rest (values_at old (p ∷ ys)) }
    ensures joined { (old : Pointer → Option (Node T)) (last first : Pointer)
        (new : Pointer → Option (Node T)) (xs ys : List Pointer) (rest : Option Pointer)
        → IsJoined old last first new → IsRun old (xs ++ last ∷ []) None
        → IsRun old (first ∷ ys) rest → ((r : Pointer) → Contains xs r → last ≢ r)
        → ((r : Pointer) → Contains (first ∷ ys) r → last ≢ r)
        → Lists new (xs ++ last ∷ first ∷ ys) rest
        (values_at old xs ++ value_at old last ∷ value_at old first ∷ values_at old ys) }
    ensures ring { (old : Pointer → Option (Node T)) (last first : Pointer)
        (new : Pointer → Option (Node T)) (xs : List Pointer) → IsJoined old last first new
        → IsRun old (xs ++ last ∷ []) None → ((r : Pointer) → Contains xs r → last ≢ r)
        → Lists new (xs ++ last ∷ []) (Some first) (values_at old (xs ++ last ∷ [])) }
{}

/// The answers of an advancer over chains that stay, from the pointer on that it began at up to the
/// first none, are the rest of that pointer's chain, by the slots of the chains. That neighbours lead to
/// each other, and that entries are counted, `Chains::len` tells by its clauses.
pub fn walks_along_chains<T>()
    ensures { (slots : List (Option (ℕ × Node T))) (len : ℕ) (p : Pointer) (ps : List Pointer)
        → IsLinked (look_up slots) → entry_count slots ≡ len → IsSome (look_up slots p)
        → Answers (look_up slots) (begun_at p len) ps → IsRest (look_up slots) p ps }
{}
