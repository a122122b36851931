//! Wrong steps, and that freshness excludes them, whatever else is said of them.

ghost use Rattle.std.specs.Prelude.{◌≡◌, IsTrue, IsSome, [], ◌∷◌, false};
ghost use Rattle.triple_arena_ptr.specs.Pointers.{Pointer};
ghost use Rattle.triple_arena.specs.Entries.{look_up};
ghost use Rattle.triple_arena.specs.ArenaState.{ArenaState};
ghost use Rattle.triple_arena.specs.Histories.{History, has, ended, remains, removal, invalidation, Fits, Continues};

/// An arena may be made to leave anything, and its own clauses to say so: the clause `history` can't
/// be proved of a removal that ends a pointer of the counter's generation and leaves the counter
/// there, nor of an invalidation that gives the pointer which it ends; and one of a look-up can't
/// where it finds something under a pointer that has ended.
pub fn wrong_steps_are_stale<T>()
    ensures removal { (h : History) (s t : ArenaState T) (p : Pointer) → Fits h s
        → p.1 ≡ s.counter → t.counter ≡ s.counter → Continues Fits s (removal p ∷ []) t → ⊥ }
    ensures invalidation { (h : History) (s t : ArenaState T) (p : Pointer) → Fits h s
        → IsSome (look_up s.slots p) → Continues Fits s (invalidation p p ∷ []) t → ⊥ }
    ensures look_up { (h : History) (p : Pointer) → IsTrue (has (ended h) p)
        → remains h p ≡ false }
{}
