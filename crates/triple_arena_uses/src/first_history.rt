//! Two histories, computed: which pointers eight calls give, and which of them have ended.

ghost use Rattle.std.specs.Prelude.{◌≡◌, [], ◌∷◌};
ghost use Rattle.triple_arena.specs.Walks.{keys};
ghost use Rattle.triple_arena.specs.Insertion.{inserted};
ghost use Rattle.triple_arena.specs.Histories.{begun_with, followed_by, given, ended, Fits, AreModelCalls};
ghost use Rattle.triple_arena_uses.specs.FirstHistory.{new_one, closed, first_calls, reset, without_e, later_calls};

use triple_arena::laws::{compression_moves, pointers_are_fresh, well_formed_stays};

/// In a new arena a and b are inserted, a is removed, c is inserted, b is invalidated, all is
/// cleared, d is inserted, and the arena is compressed. Six different pointers are given, and all
/// but the last have ended. That this history fits the arena, the laws tell.
pub fn first_history()
    ensures calls { AreModelCalls new_one first_calls closed }
    ensures given { given (followed_by (begun_with []) first_calls)
        ≡ (1, 2) ∷ (2, 2) ∷ (1, 3) ∷ (2, 4) ∷ (1, 5) ∷ (1, 6) ∷ [] }
    ensures ended { ended (followed_by (begun_with []) first_calls)
        ≡ (1, 2) ∷ (2, 2) ∷ (1, 3) ∷ (2, 4) ∷ (1, 5) ∷ [] }
    ensures left { keys closed.slots ≡ (1, 6) ∷ [] }
    ensures fits { Fits (followed_by (begun_with []) first_calls) closed }
{
    well_formed_stays::<u64>();
    pointers_are_fresh::<u64>();
}

/// Two entries are compressed with a reset, and their pointers count as given first. Then e is
/// inserted and removed, and another is inserted.
pub fn history_after_a_reset()
    ensures calls { AreModelCalls reset later_calls (inserted without_e 60) }
    ensures given { given (followed_by (begun_with (keys reset.slots)) later_calls)
        ≡ (1, 2) ∷ (2, 2) ∷ (3, 2) ∷ (3, 3) ∷ [] }
    ensures ended { ended (followed_by (begun_with (keys reset.slots)) later_calls)
        ≡ (3, 2) ∷ [] }
    ensures fits { Fits (followed_by (begun_with (keys reset.slots)) later_calls)
        (inserted without_e 60) }
{
    well_formed_stays::<u64>();
    compression_moves::<u64>();
    pointers_are_fresh::<u64>();
}
