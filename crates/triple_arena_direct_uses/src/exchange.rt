//! Calls of a strict arena, one after another: what a list of them gives.

ghost use Rattle.std.specs.Prelude.{◌≡◌, ◌≢◌, ◌<◌, ◌↔◌, ◌++◌, true, Some, Err, IsOk, IfOk, OnOk, OnErr};
ghost use Rattle.triple_arena_ptr.specs.Pointers.{Pointer};
ghost use Rattle.triple_arena_stack.specs.Capacity.{IsFullAtLimit};
ghost use Rattle.triple_arena.specs.Entries.{look_up};
ghost use Rattle.triple_arena.specs.ArenaState.{arena_len, capacity};
ghost use Rattle.triple_arena.specs.SlotSteps.{IsTouched};
ghost use Rattle.triple_arena.specs.Histories.{AreDistinct, History, insertion, removal, given, remains, followed_by, is_live, Fits};
ghost use Rattle.triple_arena_direct.specs.Gone.{IsGoneForGood};
ghost use Rattle.triple_arena_direct.specs.StrictAnswers.{is_exhausted, strict_of, calls_if_ok};

use triple_arena_base::ReallocationError;
use triple_arena_direct::strict_laws::strict_calls_are_fresh;
use triple_arena_direct::{StrictArena, StrictError};
use triple_arena_ptr::Ptr;

/// Takes the value of a pointer out, and puts another in, each as its call does or refuses it:
/// where the one came out there is a place for the other, and where there was a place before. Else
/// the other is `BeyondMaxCapacity` exactly where the arena is full and can't have more capacity.
/// Entries under other pointers stay; where the other value is refused, nothing changes but how
/// many slots were touched.
///
/// Of the pointers that the arena had given before, and the one that it gives now, no two are the same,
/// and entries stand exactly under those that have not ended. What was gone for good stays so.
pub fn exchange<P: Ptr, T: Drop>(
    arena: &mut StrictArena<P, T>,
    p: P,
    value: T,
) -> (Result<T, StrictError>, Result<P, ReallocationError>)
    ensures taken { result.0 ≡ strict_of (is_exhausted P.Gen.generations arena.old)
        (look_up arena.old.slots (P.numbers p)) }
    ensures found { IfOk result.1 (λ r. look_up arena.new.slots (P.numbers r) ≡ Some value) }
    ensures others { IfOk result.1 (λ r. (q : Pointer) → q ≢ P.numbers p → q.0 ≢ (P.numbers r).0
        → look_up arena.new.slots q ≡ look_up arena.old.slots q) }
    ensures kept { OnErr result.0 (IfOk result.1 (λ r. (P.numbers p).0 ≢ (P.numbers r).0
        → look_up arena.new.slots (P.numbers p) ≡ look_up arena.old.slots (P.numbers p))) }
    ensures refused { OnErr result.1 (IsTouched arena.old arena.new) }
    ensures beyond { OnErr result.0 ((result.1 ≡ Err ReallocationError.BeyondMaxCapacity)
        ↔ IsFullAtLimit (capacity arena.old) arena.old.limit (arena_len arena.old)) }
    ensures had_place { arena_len arena.old < capacity arena.old → IsOk result.1 }
    ensures made_place { OnOk result.0 (IsOk result.1) }
    ensures given_once { P.Gen.generations.counting ≡ true → (h : History) → Fits h arena.old
        → AreDistinct (given (followed_by h (calls_if_ok result.0 (λ _. removal (P.numbers p))
        ++ calls_if_ok result.1 (λ q. insertion (P.numbers q))))) }
    ensures live { P.Gen.generations.counting ≡ true → (h : History) → Fits h arena.old
        → (q : Pointer) → is_live arena.new q
        ≡ remains (followed_by h (calls_if_ok result.0 (λ _. removal (P.numbers p))
        ++ calls_if_ok result.1 (λ r. insertion (P.numbers r)))) q }
    ensures stays_gone { P.Gen.generations.counting ≡ true → (h : History) → Fits h arena.old
        → (q : Pointer) → IsGoneForGood arena.old q → IsGoneForGood arena.new q }
{
    strict_calls_are_fresh::<T>();
    // No more entries than fit.
    let _len = arena.len();
    let taken = arena.remove(p);
    let put = arena.insert(value);
    (taken, put)
}
