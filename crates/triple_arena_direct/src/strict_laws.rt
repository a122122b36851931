//! Laws over lists of calls of a strict arena.

ghost use Rattle.std.specs.Prelude.{◌≡◌, ◌<◌, List, true};
ghost use Rattle.triple_arena_ptr.specs.Numbers.{Generations};
ghost use Rattle.triple_arena_ptr.specs.Pointers.{Pointer};
ghost use Rattle.triple_arena_stack.specs.StackKind.{StackKind};
ghost use Rattle.triple_arena_traits.specs.ArenaState.{ArenaState, arena_len};
ghost use Rattle.triple_arena_traits.specs.Histories.{AreDistinct, History, ModelCall, given, remains, followed_by, is_live, Fits, Continues};
ghost use Rattle.triple_arena_direct.specs.Gone.{IsGoneForGood};
ghost use Rattle.triple_arena_direct.specs.StrictCalls.{StrictCall, IsStrictStep, AreStrictSteps};

/// Freshness without a premise on the counter: where generations count, each call of a strict arena,
/// as its clause `step` tells of it, takes every history that fits to one that fits (`call`), and so
/// does every list of its calls (`calls`).
///
/// So from any strict arena, whose own history `generation` tells, all pointers that calls give are
/// different (`given_once`), an entry stands under exactly those that were given and have not ended
/// (`live`), and what is gone for good stays so (`stays_gone`). Gone in an arena without entries is
/// each pointer of a generation below the counter (`below`), as that of `Ptr::invalid`.
pub fn strict_calls_are_fresh<T>()
    // A call takes every history that fits to one that fits, and so do calls one after another.
    ensures call { (kind : StackKind) (generations : Generations) (s : ArenaState T)
        (call : StrictCall T) (calls : List ModelCall) (t : ArenaState T)
        → generations.counting ≡ true
        → IsStrictStep kind generations s call calls t → Continues Fits s calls t }
    ensures calls { (kind : StackKind) (generations : Generations) (s : ArenaState T)
        (steps : List (StrictCall T)) (calls : List ModelCall) (t : ArenaState T)
        → generations.counting ≡ true
        → AreStrictSteps kind generations s steps calls t → Continues Fits s calls t }

    // So from any history that fits on, no pointer is given twice, entries are under those that
    // remain, and what is gone for good stays so.
    ensures given_once { (kind : StackKind) (generations : Generations) (s : ArenaState T)
        (steps : List (StrictCall T)) (calls : List ModelCall) (t : ArenaState T) (h : History)
        → generations.counting ≡ true → Fits h s → AreStrictSteps kind generations s steps calls t
        → AreDistinct (given (followed_by h calls)) }
    ensures live { (kind : StackKind) (generations : Generations) (s : ArenaState T)
        (steps : List (StrictCall T)) (calls : List ModelCall) (t : ArenaState T) (h : History)
        → generations.counting ≡ true → Fits h s → AreStrictSteps kind generations s steps calls t
        → (p : Pointer) → is_live t p ≡ remains (followed_by h calls) p }
    ensures stays_gone { (kind : StackKind) (generations : Generations) (s : ArenaState T)
        (steps : List (StrictCall T)) (calls : List ModelCall) (t : ArenaState T) (h : History)
        → generations.counting ≡ true → Fits h s → AreStrictSteps kind generations s steps calls t
        → (p : Pointer) → IsGoneForGood s p → IsGoneForGood t p }

    // Without entries, each pointer of a generation below the counter is gone.
    ensures below { (s : ArenaState T) (p : Pointer) → arena_len s ≡ 0 → p.1 < s.counter
        → IsGoneForGood s p }
{}
