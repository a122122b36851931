//! Steps on the links of an arena. Of neighbours that lead to each other they know nothing.

ghost use Rattle.std.specs.Prelude.{◌≡◌, ◌≢◌, ℕ, ◌<◌, ◌↔◌, ◌+◌, List, [], ◌∷◌, None, Err, IsOk, IsSome, IfOk, OnOk, OnErr};
ghost use Rattle.std.specs.Option.{option_map};
ghost use Rattle.triple_arena_ptr.specs.Pointers.{Pointer, is_same};
ghost use Rattle.triple_arena_ptr.specs.Numbers.{greatest_index};
ghost use Rattle.triple_arena_stack.specs.Capacity.{IsFullAtLimit, CanGrow};
ghost use Rattle.triple_arena.specs.Ending.{told};
ghost use Rattle.triple_arena.specs.Entries.{look_up, entry_count};
ghost use Rattle.triple_arena.specs.Histories.{insertion, removal, CountsUp, Continues};
ghost use Rattle.triple_arena_chain.specs.Chains.{node_of, node_slots, value_at, changed, with_after, with_before, IsThere, IsPut, IsInserted, IsRemoved, IsLinked, KeepsSize, chains_in};
ghost use Rattle.triple_arena_chain.specs.Endings.{with_values, EndsEntry};
ghost use Rattle.triple_arena_chain.specs.Room.{KeepsRoom, HasOneMore, DependsOnRoom, TellsValue};

use crate::link::Link;
use crate::place::ChainError;
use triple_arena::{ArenaInsertTrait, ArenaTrait};
use triple_arena_base::{InvalidationOption, ReallocationError};
use triple_arena_ptr::{Ptr, PtrGen, PtrInx};

// Whether two pointers are one.
pub(crate) fn are_same<P: Ptr>(p: P, q: P) -> bool
    ensures { result ≡ is_same (P.numbers p) (P.numbers q) }
{
    p == q
}

// Has the entry of a pointer lead on to another; nothing changes where no pointer is given, or it
// finds nothing.
pub(crate) fn lead_on<P: Ptr, T, A: ArenaTrait<P, Link<P, T>>>(
    arena: &mut A,
    at: Option<P>,
    after: Option<P>,
)
    ensures nodes { (q : Pointer) → look_up (node_slots P.numbers (A.slots arena.new)) q
        ≡ changed (option_map P.numbers at) (with_after (option_map P.numbers after)) q
        (look_up (node_slots P.numbers (A.slots arena.old)) q) }
    ensures size { KeepsSize (chains_in P.numbers A.slots A.capacity A.limit arena.old)
        (chains_in P.numbers A.slots A.capacity A.limit arena.new) }
    ensures written { (writes : List (ℕ × Link P T))
        × (arena.new ≡ with_values A.with_value arena.old writes) }
    ensures history { Continues A.fits arena.old [] arena.new }
{
    let Some(at) = at else {
        return;
    };
    let Some(link) = arena.get_mut(at) else {
        return;
    };
    link.after = after;
}

// Has the entry of a pointer lead back to another; nothing changes where no pointer is given, or it
// finds nothing.
pub(crate) fn lead_back<P: Ptr, T, A: ArenaTrait<P, Link<P, T>>>(
    arena: &mut A,
    at: Option<P>,
    before: Option<P>,
)
    ensures nodes { (q : Pointer) → look_up (node_slots P.numbers (A.slots arena.new)) q
        ≡ changed (option_map P.numbers at) (with_before (option_map P.numbers before)) q
        (look_up (node_slots P.numbers (A.slots arena.old)) q) }
    ensures size { KeepsSize (chains_in P.numbers A.slots A.capacity A.limit arena.old)
        (chains_in P.numbers A.slots A.capacity A.limit arena.new) }
    ensures written { (writes : List (ℕ × Link P T))
        × (arena.new ≡ with_values A.with_value arena.old writes) }
    ensures history { Continues A.fits arena.old [] arena.new }
{
    let Some(at) = at else {
        return;
    };
    let Some(link) = arena.get_mut(at) else {
        return;
    };
    link.before = before;
}

// Puts a value in, which leads to these two, and to which none leads yet.
pub(crate) fn put<P: Ptr, T: Drop, A: ArenaInsertTrait<P, Link<P, T>>>(
    arena: &mut A,
    value: T,
    before: Option<P>,
    after: Option<P>,
) -> Result<P, ReallocationError>
    ensures put { IfOk result (λ q. IsPut
        (look_up (node_slots P.numbers (A.slots arena.old))) (P.numbers q)
        (node_of P.numbers record { value = value; before = before; after = after })
        (look_up (node_slots P.numbers (A.slots arena.new)))) }
    ensures size { OnOk result (HasOneMore A.capacity A.grown
        (chains_in P.numbers A.slots A.capacity A.limit arena.old)
        (chains_in P.numbers A.slots A.capacity A.limit arena.new)) }
    ensures history { IfOk result
        (λ q. Continues A.fits arena.old (insertion (P.numbers q) ∷ []) arena.new) }
    ensures refused { OnErr result (arena.new ≡ arena.old) }
    ensures beyond { (result ≡ Err ReallocationError.BeyondMaxCapacity) ↔ IsFullAtLimit
        (A.capacity arena.old) (A.limit arena.old) (entry_count (A.slots arena.old)) }
    ensures with_memory { CanGrow A.has_memory (A.capacity arena.old) (A.limit arena.old)
        (greatest_index P.Inx.greatest) → IsOk result }
    ensures indexed { OnOk result (entry_count (A.slots arena.old) ≡ A.capacity arena.old
        → A.capacity arena.old < greatest_index P.Inx.greatest) }
    ensures had_place { entry_count (A.slots arena.old) < A.capacity arena.old → IsOk result }
{
    arena.insert(Link {
        value,
        before,
        after,
    })
}

// Takes a link out, which the pointer finds.
pub(crate) fn take<P: Ptr, T, A: ArenaTrait<P, Link<P, T>>>(
    arena: &mut A,
    p: P,
) -> InvalidationOption<Link<P, T>>
    requires { IsSome (look_up (A.slots arena.old) (P.numbers p)) }
    ensures answer { TellsValue (A.ending_wraps arena.old)
        (look_up (A.slots arena.old) (P.numbers p)) result }
    ensures done { A.removes arena.old (P.numbers p).0 arena.new }
    ensures gone { look_up (node_slots P.numbers (A.slots arena.new)) (P.numbers p) ≡ None }
    ensures others { (r : Pointer) → r ≢ P.numbers p
        → look_up (node_slots P.numbers (A.slots arena.new)) r
        ≡ look_up (node_slots P.numbers (A.slots arena.old)) r }
    ensures len { entry_count (A.slots arena.new) + 1 ≡ entry_count (A.slots arena.old) }
    ensures room { KeepsRoom (chains_in P.numbers A.slots A.capacity A.limit arena.old)
        (chains_in P.numbers A.slots A.capacity A.limit arena.new) }
    ensures history { CountsUp P.Gen.generations (A.ending_wraps arena.old)
        → Continues A.fits arena.old (removal (P.numbers p) ∷ []) arena.new }
{
    arena.remove(p).unwrap()
}

// Has one entry lead on to another, and one lead back; where none is given, or it finds nothing,
// none does.
pub(crate) fn tie<P: Ptr, T, A: ArenaTrait<P, Link<P, T>>>(
    arena: &mut A,
    prev: Option<P>,
    next: Option<P>,
    after: Option<P>,
    before: Option<P>,
)
    ensures nodes { (q : Pointer) → look_up (node_slots P.numbers (A.slots arena.new)) q
        ≡ changed (option_map P.numbers next) (with_before (option_map P.numbers before)) q
        (changed (option_map P.numbers prev) (with_after (option_map P.numbers after)) q
        (look_up (node_slots P.numbers (A.slots arena.old)) q)) }
    ensures size { KeepsSize (chains_in P.numbers A.slots A.capacity A.limit arena.old)
        (chains_in P.numbers A.slots A.capacity A.limit arena.new) }
    ensures written { (writes : List (ℕ × Link P T))
        × (arena.new ≡ with_values A.with_value arena.old writes) }
    ensures history { Continues A.fits arena.old [] arena.new }
{
    lead_on(arena, prev, after);
    lead_back(arena, next, before);
}

// Puts a value in between two entries, or at an end, which lead to it then.
pub(crate) fn insert_between<P: Ptr, T: Drop, A: ArenaInsertTrait<P, Link<P, T>>>(
    arena: &mut A,
    value: T,
    prev: Option<P>,
    next: Option<P>,
) -> Result<P, ChainError>
    requires prev { IsThere (look_up (node_slots P.numbers (A.slots arena.old)))
        (option_map P.numbers prev) }
    requires next { IsThere (look_up (node_slots P.numbers (A.slots arena.old)))
        (option_map P.numbers next) }
    ensures inserted { IfOk result (λ q. IsInserted
        (look_up (node_slots P.numbers (A.slots arena.old)))
        (option_map P.numbers prev) (option_map P.numbers next) (P.numbers q) value
        (look_up (node_slots P.numbers (A.slots arena.new)))) }
    ensures size { OnOk result (HasOneMore A.capacity A.grown
        (chains_in P.numbers A.slots A.capacity A.limit arena.old)
        (chains_in P.numbers A.slots A.capacity A.limit arena.new)) }
    ensures history { IfOk result
        (λ q. Continues A.fits arena.old (insertion (P.numbers q) ∷ []) arena.new) }
    ensures refused { OnErr result (arena.new ≡ arena.old) }
    ensures room { DependsOnRoom A.has_memory (greatest_index P.Inx.greatest)
        (chains_in P.numbers A.slots A.capacity A.limit arena.old) result }
{
    match put(arena, value, prev, next) {
        Ok(q) => {
            tie(arena, prev, next, Some(q), Some(q));
            Ok(q)
        }
        Err(ReallocationError::BeyondMaxCapacity) => Err(ChainError::NoRoom),
        Err(ReallocationError::AllocError) => Err(ChainError::NoMemory),
    }
}

// Takes an entry, which is there, out of its chain, whose neighbours lead to each other then.
pub(crate) fn unlink<P: Ptr, T, A: ArenaTrait<P, Link<P, T>>>(
    arena: &mut A,
    p: P,
) -> InvalidationOption<T>
    requires linked { IsLinked (look_up (node_slots P.numbers (A.slots arena.old))) }
    requires there { IsSome (look_up (A.slots arena.old) (P.numbers p)) }
    ensures answer { TellsValue (A.ending_wraps arena.old)
        (value_at (look_up (node_slots P.numbers (A.slots arena.old))) (P.numbers p)) result }
    ensures removed { IsRemoved
        (look_up (node_slots P.numbers (A.slots arena.old))) (P.numbers p)
        (look_up (node_slots P.numbers (A.slots arena.new))) }
    ensures ended { EndsEntry A.removes A.with_value A.fits P.Gen.generations
        (A.ending_wraps arena.old) arena.old (P.numbers p) arena.new }
    ensures len { entry_count (A.slots arena.new) + 1 ≡ entry_count (A.slots arena.old) }
    ensures room { KeepsRoom (chains_in P.numbers A.slots A.capacity A.limit arena.old)
        (chains_in P.numbers A.slots A.capacity A.limit arena.new) }
{
    let taken = take(arena, p);
    let (link, wrapped) = taken.overflowing();
    tie(arena, link.before, link.after, link.after, link.before);
    telling(wrapped, link.value)
}

// An answer, by whether the counter wrapped.
pub(crate) fn telling<X>(wrapped: bool, x: X) -> InvalidationOption<X>
    ensures { result ≡ told wrapped x }
{
    if wrapped {
        InvalidationOption::GenerationOverflow(x)
    } else {
        InvalidationOption::Success(x)
    }
}
