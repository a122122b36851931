//! Compression of the slots of an arena, in place.

ghost use Rattle.std.specs.Prelude.{◌≡◌, ◌≤◌, ◌++◌, ℕ, List, Option, None, map, length, replicate};
ghost use Rattle.std.specs.Int.NonZero.{non_zero_usize_get};
ghost use Rattle.std.specs.Option.{option_map};
ghost use Rattle.triple_arena_ptr.specs.Numbers.{greatest_index};
ghost use Rattle.triple_arena_traits.specs.Walks.{entries, keys};
ghost use Rattle.triple_arena_traits.specs.Compression.{rank_in, placed};
ghost use Rattle.triple_arena_traits.specs.Moves.{Moves};

use crate::entry_slot::EntrySlot;
use crate::entry_slots::{replace, slot_at};
use std::num::NonZeroUsize;
use triple_arena_ptr::{Ptr, PtrGen, PtrInx};
use triple_arena_stack::NonZeroInxGenericStack;

/// Moves the entries to the first slots, in their order, with the values that the closure gives back
/// for them, and leaves no other slot. They get this generation, or keep their own where none is
/// given.
///
/// It goes through the slots once, and takes no memory.
pub fn close_up<
    P: Ptr,
    T,
    X: EntrySlot<P, T>,
    S: NonZeroInxGenericStack<X>,
    F: FnMut(P, T, P) -> T,
>(stack: &mut S, generation: Option<P::Gen>, mut f: F)
    requires callable { F.IsAlwaysCallable f }
    requires indexed { length (S.items stack.old) ≤ greatest_index P.Inx.greatest }
    ensures moved { (values : List T) × Moves P.numbers F.step
        (rank_in (option_map P.Gen.number generation) (map X.entry (S.items stack.old))) f
        (entries (map X.entry (S.items stack.old))) values
        × (map X.entry (S.items stack.new) ≡ placed (map
        (rank_in (option_map P.Gen.number generation) (map X.entry (S.items stack.old)))
        (keys (map X.entry (S.items stack.old)))) values) }
    ensures room { S.room stack.new ≡ S.room stack.old }
    ensures limit { S.limit stack.new ≡ S.limit stack.old }
{
    let mut to = 0;
    'moves: for at in 0..stack.len() {
        let inx = NonZeroUsize::MIN.saturating_add(at);
        if slot_at(&*stack, inx).unwrap().is_live() {
            let (own, value) = replace(stack, inx, X::vacant()).into_entry();
            let onto = NonZeroUsize::MIN.saturating_add(to);
            let new_generation = generation.unwrap_or(own);
            let given = f(pointer(inx, own), value, pointer(onto, new_generation));
            replace(stack, onto, X::holding(new_generation, given)).discard();
            to += 1;
        }
    }
    cut::<P, T, X, S>(stack, to);
}

// Pops the slots past so many, which have no entry.
fn cut<P: Ptr, T, X: EntrySlot<P, T>, S: NonZeroInxGenericStack<X>>(stack: &mut S, len: usize)
    requires { (kept : List (Option (ℕ × T))) × (spare : ℕ) × (length kept ≡ len)
        × (map X.entry (S.items stack.old) ≡ kept ++ replicate spare None) }
    ensures slots { (kept : List (Option (ℕ × T))) (spare : ℕ) → length kept ≡ len
        → map X.entry (S.items stack.old) ≡ kept ++ replicate spare None
        → map X.entry (S.items stack.new) ≡ kept }
    ensures room { S.room stack.new ≡ S.room stack.old }
    ensures limit { S.limit stack.new ≡ S.limit stack.old }
{
    'ends: while stack.len() > len {
        stack.pop().unwrap().discard();
    }
}

// The pointer of an index and a generation.
fn pointer<P: Ptr>(inx: NonZeroUsize, generation: P::Gen) -> P
    requires { non_zero_usize_get inx ≤ greatest_index P.Inx.greatest }
    ensures { P.numbers result ≡ (non_zero_usize_get inx, P.Gen.number generation) }
{
    P::_from_raw(P::Inx::try_from_usize(inx).unwrap(), generation)
}
