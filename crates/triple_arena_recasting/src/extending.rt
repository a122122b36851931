//! Values that come from an iterator.

ghost use Rattle.std.specs.Prelude.{◌≡◌, ◌<◌, ◌↔◌, List, Some, IfErr, MatchResult};
ghost use Rattle.std.specs.Iterator.{IsFinite, Drains, YieldsThen};
ghost use Rattle.triple_arena_ptr.specs.Numbers.{greatest_index};
ghost use Rattle.triple_arena_ptr.specs.Pointers.{Pointer};
ghost use Rattle.triple_arena_stack.specs.Capacity.{IsFullAtLimit, CanGrow};
ghost use Rattle.triple_arena_stack.specs.StackKind.{new_room, new_limit};
ghost use Rattle.triple_arena_traits.specs.Entries.{entry_count};
ghost use Rattle.triple_arena_traits.specs.Walks.{values_of};
ghost use Rattle.triple_arena_recasting.specs.Extending.{all_inserted, EntriesCame, RefusesOneMore};

use std::alloc::Global;
use triple_arena_base::ReallocationError;
use triple_arena_ptr::{Ptr, PtrInx};
use triple_arena_traits::{ArenaInsertTrait, ArenaTrait, InsertFailed};

/// Inserts the values that come, in their order, each as by `insert`: a full arena grows first.
///
/// It stops at the first value that is refused, which comes back in the error, as from `try_insert`.
/// Those before it stay inserted: the arena has as many entries more. What comes after it stays in an
/// iterator that is lent (`&mut values`), as a test shows. It asks that the iterator tells that it ends
/// (`IsFinite`).
pub fn extend<P: Ptr, T: Drop, A: ArenaInsertTrait<P, T>, U: IntoIterator<Item = T>>(
    this: &mut A,
    values: U,
) -> Result<(), InsertFailed<T>>
    requires { (it : U.IntoIter) → U.into_iter_gives values it
        → U.IntoIter.can_next it × IsFinite (U.IntoIter.remaining it) }

    // These values came and were inserted, and the iterator has ended, or has given one more, which was
    // refused.
    ensures came { (it : U.IntoIter) × (came : List (Pointer × T)) × U.into_iter_gives values it
        × EntriesCame A.slots A.fits this.old came this.new
        × (this.new ≡ all_inserted A.inserted A.grown this.old (values_of came))
        × MatchResult result (λ _. Drains U.IntoIter.next_gives it (values_of came))
        (λ failed. (rest : U.IntoIter) × YieldsThen
        U.IntoIter.next_gives it (values_of came) (Some failed.value) rest) }

    // Refused: the arena was full, and could not grow; its limit was reached exactly where the
    // error says so.
    ensures beyond { IfErr result (λ failed. (failed.error ≡ ReallocationError.BeyondMaxCapacity)
        ↔ IsFullAtLimit (A.capacity this.new) (A.limit this.new) (entry_count (A.slots this.new))) }
    ensures with_memory { IfErr result (λ _. CanGrow A.has_memory (A.capacity this.new)
        (A.limit this.new) (greatest_index P.Inx.greatest) → ⊥) }
    ensures was_full { IfErr result (λ _.
        entry_count (A.slots this.new) < A.capacity this.new → ⊥) }

    // In each case the limit stays.
    ensures limit { A.limit this.new ≡ A.limit this.old }
{
    'each: for value in values {
        match this.try_insert(value) {
            Ok(_p) => {}
            Err(failed) => return Err(failed),
        }
    }
    Ok(())
}

/// A new arena with the values that come, in their order, as by [`extend`]: it is the empty one, into which
/// they are inserted one after another.
///
/// Refused at the first value that the arena made so far refuses, with the error of its `try_insert`; the
/// value comes back in the error, and that arena is dropped. It asks that the iterator tells that it
/// ends (`IsFinite`).
pub fn from_iter<P: Ptr, T: Drop, A: ArenaInsertTrait<P, T> + Drop, U: IntoIterator<Item = T>>(
    alloc: Global,
    values: U,
) -> Result<A, InsertFailed<T>>
    requires { (it : U.IntoIter) → U.into_iter_gives values it
        → U.IntoIter.can_next it × IsFinite (U.IntoIter.remaining it) }
    ensures came { (it : U.IntoIter) × (came : List (Pointer × T)) × (made : A)
        × U.into_iter_gives values it
        × EntriesCame A.slots A.fits (A.empty (new_room A.kind) (new_limit A.kind)) came made
        × (made ≡ all_inserted
        A.inserted A.grown (A.empty (new_room A.kind) (new_limit A.kind)) (values_of came))
        × MatchResult result
        (λ arena. (arena ≡ made) × Drains U.IntoIter.next_gives it (values_of came))
        (λ failed. RefusesOneMore A.has_memory (A.capacity made) (A.limit made)
        (entry_count (A.slots made)) (greatest_index P.Inx.greatest) failed.error
        × ((rest : U.IntoIter) × YieldsThen
        U.IntoIter.next_gives it (values_of came) (Some failed.value) rest)) }
{
    let mut arena = A::new(alloc);
    match extend(&mut arena, values) {
        Ok(()) => Ok(arena),
        Err(failed) => Err(failed),
    }
}
