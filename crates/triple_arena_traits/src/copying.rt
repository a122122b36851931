//! Copies of an arena's entries, mapped by a closure, in slots of any kind.

ghost use Rattle.std.specs.Prelude.{◌≡◌, ◌<◌, ◌≤◌, [], map, length};
ghost use Rattle.std.specs.Int.NonZero.{non_zero_usize_get};
ghost use Rattle.triple_arena_ptr.specs.Numbers.{greatest_index};
ghost use Rattle.triple_arena_stack.specs.Capacity.{stack_capacity};
ghost use Rattle.triple_arena_traits.specs.Entries.{entry_count};
ghost use Rattle.triple_arena_traits.specs.FreeList.{last_index};
ghost use Rattle.triple_arena_traits.specs.Walks.{entries};
ghost use Rattle.triple_arena_traits.specs.Copying.{Copies, put_after};

use crate::arena_trait::ArenaTrait;
use crate::compact_arena_trait::CompactArenaTrait;
use crate::entry_slot::EntrySlot;
use crate::entry_slots::extend;
use std::num::NonZeroUsize;
use triple_arena_base::Advancer;
use triple_arena_ptr::{Ptr, PtrGen, PtrInx};
use triple_arena_stack::NonZeroInxGenericStack;

// Puts an entry at an index past the last slot.
fn push_at<P: Ptr, T, X: EntrySlot<P, T>, S: NonZeroInxGenericStack<X>>(
    stack: &mut S,
    inx: NonZeroUsize,
    generation: P::Gen,
    value: T,
)
    requires within { non_zero_usize_get inx ≤ stack_capacity (S.room stack.old) (S.limit stack.old) }
    requires past { length (S.items stack.old) < non_zero_usize_get inx }
    ensures slots { map X.entry (S.items stack.new) ≡ put_after (map X.entry (S.items stack.old))
        (non_zero_usize_get inx, P.Gen.number generation) value }
    ensures room { S.room stack.new ≡ S.room stack.old }
    ensures limit { S.limit stack.new ≡ S.limit stack.old }
{
    extend::<P, T, X, S>(stack, inx.get() - 1);
    stack.push_reserved(X::holding(generation, value));
}

/// Puts the entries of `source` into the slots of a stack that has none, under the same pointers,
/// each mapped by `f`, which is called at them in the order of their indexes, up to its first
/// refusal (`Copies`): for the cloning of an arena over such slots. Gives how many it put. Refused,
/// exactly those that were mapped before stand. The slots end with the last entry that was mapped.
/// It takes no memory.
pub fn copy_entries<
    P: Ptr,
    T,
    X: EntrySlot<P, T>,
    S: NonZeroInxGenericStack<X>,
    U,
    E,
    A: CompactArenaTrait<P, U>,
    M: FnMut(P, &U) -> Result<T, E>,
>(stack: &mut S, source: &A, mut f: M) -> (usize, Result<(), E>)
    requires callable { M.IsAlwaysCallable f }
    requires empty { S.items stack.old ≡ [] }
    requires fits { last_index (A.slots source.now)
        ≤ stack_capacity (S.room stack.old) (S.limit stack.old) }
    ensures copied { Copies P.numbers M.step f (entries (A.slots source.now)) result.1
        (map X.entry (S.items stack.new)) }
    ensures count { result.0 ≡ entry_count (map X.entry (S.items stack.new)) }
    ensures ends { length (S.items stack.new) ≤ last_index (A.slots source.now) }
    ensures room { S.room stack.new ≡ S.room stack.old }
    ensures limit { S.limit stack.new ≡ S.limit stack.old }
{
    // No slot is past the greatest index.
    let _capacity = source.capacity();
    let mut advancer = source.advancer();
    let mut count = 0;
    'walk: while let Some(p) = advancer.advance(source) {
        let value = match f(p, source.get(p).unwrap()) {
            Ok(value) => value,
            Err(refusal) => return (count, Err(refusal)),
        };
        let inx = P::Inx::try_into_usize(p.inx()).unwrap();
        push_at::<P, T, X, S>(stack, inx, p.generation(), value);
        count += 1;
    }
    (count, Ok(()))
}
