//! Transfers of an arena's entries, mapped by a closure, into slots of any kind.

ghost use Rattle.std.specs.Prelude.{◌≡◌, ◌≤◌, ◌^◌, ◌*◌, [], map, length};
ghost use Rattle.triple_arena_ptr.specs.Numbers.{greatest_index};
ghost use Rattle.triple_arena_stack.specs.Capacity.{stack_capacity};
ghost use Rattle.triple_arena_traits.specs.Entries.{entry_count};
ghost use Rattle.triple_arena_traits.specs.Transfers.{Transfers};

use crate::arena_iterators::take_next;
use crate::arena_trait::ArenaTrait;
use crate::compact_arena_trait::CompactArenaTrait;
use crate::entry_slot::EntrySlot;
use std::num::NonZeroUsize;
use triple_arena_base::{Advancer, InvalidationOption};
use triple_arena_ptr::{Ptr, PtrGen, PtrInx};
use triple_arena_stack::NonZeroInxGenericStack;

/// Takes the entries of `source` out, one by one in the order of their indexes, and puts what `f`
/// makes of each into the slots of a stack that has none, from index 1 on, under one generation
/// (`Transfers`): for the transfer to an arena over such slots. `f` is called with the old pointer,
/// with what the removal told, and with the new pointer. It takes no memory.
pub fn transfer_entries<
    P: Ptr,
    T,
    X: EntrySlot<P, T>,
    S: NonZeroInxGenericStack<X>,
    Q: Ptr,
    U,
    A: CompactArenaTrait<Q, U>,
    M: FnMut(Q, InvalidationOption<U>, P) -> T,
>(stack: &mut S, generation: P::Gen, source: &mut A, mut f: M)
    requires callable { M.IsAlwaysCallable f }
    requires empty { S.items stack.old ≡ [] }
    requires fits { entry_count (A.slots source.old)
        ≤ stack_capacity (S.room stack.old) (S.limit stack.old) }
    requires indexed { entry_count (A.slots source.old) ≤ greatest_index P.Inx.greatest }
    ensures transferred { Transfers Q.numbers P.numbers M.step A.slots A.fits A.removes
        A.ending_wraps Q.Gen.generations (P.Gen.number generation) f source.old source.new
        (map X.entry (S.items stack.new)) }
    ensures emptied { entry_count (A.slots source.new) ≡ 0 }
    ensures count { length (S.items stack.new) ≡ entry_count (A.slots source.old) }
    ensures room { S.room stack.new ≡ S.room stack.old }
    ensures limit { S.limit stack.new ≡ S.limit stack.old }
{
    let mut advancer = source.advancer();
    'walk: while let Some((q, taken)) = take_next(&mut *source, &mut advancer) {
        let inx = NonZeroUsize::MIN.saturating_add(stack.len());
        let to = P::_from_raw(P::Inx::try_from_usize(inx).unwrap(), generation);
        let value = f(q, taken, to);
        stack.push_reserved(X::holding(generation, value));
    }
}
