//! Arenas over a stack of the caller's, and the stack of an arena.

ghost use Rattle.std.specs.Prelude.{◌≡◌, [], map, slice_get};
ghost use Rattle.std.specs.Int.NonZero.{non_zero_usize_get};
ghost use Rattle.triple_arena_ptr.specs.Numbers.{greatest_index, first_generation};
ghost use Rattle.triple_arena_traits.specs.ArenaState.{new_arena, IsWellFormed};
ghost use Rattle.triple_arena_traits.specs.SlotSteps.{IsTouched};
ghost use Rattle.triple_arena_slots.specs.Slot.{entry_of};
ghost use Rattle.triple_arena_slots.specs.Layout.{IsLinked};
ghost use Rattle.triple_arena.specs.Restored.{arena_over};

use crate::base_arena::Arena;
use std::num::NonZeroUsize;
use triple_arena_ptr::{Ptr, PtrGen, PtrInx};
use triple_arena_slots::{ArenaSlot, Slots};
use triple_arena_stack::NonZeroInxGenericStack;
use triple_arena_traits::entry_slots::count_live;

impl<P: Ptr, T, S: NonZeroInxGenericStack<ArenaSlot<P, T>>> Arena<P, T, S> {
    /// An arena without slots, over a stack that the caller has made, and that has no item: with its
    /// room and its limit. It takes no memory.
    pub fn over(stack: S) -> Self
        requires { S.items stack ≡ [] }
        ensures { result ≡ new_arena (S.room stack) (S.limit stack) (greatest_index P.Inx.greatest)
            (first_generation P.Gen.generations) }
    {
        Arena {
            slots: Slots::over(stack),
            len: 0,
            counter: P::Gen::two(),
        }
    }

    /// An arena over a stack whose slots stand, each free or with an entry, with this counter and
    /// the free indexes in this order: with the stack's room and limit. Whatever the free slots link
    /// to is linked anew. It takes no memory, and looks at each slot.
    ///
    /// It asks that this is an arena (`IsWellFormed`): the free indexes are those of the free slots, each
    /// once, and there are no more slots than fit. The generation of an entry may be past the counter, as
    /// it is once the counter wrapped or was set.
    pub fn over_slots(stack: S, counter: P::Gen, free: &[NonZeroUsize]) -> Self
        requires { IsWellFormed (arena_over (map (entry_of P.Gen.number) (S.items stack))
            (P.Gen.number counter) (map non_zero_usize_get free.now) (S.room stack)
            (S.limit stack) (greatest_index P.Inx.greatest)) }
        ensures { IsTouched (arena_over (map (entry_of P.Gen.number) (S.items stack))
            (P.Gen.number counter) (map non_zero_usize_get free.now) (S.room stack)
            (S.limit stack) (greatest_index P.Inx.greatest)) result }
    {
        let len = count_live::<P, T, ArenaSlot<P, T>, S>(&stack);
        let mut slots = Slots::over(stack);
        slots.link(free);
        Arena {
            slots,
            len,
            counter,
        }
    }

    /// The stack of the slots. The free ones link to each other in the order in which insertion takes
    /// them, from `freelist_root` on and back.
    pub fn backing(&self) -> &S
        ensures slots { map (entry_of P.Gen.number) (S.items result.now) ≡ self.now.slots }
        ensures room { S.room result.now ≡ self.now.room }
        ensures limit { S.limit result.now ≡ self.now.limit }
        ensures links { IsLinked (S.items result.now) (slice_get self.now.free 0) self.now.free }
    {
        self.slots.slots.uncounted_stack()
    }
}
