//! Direct arenas over a stack of the caller's, and the stack of one.

ghost use Rattle.std.specs.Prelude.{◌≡◌, ◌≤◌, [], map, length};
ghost use Rattle.triple_arena_ptr.specs.Numbers.{greatest_index};
ghost use Rattle.triple_arena_direct_arena.specs.DirectState.{new_direct, direct_with_slots};
ghost use Rattle.triple_arena_direct_arena.specs.DirectSlot.{direct_slot_entry};

use crate::direct_arena::DirectArena;
use crate::slot::DirectSlot;
use triple_arena_ptr::{Ptr, PtrGen, PtrInx};
use triple_arena_slots::SlotStack;
use triple_arena_stack::NonZeroInxGenericStack;
use triple_arena_traits::entry_slots::count_live;

impl<P: Ptr, T, S: NonZeroInxGenericStack<DirectSlot<P, T>>> DirectArena<P, T, S> {
    /// An arena without slots, over a stack that the caller has made, and that has no item: with its
    /// room and its limit. It takes no memory.
    pub fn over(stack: S) -> Self
        requires { S.items stack ≡ [] }
        ensures { result ≡ new_direct (S.room stack) (S.limit stack)
            (greatest_index P.Inx.greatest) }
    {
        DirectArena {
            slots: SlotStack::over(stack),
            len: 0,
        }
    }

    /// An arena over a stack whose slots stand, each free or with an entry: with its room and its
    /// limit. It asks for no more slots than there are indexes. It takes no memory, and looks at each
    /// slot.
    pub fn over_slots(stack: S) -> Self
        requires { length (S.items stack) ≤ greatest_index P.Inx.greatest }
        ensures { result ≡ direct_with_slots (new_direct (S.room stack) (S.limit stack)
            (greatest_index P.Inx.greatest)) (map (direct_slot_entry P.Gen.number) (S.items stack)) }
    {
        // There are no more items than fit.
        let _capacity = stack.capacity();
        let len = count_live::<P, T, DirectSlot<P, T>, S>(&stack);
        DirectArena {
            slots: SlotStack::over(stack),
            len,
        }
    }

    /// The stack of the slots.
    pub fn backing(&self) -> &S
        ensures slots { map (direct_slot_entry P.Gen.number) (S.items result.now) ≡ self.now.slots }
        ensures room { S.room result.now ≡ self.now.room }
        ensures limit { S.limit result.now ≡ self.now.limit }
    {
        self.slots.uncounted_stack()
    }
}
