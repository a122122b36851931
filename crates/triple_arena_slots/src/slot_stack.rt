//! The stack of the slots of any arena, and how many of them were touched.

ghost use Rattle.std.specs.Prelude.{◌≡◌, ◌<◌, ◌≤◌, ◌+◌, ◌-◌, ◌∷◌, ◌++◌, [], slice_get, map, length, take, Some, is_some, IsSome, IfSome, option_copied};
ghost use Rattle.std.specs.Borrow.{sem};
ghost use Rattle.std.specs.Int.NonZero.{non_zero_usize_get};
ghost use Rattle.std.specs.Option.{option_map};
ghost use Rattle.triple_arena_ptr.specs.Numbers.{greatest_index};
ghost use Rattle.triple_arena_stack.specs.StackKind.{IsOfKind};
ghost use Rattle.triple_arena_stack.specs.Capacity.{stack_capacity};
ghost use Rattle.triple_arena_traits.specs.Items.{item, with_item};
ghost use Rattle.triple_arena_traits.specs.Entries.{entry_in, look_up};
ghost use Rattle.triple_arena_traits.specs.SlotSteps.{RisesByAtMost};

use crate::slot_steps::SlotSteps;
use std::marker::PhantomData;
use std::mem;
use std::num::NonZeroUsize;
use triple_arena_ptr::{Ptr, PtrInx};
use triple_arena_stack::NonZeroInxGenericStack;
use triple_arena_traits::EntrySlot;

/// The slots of an arena, numbered from 1, and how often one was touched. Its fields are this file's alone, so
/// nothing reaches a slot, or writes the count, but by these calls, each of which says by its name if it
/// counts nothing:
///
/// | Calls | Slots that they touch |
/// |---|---|
/// | `look`, `touch`, `push`, `pop` | one each, and they add one to the count, which begins at 0 |
/// | `put`, `find`, `find_inx`, `has_entry` | those that the calls touch of which they are made |
/// | `peek` | one, which a call by `&self` can't count |
/// | `over`, `len`, `capacity`, `max_capacity` | none |
/// | `uncounted_stack`, `uncounted_stack_mut` | whatever is done to the stack, and no count tells it |
///
/// By the last two goes all else (`uncounted.rt`). The `steps` of an `Arena` are this count. A body with a clause
/// `bounded`, and what it calls, makes no call whose name begins with `uncounted`.
#[derive(Drop)]
pub struct SlotStack<P: Ptr, T, X: EntrySlot<P, T>, S: NonZeroInxGenericStack<X>> {
    stack: S,
    steps: SlotSteps,
    of: PhantomData<(P, T, X)>,
}

impl<P: Ptr, T, X: EntrySlot<P, T>, S: NonZeroInxGenericStack<X>> SlotStack<P, T, X, S> {
    ghost use Rattle.triple_arena_slots.specs.Lends.{lends_slot, lends_stack};

    /// The slots of a stack, of which none was touched.
    pub fn over(stack: S) -> Self
        ensures stack { result.stack ≡ stack }
        ensures steps { result.steps.count ≡ 0 }
    {
        SlotStack {
            stack,
            steps: SlotSteps::new(),
            of: PhantomData,
        }
    }

    /// The generation of the entry at an index, if one stands there. Its one peek is counted.
    pub fn look(&mut self, inx: NonZeroUsize) -> Option<P::Gen>
        ensures value { option_map P.Gen.number result ≡ option_map (λ e. e.0)
            (entry_in (map X.entry (S.items self.old.stack)) (non_zero_usize_get inx)) }
        ensures stack { self.new.stack ≡ self.old.stack }
        ensures steps { self.new.steps.count ≡ self.old.steps.count + 1 }
    {
        self.steps = self.steps.next();
        match self.peek(inx) {
            Some(slot) => slot.generation(),
            None => None,
        }
    }

    /// The slot of an index, for writing. There is one.
    pub fn touch(&mut self, inx: NonZeroUsize) -> &mut X
        requires { IsSome (item (S.items self.old.stack) (non_zero_usize_get inx)) }
        ensures* writes_back { sem 𝓛 (lends_slot P.row T.row X.row S.row P.Inx.row P.Gen.row
            S.items S.with_items self.entry (non_zero_usize_get inx) result) }
        ensures value { item (S.items self.old.stack) (non_zero_usize_get inx) ≡ Some result.now }
    {
        self.steps = self.steps.next();
        self.stack.get_mut(inx).unwrap()
    }

    /// Puts a slot in the place of the one at an index, which it gives. There is one.
    pub fn put(&mut self, inx: NonZeroUsize, slot: X) -> X
        requires { IsSome (item (S.items self.old.stack) (non_zero_usize_get inx)) }
        ensures value { item (S.items self.old.stack) (non_zero_usize_get inx) ≡ Some result }
        ensures stack { self.new.stack ≡ S.with_items self.old.stack
            (with_item (S.items self.old.stack) (non_zero_usize_get inx) slot) }
        ensures steps { self.new.steps.count ≡ self.old.steps.count + 1 }
    {
        mem::replace(self.touch(inx), slot)
    }

    /// Pushes a slot, for which there is room.
    pub fn push(&mut self, slot: X)
        requires { length (S.items self.old.stack)
            < stack_capacity (S.room self.old.stack) (S.limit self.old.stack) }
        ensures stack { self.new.stack ≡ S.with_items self.old.stack
            (S.items self.old.stack ++ slot ∷ []) }
        ensures steps { self.new.steps.count ≡ self.old.steps.count + 1 }
    {
        self.steps = self.steps.next();
        self.stack.push_reserved(slot);
    }

    /// Pops the last slot. There is one.
    pub fn pop(&mut self) -> X
        requires { 0 < length (S.items self.old.stack) }
        ensures value { slice_get (S.items self.old.stack) (length (S.items self.old.stack) - 1)
            ≡ Some result }
        ensures stack { self.new.stack ≡ S.with_items self.old.stack
            (take (length (S.items self.old.stack) - 1) (S.items self.old.stack)) }
        ensures steps { self.new.steps.count ≡ self.old.steps.count + 1 }
    {
        self.steps = self.steps.next();
        self.stack.pop().unwrap()
    }

    /// The slot of an index, to look at, or `None` beyond the last: a call by `&self` can't count it.
    pub fn peek(&self, inx: NonZeroUsize) -> Option<&X>
        ensures { option_copied result ≡ item (S.items self.now.stack) (non_zero_usize_get inx) }
    {
        self.stack.get(inx)
    }

    /// How many slots there are.
    pub fn len(&self) -> usize
        ensures { result ≡ length (S.items self.now.stack) }
    {
        self.stack.len()
    }

    /// How many slots there may be without growth, the indexes aside.
    pub fn capacity(&self) -> usize
        ensures value { result ≡ stack_capacity (S.room self.now.stack) (S.limit self.now.stack) }
        ensures within { length (S.items self.now.stack) ≤ result }
    {
        self.stack.capacity()
    }

    /// The limit of the stack, if there is one.
    pub fn max_capacity(&self) -> Option<usize>
        ensures value { result ≡ S.limit self.now.stack }
        ensures of_kind { IsOfKind S.kind (S.room self.now.stack) (S.limit self.now.stack) }
    {
        self.stack.max_capacity()
    }

    /// The stack, to look at: no bounded work does so.
    pub fn uncounted_stack(&self) -> &S
        ensures { result.now ≡ self.now.stack }
    {
        &self.stack
    }

    /// The stack, for writing: no bounded work does so.
    pub fn uncounted_stack_mut(&mut self) -> &mut S
        ensures* writes_back { sem 𝓛 (lends_stack P.row T.row X.row S.row P.Inx.row P.Gen.row
            self.entry result) }
        ensures value { result.now ≡ self.old.stack }
    {
        &mut self.stack
    }

    /// The index of a pointer, if the entry there has the generation of the pointer. It touches at
    /// most one slot.
    #[inline(always)]
    pub fn find(&mut self, p: P) -> Option<NonZeroUsize>
        requires { length (S.items self.old.stack) ≤ greatest_index P.Inx.greatest }
        ensures index { IfSome result (λ inx. non_zero_usize_get inx ≡ (P.numbers p).0) }
        ensures live { is_some result ≡ is_some (look_up
            (map X.entry (S.items self.old.stack)) (P.numbers p)) }
        ensures stack { self.new.stack ≡ self.old.stack }
        ensures bounded { RisesByAtMost 1 self.old.steps.count self.new.steps.count }
    {
        let inx = P::Inx::try_into_usize(p.inx())?;
        let generation = self.look(inx)?;
        if generation == p.generation() {
            Some(inx)
        } else {
            None
        }
    }

    /// The number of an index, if an entry stands there. It touches at most one slot.
    pub fn find_inx(&mut self, inx: P::Inx) -> Option<NonZeroUsize>
        requires { length (S.items self.old.stack) ≤ greatest_index P.Inx.greatest }
        ensures index { IfSome result (λ i. non_zero_usize_get i ≡ P.Inx.number inx) }
        ensures live { is_some result
            ≡ is_some (entry_in (map X.entry (S.items self.old.stack)) (P.Inx.number inx)) }
        ensures stack { self.new.stack ≡ self.old.stack }
        ensures bounded { RisesByAtMost 1 self.old.steps.count self.new.steps.count }
    {
        let inx = P::Inx::try_into_usize(inx)?;
        if self.has_entry(inx) { Some(inx) } else { None }
    }

    // Whether an entry stands at an index.
    pub(crate) fn has_entry(&mut self, inx: NonZeroUsize) -> bool
        ensures value { result ≡ is_some (entry_in (map X.entry (S.items self.old.stack))
            (non_zero_usize_get inx)) }
        ensures stack { self.new.stack ≡ self.old.stack }
        ensures steps { self.new.steps.count ≡ self.old.steps.count + 1 }
    {
        self.look(inx).is_some()
    }
}
