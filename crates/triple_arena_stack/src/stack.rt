//! The contract of every stack.
ghost use Rattle.std.specs.Prelude.{◌≡◌, ◌≢◌, ◌+◌, ◌-◌, ◌≤◌, ◌==◌, ◌↔◌, List, [], ◌∷◌, ◌++◌, length, take, slice_get, slice_set, ℕ, Option, IsOk, IfOk, OnOk, OnErr};
ghost use Rattle.std.specs.Borrow.{sem, Lends, LendsIf, Array};
ghost use Rattle.std.specs.Int.NonZero.{non_zero_usize_get};
ghost use Rattle.std.specs.List.{refill};
ghost use Rattle.std.specs.Option.{option_copied, option_copied_mut};
ghost use Rattle.triple_arena_stack.specs.StackKind.{StackKind, new_room, new_limit, made_room, made_limit, CanHold, TakesNoMemory, reallocated_room, IsOfKind};
ghost use Rattle.triple_arena_stack.specs.Capacity.{stack_capacity, most_places, room_for_one_more, HasPlace, IsWithin, IsBeyond, IsFullAtLimit, CanGrow};
ghost use Rattle.triple_arena_stack.specs.Disjoint.{DisjointAnswer, set_both, MayWork, Worked};

use crate::growth::grow_if_full;
use crate::pair::pair_of;
use std::alloc::Global;
use std::num::NonZeroUsize;
use triple_arena_base::{
    AllocError, GetDisjointMutError, NotWithinCapacityError, ReallocationError,
};

/// A list of items numbered from 1, with room for so many of them, and a limit or none.
///
/// The capacity is the smaller of room and limit; the length never passes it. What constructors and
/// reallocation make of room and limit is told by the stack's kind: on the heap, on the heap up to
/// a limit that can be set, fixed when it is made, or an array.
///
/// Memory is asked for only where the room is made or changes. Where it is refused, items, room and
/// limit stay as they were. For which requests it is there is told by `has_memory`, and a call that
/// makes or changes the room succeeds where it says so: a body over any stack that gives up without
/// asking has no proof. A stack on the heap says so of no number, and an array, which takes no
/// memory, of each.
///
/// # A stack of one's own
///
/// A stack of one's own is most simply written round another, as below, where `Counting` counts its
/// pushes. Its model is the inner stack, so that each member and each law is that stack's. The count
/// stays outside the model: the contract has a push leave all but the items as it was.
///
/// ```text
/// use std::alloc::Global;
/// use std::marker::{Model, PhantomData};
/// use std::num::NonZeroUsize;
/// use triple_arena_base::{AllocError, ReallocationError};
/// use triple_arena_stack::NonZeroInxGenericStack;
///
/// /// A stack that counts its pushes.
/// #[derive(Drop)]
/// pub struct Counting<T, S: NonZeroInxGenericStack<T>> {
///     inner: S,
///     pushes: u64,
///     items: PhantomData<T>,
/// }
///
/// impl<T, S: NonZeroInxGenericStack<T>> Model for Counting<T, S> {
///     ghost Value = { S };
///
///     ghost coded = { S.code };
///
///     ghost view = { λ c. c.inner };
/// }
///
/// impl<T, S: NonZeroInxGenericStack<T>> Counting<T, S> {
///     /// How many pushes there were.
///     pub fn pushes(&self) -> u64 {
///         self.pushes
///     }
/// }
///
/// impl<T, S: NonZeroInxGenericStack<T>> NonZeroInxGenericStack<T> for Counting<T, S> {
///     ghost items = { S.items };
///
///     ghost room = { S.room };
///
///     ghost limit = { S.limit };
///
///     ghost kind = { S.kind };
///
///     ghost has_memory = { S.has_memory };
///
///     ghost with_items = { S.with_items };
///
///     fn new(alloc: Global) -> Self {
///         Counting {
///             inner: S::new(alloc),
///             pushes: 0,
///             items: PhantomData,
///         }
///     }
///
///     fn with_min_capacity(alloc: Global, min_capacity: usize) -> Result<Self, AllocError> {
///         Ok(Counting {
///             inner: S::with_min_capacity(alloc, min_capacity)?,
///             pushes: 0,
///             items: PhantomData,
///         })
///     }
///
///     fn capacity(&self) -> usize {
///         self.inner.capacity()
///     }
///
///     fn max_capacity(&self) -> Option<usize> {
///         self.inner.max_capacity()
///     }
///
///     fn reallocate_min_capacity(&mut self, min_capacity: usize) -> Result<(), ReallocationError> {
///         self.inner.reallocate_min_capacity(min_capacity)
///     }
///
///     fn push_reserved(&mut self, t: T) -> (NonZeroUsize, &mut T) {
///         self.pushes = self.pushes.saturating_add(1);
///         self.inner.push_reserved(t)
///     }
///
///     fn get_mut(&mut self, inx: NonZeroUsize) -> Option<&mut T> {
///         self.inner.get_mut(inx)
///     }
///
///     fn pop(&mut self) -> Option<T> {
///         self.inner.pop()
///     }
///
///     fn clear(&mut self)
///     where
///         T: Drop,
///     {
///         self.inner.clear();
///     }
///
///     fn as_slice(&self) -> &[T] {
///         self.inner.as_slice()
///     }
///
///     fn as_mut_slice(&mut self) -> &mut [T] {
///         self.inner.as_mut_slice()
///     }
///
///     ghost items_with_items = { S.items_with_items };
///
///     ghost room_with_items = { S.room_with_items };
///
///     ghost limit_with_items = { S.limit_with_items };
///
///     ghost with_items_same = { S.with_items_same };
///
///     ghost with_items_twice = { S.with_items_twice };
/// }
/// ```
pub trait NonZeroInxGenericStack<T> {
    // the items, that of index 1 first
    ghost items: { Self → List T };

    // for how many items there is room
    ghost room: { Self → ℕ };

    // how many items are allowed, if there is a limit
    ghost limit: { Self → Option ℕ };

    // what constructors and reallocation make of room and limit
    ghost kind: { StackKind };

    // where room for so many items is asked for, memory is there: a stack says so only of numbers
    // for which it never refuses memory
    ghost has_memory: { ℕ → Type 0 };

    // the same stack with other items
    ghost with_items: { Self → List T → Self };

    /// An empty stack, with the room and the limit of a new stack of its kind. It takes no memory.
    fn new(alloc: Global) -> Self
        ensures items { items result ≡ [] }
        ensures room { room result ≡ new_room kind }
        ensures limit { limit result ≡ new_limit kind };

    /// An empty stack with room for `min_capacity` items.
    ///
    /// `AllocError` where memory is refused, or where the stack is an array of fewer places; never
    /// where it takes no memory, for 0 items and in an array within its places, nor where memory is
    /// there.
    fn with_min_capacity(alloc: Global, min_capacity: usize) -> Result<Self, AllocError>
        ensures items { IfOk result (λ stack. items stack ≡ []) }
        ensures room { IfOk result (λ stack. room stack ≡ made_room kind min_capacity) }
        ensures limit { IfOk result (λ stack. limit stack ≡ made_limit kind min_capacity) }
        ensures holds { OnOk result (CanHold kind min_capacity) }
        ensures succeeds { TakesNoMemory kind min_capacity → IsOk result }
        ensures with_memory { CanHold kind min_capacity → has_memory min_capacity → IsOk result };

    /// How many items fit: the smaller of room and limit.
    fn capacity(&self) -> usize
        ensures value { result ≡ stack_capacity (room self.now) (limit self.now) }
        ensures within { length (items self.now) ≤ result };

    /// The limit, if there is one.
    fn max_capacity(&self) -> Option<usize>
        ensures value { result ≡ limit self.now }
        ensures of_kind { IsOfKind kind (room self.now) (limit self.now) };

    /// Changes the room so that there is place for `min_capacity` items, and for those that are
    /// there.
    ///
    /// `BeyondMaxCapacity` exactly where the limit is below `min_capacity`; else `AllocError` where
    /// memory is refused, which it isn't where memory is there for the new room. Neither changes the
    /// stack. Where the room stays the same, no memory is taken; else a stack on the heap may move
    /// each item once.
    fn reallocate_min_capacity(&mut self, min_capacity: usize) -> Result<(), ReallocationError>
        ensures items { items self.new ≡ items self.old }
        ensures limit { limit self.new ≡ limit self.old }
        ensures room { OnOk result (room self.new
            ≡ reallocated_room kind (room self.old) (length (items self.old)) min_capacity) }
        ensures refused { OnErr result (self.new ≡ self.old) }
        ensures within { OnOk result (IsWithin (limit self.old) min_capacity) }
        ensures beyond { (result ≡ Err ReallocationError.BeyondMaxCapacity)
            ↔ IsBeyond (limit self.old) min_capacity }
        ensures succeeds { IsWithin (limit self.old) min_capacity
            → reallocated_room kind (room self.old) (length (items self.old)) min_capacity
            ≡ room self.old
            → IsOk result }
        ensures with_memory { IsWithin (limit self.old) min_capacity
            → has_memory (reallocated_room kind
            (room self.old) (length (items self.old)) min_capacity)
            → IsOk result };

    /// Pushes `t`, and gives its index and the item. It takes no memory, and has no refusal.
    ///
    /// There must be a place: a caller that is not told of one tests `len() < capacity()` before.
    /// What is written through the reference stands on the stack after the other items.
    fn push_reserved(&mut self, t: T) -> (NonZeroUsize, &mut T)
        requires { HasPlace (room self.old) (limit self.old) (length (items self.old)) }
        ensures index { non_zero_usize_get result.0 ≡ length (items self.old) + 1 }
        ensures value { result.1.now ≡ t }
        ensures* writes_back { sem 𝓛 (Lends Self.row T.row self.entry result.1
            (λ w. with_items self.old (items self.old ++ w ∷ []))) };

    /// The item at `inx`, for writing; None exactly past the length.
    ///
    /// What is written stands at `inx`; no other item changes, nor room nor limit.
    fn get_mut(&mut self, inx: NonZeroUsize) -> Option<&mut T>
        ensures value { option_copied_mut result
            ≡ slice_get (items self.old) (non_zero_usize_get inx - 1) }
        ensures* writes_back { sem 𝓛 (LendsIf Self.row T.row self.entry result
            (λ w. with_items self.old
            (slice_set (items self.old) (non_zero_usize_get inx - 1) w)) self.old) };

    /// Takes the item of the greatest index away; None exactly where there is none.
    fn pop(&mut self) -> Option<T>
        ensures value { result ≡ slice_get (items self.old) (length (items self.old) - 1) }
        ensures items { self.new
            ≡ with_items self.old (take (length (items self.old) - 1) (items self.old)) };

    /// Drops all items. Room and limit stay.
    fn clear(&mut self)
    where
        T: Drop,
        ensures { self.new ≡ with_items self.old [] };

    /// The items, that of index 1 first.
    fn as_slice(&self) -> &[T]
        ensures { result.now ≡ items self.now };

    /// The items, that of index 1 first, for writing.
    ///
    /// What is written stands at the same places; length, room and limit stay.
    fn as_mut_slice(&mut self) -> &mut [T]
        ensures value { result.now ≡ items self.old }
        ensures* writes_back { sem 𝓛 (Lends Self.row (Array T.row 0) self.entry result
            (λ ws. with_items self.old (refill (length (items self.old)) (items self.old) ws))) };

    // `with_items` puts in the items, and leaves room and limit
    ghost items_with_items: { (stack : Self) (xs : List T) → items (with_items stack xs) ≡ xs };

    ghost room_with_items: { (stack : Self) (xs : List T)
        → room (with_items stack xs) ≡ room stack };

    ghost limit_with_items: { (stack : Self) (xs : List T)
        → limit (with_items stack xs) ≡ limit stack };

    // items that were there change nothing, and of two changes the last counts
    ghost with_items_same: { (stack : Self) → with_items stack (items stack) ≡ stack };

    ghost with_items_twice: { (stack : Self) (xs ys : List T)
        → with_items (with_items stack xs) ys ≡ with_items stack ys };

    /// How many items there are.
    final fn len(&self) -> usize
        ensures { result ≡ length (items self.now) }
    {
        self.as_slice().len()
    }

    /// Whether there is no item.
    final fn is_empty(&self) -> bool
        ensures { result ≡ (length (items self.now) == 0) }
    {
        self.len() == 0
    }

    /// The item at `inx`; None exactly past the length.
    final fn get(&self, inx: NonZeroUsize) -> Option<&T>
        ensures { option_copied result ≡ slice_get (items self.now) (non_zero_usize_get inx - 1) }
    {
        self.as_slice().get(inx.get() - 1)
    }

    /// Pushes `t` where the capacity has a place for it, and gives its index. It takes no memory.
    ///
    /// Refused exactly where the length is the capacity; then the stack is unchanged, and `t` is
    /// dropped.
    final fn push_within_capacity(&mut self, t: T) -> Result<NonZeroUsize, NotWithinCapacityError>
    where
        T: Drop,
        ensures variant { IsOk result
            ↔ HasPlace (room self.old) (limit self.old) (length (items self.old)) }
        ensures index { IfOk result (λ inx. non_zero_usize_get inx ≡ length (items self.old) + 1) }
        ensures pushed { OnOk result (self.new ≡ with_items self.old (items self.old ++ t ∷ [])) }
        ensures refused { OnErr result (self.new ≡ self.old) }
    {
        if self.len() >= self.capacity() {
            return Err(NotWithinCapacityError);
        }
        let (inx, _item) = self.push_reserved(t);
        Ok(inx)
    }

    /// Pushes `t`, and gives its index. A full stack grows first, to 4 places or to twice its
    /// capacity, as far as the limit allows and there are numbers.
    ///
    /// `BeyondMaxCapacity` exactly where the stack is full and its limit is reached; else
    /// `AllocError` where it is full and memory is refused, or there is no greater number. Then the
    /// stack is unchanged, and `t` is dropped. Where the stack isn't full, no memory is taken; a full
    /// one grows wherever limit, numbers and memory allow it, and may move each item once.
    final fn push_reallocating(&mut self, t: T) -> Result<NonZeroUsize, ReallocationError>
    where
        T: Drop,
        ensures index { IfOk result (λ inx. non_zero_usize_get inx ≡ length (items self.old) + 1) }
        ensures items { OnOk result (items self.new ≡ items self.old ++ t ∷ []) }
        ensures room { OnOk result (room self.new
            ≡ room_for_one_more (room self.old) (limit self.old) (length (items self.old))) }
        ensures limit { limit self.new ≡ limit self.old }
        ensures fits { OnOk result
            (length (items self.new) ≤ stack_capacity (room self.new) (limit self.new)) }
        ensures refused { OnErr result (self.new ≡ self.old) }
        ensures had_place { HasPlace (room self.old) (limit self.old) (length (items self.old))
            → IsOk result × (self.new ≡ with_items self.old (items self.old ++ t ∷ [])) }
        ensures beyond { (result ≡ Err ReallocationError.BeyondMaxCapacity)
            ↔ IsFullAtLimit (stack_capacity (room self.old) (limit self.old))
            (limit self.old) (length (items self.old)) }
        ensures with_memory { CanGrow has_memory (stack_capacity (room self.old) (limit self.old))
            (limit self.old) most_places → IsOk result }
    {
        grow_if_full(self)?;
        let (inx, _item) = self.push_reserved(t);
        Ok(inx)
    }

    /// As [`Self::push_reallocating`].
    final fn push(&mut self, t: T) -> Result<NonZeroUsize, ReallocationError>
    where
        T: Drop,
        ensures index { IfOk result (λ inx. non_zero_usize_get inx ≡ length (items self.old) + 1) }
        ensures items { OnOk result (items self.new ≡ items self.old ++ t ∷ []) }
        ensures room { OnOk result (room self.new
            ≡ room_for_one_more (room self.old) (limit self.old) (length (items self.old))) }
        ensures limit { limit self.new ≡ limit self.old }
        ensures fits { OnOk result
            (length (items self.new) ≤ stack_capacity (room self.new) (limit self.new)) }
        ensures refused { OnErr result (self.new ≡ self.old) }
        ensures had_place { HasPlace (room self.old) (limit self.old) (length (items self.old))
            → IsOk result × (self.new ≡ with_items self.old (items self.old ++ t ∷ [])) }
        ensures beyond { (result ≡ Err ReallocationError.BeyondMaxCapacity)
            ↔ IsFullAtLimit (stack_capacity (room self.old) (limit self.old))
            (limit self.old) (length (items self.old)) }
        ensures with_memory { CanGrow has_memory (stack_capacity (room self.old) (limit self.old))
            (limit self.old) most_places → IsOk result }
    {
        self.push_reallocating(t)
    }

    /// Tells whether two indices name two items.
    ///
    /// `IndexOutOfBounds` where either is past the length, else `OverlappingIndices` where they are
    /// equal.
    final fn check_disjoint(
        &self,
        first: NonZeroUsize,
        second: NonZeroUsize,
    ) -> Result<(), GetDisjointMutError>
        ensures { DisjointAnswer (length (items self.now))
            (non_zero_usize_get first) (non_zero_usize_get second) result }
    {
        let len = self.len();
        if first.get() > len || second.get() > len {
            return Err(GetDisjointMutError::IndexOutOfBounds);
        }
        if first.get() == second.get() {
            return Err(GetDisjointMutError::OverlappingIndices);
        }
        Ok(())
    }

    /// Calls `f` at the items of two indices, and gives its result; what it writes stays there.
    ///
    /// Refused as [`Self::check_disjoint`] is; then `f` isn't called, and the stack is unchanged.
    final fn with_disjoint_mut<R, F: FnOnce(&mut T, &mut T) -> R>(
        &mut self,
        first: NonZeroUsize,
        second: NonZeroUsize,
        f: F,
    ) -> Result<R, GetDisjointMutError>
        requires { non_zero_usize_get first ≢ non_zero_usize_get second → MayWork F.FnOnce f
            (slice_get (items self.old) (non_zero_usize_get first - 1))
            (slice_get (items self.old) (non_zero_usize_get second - 1)) }
        ensures variant { DisjointAnswer (length (items self.old))
            (non_zero_usize_get first) (non_zero_usize_get second) result }
        ensures refused { OnErr result (self.new ≡ self.old) }
        ensures items { IfOk result (λ r. Worked F.FnOnce f
            (slice_get (items self.old) (non_zero_usize_get first - 1))
            (slice_get (items self.old) (non_zero_usize_get second - 1))
            r (λ x y. items self.new ≡ set_both (items self.old)
            (non_zero_usize_get first - 1) (non_zero_usize_get second - 1) x y)) }
        ensures others { self.new ≡ with_items self.old (items self.new) }
    {
        self.check_disjoint(first, second)?;
        let all = self.as_mut_slice();
        let (a, b) = pair_of(all, first.get() - 1, second.get() - 1);
        Ok(f(a, b))
    }
}
