//! How a full stack grows.
ghost use Rattle.std.specs.Prelude.{◌≡◌, ◌↔◌, ◌<◌, ◌^◌, length, IsOk, OnOk, OnErr};
ghost use Rattle.triple_arena_stack.specs.Capacity.{stack_capacity, most_places, next_capacity, room_for_one_more, HasPlace, IsFullAtLimit, CanGrow};

use crate::stack::NonZeroInxGenericStack;
use triple_arena_base::ReallocationError;

/// Makes room for one more item where the stack is full, and else does nothing.
///
/// Refused as [`NonZeroInxGenericStack::push_reallocating`] is; then the stack is unchanged. A
/// growth may move each item once.
pub fn grow_if_full<T, S: NonZeroInxGenericStack<T>>(stack: &mut S) -> Result<(), ReallocationError>
    ensures items { S.items stack.new ≡ S.items stack.old }
    ensures limit { S.limit stack.new ≡ S.limit stack.old }
    ensures room { OnOk result (S.room stack.new
        ≡ room_for_one_more (S.room stack.old) (S.limit stack.old) (length (S.items stack.old))) }
    ensures has_place { OnOk result
        (HasPlace (S.room stack.new) (S.limit stack.new) (length (S.items stack.new))) }
    ensures refused { OnErr result (stack.new ≡ stack.old) }
    ensures had_place { HasPlace (S.room stack.old) (S.limit stack.old) (length (S.items stack.old))
        → IsOk result × (stack.new ≡ stack.old) }
    ensures beyond { (result ≡ Err ReallocationError.BeyondMaxCapacity)
        ↔ IsFullAtLimit (stack_capacity (S.room stack.old) (S.limit stack.old))
        (S.limit stack.old) (length (S.items stack.old)) }
    ensures with_memory { CanGrow S.has_memory
        (stack_capacity (S.room stack.old) (S.limit stack.old))
        (S.limit stack.old) most_places → IsOk result }
{
    let capacity = stack.capacity();
    if stack.len() < capacity {
        return Ok(());
    }
    let limit = stack.max_capacity();
    if limit.is_some_and(|most| most <= capacity) {
        return Err(ReallocationError::BeyondMaxCapacity);
    }
    if capacity == usize::MAX {
        return Err(ReallocationError::AllocError);
    }
    stack.reallocate_min_capacity(grown_capacity(capacity, limit, usize::MAX))
}

/// The capacity that a full stack or arena grows to: twice the old one, and 4 from 0, but no more than its
/// limit, where there is one, and than the greatest capacity.
pub fn grown_capacity(capacity: usize, limit: Option<usize>, greatest: usize) -> usize
    ensures { result ≡ next_capacity capacity limit greatest }
{
    let next = if capacity == 0 {
        4
    } else {
        capacity.saturating_mul(2)
    };
    match limit {
        Some(most) => next.min(most).min(greatest),
        None => next.min(greatest),
    }
}
