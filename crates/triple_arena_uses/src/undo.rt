//! Undo and redo: the last step goes from one stack to another.

ghost use Rattle.std.specs.Prelude.{◌≡◌, ◌-◌, ◌≤◌, ◌++◌, length, take, slice_get, option_to_list};
ghost use Rattle.triple_arena_stack.specs.Capacity.{stack_capacity, HasPlace};

use triple_arena_stack::NonZeroInxGenericStack;

/// Moves the last item of one stack onto another, where that has a place for it; else both stay as
/// they are. It takes no memory, and drops nothing.
pub fn move_last<T, S: NonZeroInxGenericStack<T>, U: NonZeroInxGenericStack<T>>(
    from: &mut S,
    to: &mut U,
)
    ensures taken { HasPlace (U.room to.old) (U.limit to.old) (length (U.items to.old))
        → from.new ≡ S.with_items from.old
        (take (length (S.items from.old) - 1) (S.items from.old)) }
    ensures pushed { HasPlace (U.room to.old) (U.limit to.old) (length (U.items to.old))
        → to.new ≡ U.with_items to.old (U.items to.old
        ++ option_to_list (slice_get (S.items from.old) (length (S.items from.old) - 1))) }
    ensures kept { stack_capacity (U.room to.old) (U.limit to.old) ≤ length (U.items to.old)
        → (from.new ≡ from.old) × (to.new ≡ to.old) }
{
    if to.len() < to.capacity() {
        if let Some(item) = from.pop() {
            to.push_reserved(item);
        }
    }
}
