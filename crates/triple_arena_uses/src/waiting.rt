//! Values that wait where an arena refuses them.

ghost use Rattle.std.specs.Prelude.{◌≡◌, ◌<◌, ◌∷◌, ◌++◌, [], Ok, None, Some, IsSome, IsOkAnd, IfOk, IfErr, IfSome};
ghost use Rattle.triple_arena.specs.Entries.{look_up, entry_count};

use std::alloc::AllocFailed;
use triple_arena::{ArenaInsertTrait, ArenaTrait};
use triple_arena_ptr::Ptr;

/// Inserts a value, or where that is refused puts it behind the others that wait; then there is no
/// pointer, and the arena is unchanged. Where the arena has a place, the value is inserted.
///
/// Refused where memory for those that wait is; then the value comes back, the arena is unchanged,
/// and the same values wait.
pub fn insert_or_wait<P: Ptr, T, A: ArenaInsertTrait<P, T>>(
    arena: &mut A,
    waiting: &mut Vec<T>,
    value: T,
) -> Result<Option<P>, AllocFailed<T>>
    ensures found { IfOk result (λ given. IfSome given
        (λ p. look_up (A.slots arena.new) (P.numbers p) ≡ Some value)) }
    ensures inserted { IfOk result (λ given. IfSome given (λ _.
        (arena.new ≡ A.inserted (A.grown arena.old) value) × (waiting.new ≡ waiting.old))) }
    ensures waits { result ≡ Ok None
        → (waiting.new.items ≡ waiting.old.items ++ value ∷ []) × (arena.new ≡ arena.old) }
    ensures had_place { entry_count (A.slots arena.old) < A.capacity arena.old
        → IsOkAnd result IsSome }
    ensures refused { IfErr result (λ failed. (failed.value ≡ value)
        × (arena.new ≡ arena.old) × (waiting.new.items ≡ waiting.old.items)) }
{
    match arena.try_insert(value) {
        Ok(p) => Ok(Some(p)),
        Err(failed) => match waiting.push(failed.value) {
            Ok(()) => Ok(None),
            Err(no_memory) => Err(no_memory),
        },
    }
}
