//! What is read of a value that holds pointers.

ghost use Rattle.triple_arena_base.specs.Readings.{FollowsNames};
ghost use Rattle.triple_arena_ptr.specs.Pointers.{Pointer};

use triple_arena_base::Recast;
use triple_arena_ptr::Ptr;

/// A reading of values that hold pointers: what clauses say of a value, each pointer by its two numbers.
/// It follows names, so that where a compaction renames what a value holds, what is read of it is renamed
/// ([`readings_follow`](crate::renaming_laws::readings_follow)).
///
/// An impl has no code. What `follows` asks for is made of `itself_follows`, `option_follows`,
/// `vec_follows` and `both_follows` of `ReadingLaws`, as the laws of [`Recast`] are of theirs.
pub trait Reading<P: Ptr>: Recast<P> {
    // what is read of a value, and of what type that is
    ghost Read: { Type 0 };

    ghost read: { Self → Read };

    // what was read, with each pointer renamed
    ghost renamed: { (Pointer → Pointer) → Read → Read };

    // where other pointers are put in a value, whose numbers are those before, each renamed, what is read
    // of it is so renamed
    ghost follows: { FollowsNames P.numbers Self.held Self.refill read renamed };
}
