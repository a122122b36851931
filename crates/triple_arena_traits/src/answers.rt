//! The answers of calls that may wrap the generation counter.

ghost use Rattle.std.specs.Prelude.{◌≡◌, Some};
ghost use Rattle.triple_arena_traits.specs.Ending.{told, told_of};

use triple_arena_base::{InvalidationOption, InvalidationResult};

/// The answer with a value, by whether the counter wrapped.
pub fn told<A>(wrapped: bool, x: A) -> InvalidationOption<A>
    ensures { result ≡ told wrapped x }
{
    if wrapped {
        InvalidationOption::GenerationOverflow(x)
    } else {
        InvalidationOption::Success(x)
    }
}

/// The answer on a valid pointer, by whether the counter wrapped.
pub fn answer_on_valid<A>(wrapped: bool, x: A) -> InvalidationResult<A>
    ensures { result ≡ told_of wrapped (Some x) }
{
    if wrapped {
        InvalidationResult::GenerationOverflow(x)
    } else {
        InvalidationResult::Success(x)
    }
}
