//! The whole program, from its arguments and a text to a vector of bytes.

ghost use Rattle.std.specs.Prelude.{◌≡◌, [], IfSome, Some, Ok, false};
ghost use Rattle.triple_arena_session.specs.Program.{asked_mode};
ghost use Rattle.triple_arena_session.specs.Kind.TheVariants.{Heap};
ghost use Rattle.triple_arena_session.specs.StoreText.{IsAnsweredText, AnswersFreshly};

use std::alloc::Global;
use std::io;
use triple_arena_session::{Outcome, run_program};

/// What the program writes that its arguments ask to run over the heap: its text is answered as by a new
/// store of names, and each pointer is given once. `None` where it ended otherwise than well.
pub fn written_over_the_heap(
    args: io::Result<Vec<String>>,
    alloc: Global,
    text: &[u8],
) -> Option<Vec<u8>>
    requires heap { asked_mode args ≡ Ok (false, Heap) }
    ensures store { IfSome result (λ written.
        IsAnsweredText (AnswersFreshly Heap) (Some text.now) (Ok tt) (Some []) (Some written.items)) }
{
    let mut input = text;
    match run_program(args, alloc, &mut input, Vec::new(alloc)) {
        (Outcome::Ran(Ok(())), Some(written)) => Some(written),
        _ => None,
    }
}
