//! An auditor of the pointers that a strict session gives.

ghost use Rattle.std.specs.Prelude.{◌≡◌, IfOk, OnErr, length};
ghost use Rattle.triple_arena_ptr.specs.Numbers.{counting_to};
ghost use Rattle.triple_arena_stack.specs.StackKind.StackKind.{heap};
ghost use Rattle.triple_arena.specs.Walks.{keys};
ghost use Rattle.triple_arena_session.specs.KindRun.{greatest};
ghost use Rattle.triple_arena_session.specs.SessionCalls.{GivesNew};
ghost use Rattle.triple_arena_session.specs.StrictSession.{IsStrictSessionStep};

use triple_arena_base::AllocError;
use triple_arena_ptr::P0;
use triple_arena_session::{Command, Reply, StrictSession};

/// Runs commands in a strict session, whatever it did before and whatever entries it has, and gives their
/// replies, one to each. The pointers of its entries, and those that the commands gave, are all different.
/// Refused only where there is no memory for the list of replies; then no command has run.
pub fn audited_strictly(
    session: &mut StrictSession<P0, u64>,
    commands: &[Command<u64>],
) -> Result<Vec<Reply<u64>>, AllocError>
    ensures whole { IfOk result (λ replies. length replies.items ≡ length commands.now) }
    ensures refused { OnErr result (session.new ≡ session.old) }
    ensures new { IfOk result (λ replies.
        GivesNew (IsStrictSessionStep heap (λ _. ⊥) (counting_to greatest))
        (keys session.old.arena.slots) session.old commands.now replies.items session.new) }
{
    session.run(commands)
}
