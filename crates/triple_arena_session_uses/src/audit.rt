//! An auditor of the pointers that a run gives.

ghost use Rattle.std.specs.Prelude.{◌≡◌, IfOk, OnErr, length, take};
ghost use Rattle.triple_arena.specs.ArenaState.{arena_len};
ghost use Rattle.triple_arena_session.specs.Runs.{RunsToWrap};
ghost use Rattle.triple_arena_session.specs.Kind.TheVariants.{Heap};
ghost use Rattle.triple_arena_session.specs.KindRun.{IsStepOfKind};
ghost use Rattle.triple_arena_session.specs.SessionCalls.{GivesOnceToWrap};

use crate::HeapSlots;
use triple_arena_base::AllocError;
use triple_arena_ptr::P0;
use triple_arena_session::laws::session_runs_keep_histories;
use triple_arena_session::{Command, Reply, Session};

/// Runs commands in a session without an entry, whatever it did before, and gives their replies. The
/// pointers that any front of the commands gave, whose replies tell of no wrap, are all different. Refused
/// only where there is no memory for the list of replies; then no command has run.
pub fn audited(
    session: &mut Session<P0, u64>,
    commands: &[Command<u64>],
) -> Result<Vec<Reply<u64>>, AllocError>
    requires empty { arena_len session.old.arena ≡ 0 }
    ensures ran { IfOk result (λ replies.
        RunsToWrap (IsStepOfKind Heap) session.old commands.now replies.items session.new) }
    ensures refused { OnErr result (session.new ≡ session.old) }
    ensures once { IfOk result (λ replies. GivesOnceToWrap (IsStepOfKind Heap)
        session.old (take (length replies.items) commands.now) replies.items) }
{
    session_runs_keep_histories::<P0, u64, HeapSlots>();
    session.run(commands)
}
