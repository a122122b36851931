//! A session of which nothing is known, as one whose counter has wrapped.

ghost use Rattle.std.specs.Prelude.{◌≢◌};
ghost use Rattle.triple_arena_stack.specs.StackKind.StackKind.{heap};
ghost use Rattle.triple_arena_session.specs.Kind.TheVariants.{Heap};
ghost use Rattle.triple_arena_session.specs.Reply.TheVariants.{Exhausted};
ghost use Rattle.triple_arena_session.specs.KindRun.{IsStepOfKind};
ghost use Rattle.triple_arena_session.specs.Shown.{IsArenaOver};

use crate::HeapSlots;
use triple_arena_ptr::P0;
use triple_arena_session::laws::session_steps_as_store;
use triple_arena_session::{Command, Reply, Session};

/// Runs a command in any session, sound or not, as its `step` does, and gives its reply. This may
/// tell of a wrap, and is never `Exhausted`.
///
/// Whatever the session was and the reply is, the arena is after it as every arena over the heap
/// is: well formed, with entries and slots within its capacity.
pub fn step_in_any(session: &mut Session<P0, u64>, command: Command<u64>) -> Reply<u64>
    ensures step { IsStepOfKind Heap session.old command result session.new }
    ensures never { result ≢ Exhausted }
    ensures arena { IsArenaOver heap session.new.arena }
{
    session_steps_as_store::<P0, u64, HeapSlots>();
    session.step(command)
}
