//! What a session shows at any time of a run.

ghost use Rattle.std.specs.Prelude.{◌≡◌, ◌⊎◌, ℕ, IfOk, OnErr, length, take};
ghost use Rattle.triple_arena_ptr.specs.Numbers.{counting_to};
ghost use Rattle.triple_arena_stack.specs.StackKind.StackKind.{heap};
ghost use Rattle.triple_arena_session.specs.Runs.{IsRun, RunsToWrap, TellsOfNoWrap, EndsInWrap};
ghost use Rattle.triple_arena_session.specs.NameStore.{IsStoreStep};
ghost use Rattle.triple_arena_session.specs.StrictStore.{IsStrictStoreStep};
ghost use Rattle.triple_arena_session.specs.Kind.TheVariants.{Heap};
ghost use Rattle.triple_arena_session.specs.KindRun.{greatest, IsStepOfKind};
ghost use Rattle.triple_arena_session.specs.SessionState.{SessionState};
ghost use Rattle.triple_arena_session.specs.Shown.{shown, IsSound};
ghost use Rattle.triple_arena_session.specs.StrictSession.{IsStrictSessionStep, strictly_shown};

use crate::HeapSlots;
use triple_arena_base::AllocError;
use triple_arena_ptr::P0;
use triple_arena_session::laws::{session_runs_as_store, strict_session_runs_as_store};
use triple_arena_session::{Command, Reply, Session, StrictSession};

/// Runs commands in a sound session, as its `run` does, and gives their replies: one to each
/// command, or up to the first that tells of a wrap. Refused only where there is no memory for the
/// list of replies; then no command has run.
///
/// At any time of the run, as long as no reply told of a wrap, the session was sound, and showed
/// what the commands up to then had made of the store that it showed before.
pub fn shown_at_any_time(
    session: &mut Session<P0, u64>,
    commands: &[Command<u64>],
) -> Result<Vec<Reply<u64>>, AllocError>
    requires sound { IsSound session.old }
    ensures ran { IfOk result (λ replies.
        RunsToWrap (IsStepOfKind Heap) session.old commands.now replies.items session.new) }
    ensures refused { OnErr result (session.new ≡ session.old) }
    ensures sound { IfOk result (λ replies. TellsOfNoWrap replies.items → IsSound session.new) }
    ensures whole { IfOk result (λ replies.
        (TellsOfNoWrap replies.items × (length replies.items ≡ length commands.now))
        ⊎ EndsInWrap replies.items) }
    ensures between { IfOk result (λ replies. (count : ℕ) → TellsOfNoWrap (take count replies.items)
        → let ran = take count (take (length replies.items) commands.now) in
        let told = take count replies.items in
        (between : SessionState ℕ) × IsRun (IsStepOfKind Heap) session.old ran told between
        × IsRun IsStoreStep (shown session.old) ran told (shown between) × IsSound between) }
{
    session_runs_as_store::<P0, u64, HeapSlots>();
    session.run(commands)
}

/// Runs commands in a strict session, as its `run` does, and gives their replies. Refused only
/// where there is no memory for the list of replies; then no command has run.
///
/// At any time of the run the session was sound, and showed what the commands up to then had made
/// of the strict store that it showed before.
pub fn strictly_shown_at_any_time(
    session: &mut StrictSession<P0, u64>,
    commands: &[Command<u64>],
) -> Result<Vec<Reply<u64>>, AllocError>
    ensures ran { IfOk result (λ replies.
        IsRun (IsStrictSessionStep heap (λ _. ⊥) (counting_to greatest))
        session.old commands.now replies.items session.new) }
    ensures refused { OnErr result (session.new ≡ session.old) }
    ensures between { IfOk result (λ replies. (count : ℕ)
        → let ran = take count commands.now in
        let told = take count replies.items in
        (between : SessionState ℕ)
        × IsRun (IsStrictSessionStep heap (λ _. ⊥) (counting_to greatest)) session.old ran told between
        × IsRun IsStrictStoreStep
        (strictly_shown greatest session.old) ran told (strictly_shown greatest between)
        × IsSound between) }
{
    strict_session_runs_as_store::<P0, u64, HeapSlots>();
    session.run(commands)
}
