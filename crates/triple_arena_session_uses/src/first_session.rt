//! A first session: commands on entries by name, answered as by a store of names.

ghost use Rattle.std.specs.Prelude.{◌≡◌, ◌⊎◌, ℕ, true, false, IfOk, take, length};
ghost use Rattle.std.specs.List.{list_all, list_any};
ghost use Rattle.triple_arena_session.specs.Kind.TheVariants.{Heap};
ghost use Rattle.triple_arena_session.specs.KindRun.{first_of_kind, IsStepOfKind};
ghost use Rattle.triple_arena_session.specs.Runs.{RunsToWrap, TellsOfNoWrap, EndsInWrap};
ghost use Rattle.triple_arena_session.specs.SessionState.{SessionState};
ghost use Rattle.triple_arena_session.specs.StoreRuns.{AnswersAsStore, is_named, is_no_memory, replies_without_compactions, replies_with_memory, without_compactions};
ghost use Rattle.triple_arena_session.specs.StoreText.{first_store};

use std::alloc::Global;
use triple_arena_session::{AllocError, Command, P0, Reply, Session};

/// The replies to commands in a new session over the heap: one to each command, or up to the first
/// that tells of a wrap. They are those of a new store of names. Refused only where there is no
/// memory for the list of replies. Where the commands that ran are named ones, and no
/// memory was refused, compactions change no other reply.
pub fn answers(alloc: Global, commands: &[Command<u64>]) -> Result<Vec<Reply<u64>>, AllocError>
    ensures ran { IfOk result (λ replies. (after : SessionState ℕ)
        × RunsToWrap (IsStepOfKind Heap) (first_of_kind Heap) commands.now replies.items after) }
    ensures whole { IfOk result (λ replies.
        (TellsOfNoWrap replies.items × (length replies.items ≡ length commands.now))
        ⊎ EndsInWrap replies.items) }
    ensures store { IfOk result (λ replies.
        AnswersAsStore (first_store Heap) (take (length replies.items) commands.now) replies.items) }
    ensures unseen { IfOk result (λ replies.
        let ran = take (length replies.items) commands.now in
        list_all is_named ran ≡ true → list_any is_no_memory replies.items ≡ false
        → replies_without_compactions ran replies.items
        ≡ replies_with_memory (first_store Heap) (without_compactions ran)) }
{
    let mut session: Session<P0, u64> = Session::with_new_arena(alloc);
    session.run(commands)
}
