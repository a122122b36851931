//! What compaction leaves unseen.

ghost use Rattle.std.specs.Prelude.{◌≡◌, ◌++◌, ◌⊎◌, ℕ, List, true, false, IfOk, OnErr, length, take};
ghost use Rattle.std.specs.List.{list_all, list_any};
ghost use Rattle.triple_arena_ptr.specs.Numbers.{counting_to};
ghost use Rattle.triple_arena_stack.specs.StackKind.StackKind.{heap};
ghost use Rattle.triple_arena_session.specs.Reply.{Reply};
ghost use Rattle.triple_arena_session.specs.Kind.TheVariants.{Heap};
ghost use Rattle.triple_arena_session.specs.KindRun.{greatest, first_of_kind, IsStepOfKind};
ghost use Rattle.triple_arena_session.specs.SessionState.{SessionState};
ghost use Rattle.triple_arena_session.specs.StrictSession.{IsStrictSessionStep};
ghost use Rattle.triple_arena_session.specs.Runs.{IsRun, RunsToWrap, TellsOfNoWrap, EndsInWrap};
ghost use Rattle.triple_arena_session.specs.StoreRuns.{is_named, is_no_memory, replies_without_compactions, replies_with_memory, without_compactions};
ghost use Rattle.triple_arena_session.specs.StrictStore.{tells_exhausted};
ghost use Rattle.triple_arena_session.specs.Shown.{shown, IsSound};
ghost use Rattle.triple_arena_session.specs.ElevenCommands.{eleven_commands, nine_replies};

use crate::first_session::answers;
use std::alloc::Global;
use triple_arena_base::AllocError;
use triple_arena_ptr::P0;
use triple_arena_session::laws::{
    compaction_is_unseen, eleven_commands_answered, strict_compaction_is_unseen,
};
use triple_arena_session::{Command, Reply, Session, StrictSession};

/// Runs commands in a sound session, as its `run` does, and gives their replies: one to each
/// command, or up to the first that tells of a wrap. Refused only where there is no memory for the
/// list of replies; then no command has run.
///
/// At any time of the run, as long as all commands up to then are named ones and none was refused
/// for want of memory, compactions changed no other reply.
pub fn unseen_at_any_time(
    session: &mut Session<P0, u64>,
    commands: &[Command<u64>],
) -> Result<Vec<Reply<u64>>, AllocError>
    requires sound { IsSound session.old }
    ensures ran { IfOk result (λ replies.
        RunsToWrap (IsStepOfKind Heap) session.old commands.now replies.items session.new) }
    ensures refused { OnErr result (session.new ≡ session.old) }
    ensures sound { IfOk result (λ replies. TellsOfNoWrap replies.items → IsSound session.new) }
    ensures whole { IfOk result (λ replies.
        (TellsOfNoWrap replies.items × (length replies.items ≡ length commands.now))
        ⊎ EndsInWrap replies.items) }
    ensures unseen { IfOk result (λ replies. (count : ℕ)
        → let ran = take count (take (length replies.items) commands.now) in
        let told = take count replies.items in
        list_all is_named ran ≡ true → list_any is_no_memory told ≡ false
        → replies_without_compactions ran told ≡ replies_with_memory (shown session.old) (without_compactions ran)) }
{
    compaction_is_unseen::<u64>();
    session.run(commands)
}

/// Runs commands in a strict session and then others, and gives the replies to both. Refused only
/// where there is no memory for a list of replies; then none of them has run, or the first alone have.
///
/// Two runs are as one: where all are named commands, and none was refused for want of memory or of
/// a raise, compactions among the first commands change no reply to the others either.
pub fn answers_in_two_runs(
    session: &mut StrictSession<P0, u64>,
    first: &[Command<u64>],
    others: &[Command<u64>],
) -> Result<(Vec<Reply<u64>>, Vec<Reply<u64>>), AllocError>
    ensures ran { IfOk result (λ told.
        IsRun (IsStrictSessionStep heap (λ _. ⊥) (counting_to greatest)) session.old
        (first.now ++ others.now) (told.0.items ++ told.1.items) session.new) }
    ensures refused { OnErr result ((session.new ≡ session.old)
        ⊎ ((replies : List (Reply ℕ)) × IsRun (IsStrictSessionStep heap (λ _. ⊥) (counting_to greatest))
        session.old first.now replies session.new)) }
    ensures whole { IfOk result (λ told. (length told.0.items ≡ length first.now)
        × (length told.1.items ≡ length others.now)) }
    ensures unseen { IfOk result (λ told.
        let all = first.now ++ others.now in
        let replies = told.0.items ++ told.1.items in
        list_all is_named all ≡ true → list_any is_no_memory replies ≡ false
        → list_any tells_exhausted replies ≡ false
        → replies_without_compactions all replies ≡ replies_with_memory (shown session.old) (without_compactions all)) }
{
    strict_compaction_is_unseen::<u64>();
    let told = session.run(first)?;
    let more = session.run(others)?;
    Ok((told, more))
}

/// The replies to the eleven commands of the law in a new session over the heap. Two of these
/// compact, the first in vain. Where all were answered, and none was refused memory, the replies to
/// the other nine are those that a store of names gives without the two. Refused only where there
/// is no memory for the list of replies.
pub fn answers_to_eleven(alloc: Global) -> Result<Vec<Reply<u64>>, AllocError>
    ensures ran { IfOk result (λ replies. (after : SessionState ℕ)
        × RunsToWrap (IsStepOfKind Heap) (first_of_kind Heap) eleven_commands replies.items after) }
    ensures nine { IfOk result (λ replies.
        length replies.items ≡ 11 → list_any is_no_memory replies.items ≡ false
        → replies_without_compactions eleven_commands replies.items ≡ nine_replies) }
{
    let commands = [
        Command::Insert(1, None),
        Command::Insert(2, Some(1)),
        Command::Remove(1),
        Command::Insert(3, Some(2)),
        Command::Compact,
        Command::Set(2, 2, None),
        Command::Compact,
        Command::Get(3),
        Command::Get(1),
        Command::InsertWithin(4, Some(3)),
        Command::Len,
    ];
    eleven_commands_answered();
    answers(alloc, &commands)
}
