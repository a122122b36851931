//! Entries by name: one that is entered, texts, and strict sessions, answered as by a store of names.

ghost use Rattle.std.specs.Prelude.{◌≡◌, ◌+◌, ◌-◌, ℕ, List, true, false, Some, None, Result, is_ok, IfOk, IfSome, OnErr, length, slice_get, Contains};
ghost use Rattle.std.specs.List.{list_all, list_any};
ghost use Rattle.triple_arena_session.specs.Lines.{lines_of};
ghost use Rattle.triple_arena_session.specs.Forms.{HasForm};
ghost use Rattle.triple_arena_session.specs.Command.{Command};
ghost use Rattle.triple_arena_session.specs.NameStore.{next_name, IsStoreStep};
ghost use Rattle.triple_arena_session.specs.Runs.{IsRun};
ghost use Rattle.triple_arena_session.specs.StoreRuns.{is_named, is_no_memory, replies_without_compactions, replies_with_memory, without_compactions};
ghost use Rattle.triple_arena_session.specs.Kind.TheVariants.{Heap};
ghost use Rattle.triple_arena_session.specs.StrictStore.{tells_exhausted, StrictStore, IsStrictStoreStep};
ghost use Rattle.triple_arena_session.specs.SessionState.{SessionState};
ghost use Rattle.triple_arena_session.specs.Shown.{shown, IsSound};
ghost use Rattle.triple_arena_session.specs.KindRun.{greatest, IsStepOfKind};
ghost use Rattle.triple_arena_session.specs.TextRun.{StopsAtLine};
ghost use Rattle.triple_arena_session.specs.Command.TheVariants.{Insert};
ghost use Rattle.triple_arena_session.specs.Reply.TheVariants.{Given};
ghost use Rattle.triple_arena_ptr.specs.Numbers.{counting_to};
ghost use Rattle.triple_arena_stack.specs.StackKind.StackKind.{heap};
ghost use Rattle.triple_arena_session.specs.StrictSession.{IsStrictSessionStep, strictly_shown};
ghost use Rattle.triple_arena_session.specs.StrictText.{IsStrictStoreText, IsWholeTextRun};
ghost use Rattle.triple_arena_session.specs.StoreText.{first_store, first_strict_store};

use std::alloc::Global;
use std::io::Read;
use triple_arena_base::AllocError;
use triple_arena_ptr::P0;
use triple_arena_session::laws::{forms_are_exact, lines_are_exact, names_are_new};
use triple_arena_session::{
    Command, Reply, Session, StrictSession, TextError, run_text, run_text_strict,
};

/// Enters a number that links to nothing in a sound session, and gives its name, which is the next
/// one and has the number then; all other rows stay. `None` where no index is free or memory was
/// refused, of which no clause says more; then what the session shows stays. It is sound.
pub fn enter(session: &mut Session<P0, u64>, number: u64) -> Option<usize>
    requires sound { IsSound session.old }
    ensures next { IfSome result (λ name. name ≡ next_name (shown session.old)) }
    ensures entered { IfSome result (λ name. IsStoreStep
        (shown session.old) (Insert number None) (Given name false) (shown session.new)) }
    ensures later { IfSome result (λ name. next_name (shown session.new) ≡ name + 1) }
    ensures stays { result ≡ None → shown session.new ≡ shown session.old }
    ensures sound { IsSound session.new }
{
    names_are_new::<u64>();
    match session.step(Command::Insert(number, None)) {
        Reply::Given(name, false) => Some(name),
        _ => None,
    }
}

/// Runs a text in a sound session up to its first malformed line, and gives the number of this
/// line, which has no line break and the form of no command; the lines before it were answered. The
/// session is sound then, and another text may follow. `None` where it ended otherwise, of which no
/// clause says more.
pub fn run_to_malformed(
    session: &mut Session<P0, u64>,
    alloc: Global,
    text: &[u8],
    output: &mut Vec<u8>,
) -> Option<usize>
    requires sound { IsSound session.old }
    ensures ran { IfSome result (λ number. StopsAtLine (IsStepOfKind Heap) number
        (lines_of text.now) session.old session.new (Some output.old.items) (Some output.new.items)) }
    ensures malformed { IfSome result (λ number. (line : List ℕ)
        × (slice_get (lines_of text.now) (number - 1) ≡ Some line) × (¬ (Contains line 10))
        × ((command : Command ℕ) → ¬ (HasForm line command))) }
    ensures sound { IfSome result (λ number. IsSound session.new) }
{
    lines_are_exact();
    forms_are_exact();
    let mut input = text;
    match run_text(session, alloc, &mut input, output) {
        Err(TextError::Malformed(line)) => Some(line),
        _ => None,
    }
}

/// The replies to commands in a new strict session over the heap, one to each command. They are those of
/// a new strict store of names. Refused only where there is no memory for the list of replies. Where all
/// are named commands, and none was refused for want of memory or of a raise, compactions change no
/// other reply.
pub fn strict_answers(
    alloc: Global,
    commands: &[Command<u64>],
) -> Result<Vec<Reply<u64>>, AllocError>
    ensures whole { IfOk result (λ replies. length replies.items ≡ length commands.now) }
    ensures store { IfOk result (λ replies. (after : StrictStore ℕ)
        × IsRun IsStrictStoreStep (first_strict_store Heap) commands.now replies.items after) }
    ensures unseen { IfOk result (λ replies.
        list_all is_named commands.now ≡ true → list_any is_no_memory replies.items ≡ false
        → list_any tells_exhausted replies.items ≡ false
        → replies_without_compactions commands.now replies.items
        ≡ replies_with_memory (first_store Heap) (without_compactions commands.now)) }
{
    let mut session: StrictSession<P0, u64> = StrictSession::with_new_arena(alloc);
    session.run(commands)
}

/// Runs a text in a strict session, as `run_text_strict` does, and tells whether it ran to its end. The
/// session is sound after it, however it ended, and another text may follow.
pub fn runs_to_its_end(
    session: &mut StrictSession<P0, u64>,
    alloc: Global,
    text: &[u8],
    output: &mut Vec<u8>,
) -> bool
    ensures ran { (outcome : Result (Unit {0}) TextError) × (result ≡ is_ok outcome)
        × IsWholeTextRun (IsStrictSessionStep heap (λ _. ⊥) (counting_to greatest)) (Some text.now) outcome
        session.old session.new (Some output.old.items) (Some output.new.items) }
    ensures sound { IsSound session.new }
{
    let mut input = text;
    run_text_strict(session, alloc, &mut input, output).is_ok()
}

/// Runs what a reader gives in a strict session, known or not, and then these commands, however that ended.
///
/// So far as the reader tells its bytes, the lines are answered as by the strict store of names that the
/// session shows; the commands are, by the store that it shows in between, and it shows what they made of
/// that. Refused only where there is no memory for the list of replies; then no command has run.
pub fn answers_after_a_text<R: Read>(
    session: &mut StrictSession<P0, u64>,
    alloc: Global,
    input: &mut R,
    output: &mut Vec<u8>,
    commands: &[Command<u64>],
) -> Result<Vec<Reply<u64>>, AllocError>
    ensures store { (outcome : Result (Unit {0}) TextError) × (between : SessionState ℕ) × IsSound between
        × IsStrictStoreText
        (strictly_shown greatest session.old) (strictly_shown greatest between)
        (R.remaining input.old) outcome (Some output.old.items) (Some output.new.items)
        × IfOk result (λ replies. IsRun IsStrictStoreStep
        (strictly_shown greatest between) commands.now replies.items
        (strictly_shown greatest session.new))
        × OnErr result (session.new ≡ between) }
    ensures sound { IsSound session.new }
{
    let _outcome = run_text_strict(session, alloc, input, output);
    session.run(commands)
}
