//! The run of a text in a strict session.

ghost use Rattle.std.specs.Prelude.{◌≡◌, true};
ghost use Rattle.std.specs.Io.Buffered.{writer_contents};
ghost use Rattle.triple_arena_session.specs.StrictSession.{IsStrictSessionStep, strictly_shown, StaysStrict};
ghost use Rattle.triple_arena_session.specs.StrictText.{IsWholeTextRun, IsWholeFlushedRun, IsStrictStoreText};

use crate::node::Node;
use crate::strict_session::StrictSession;
use crate::text::read_and_run;
use std::alloc::Global;
use std::io::{BufWriter, Read, Write};
use triple_arena::ArenaSlot;
use triple_arena_commands::{TextError, flush_after};
use triple_arena_ptr::Ptr;
use triple_arena_stack::NonZeroInxGenericStack;

/// Runs the commands of a text in a strict session, as `run_text` does in another. No reply tells of a
/// wrap, so none ends the run: where the outcome is `Ok`, all lines were answered.
///
/// The lines are answered as by the strict store of names that the session shows, and compactions change
/// no other line, as `StrictSession::run` says. It shows what the store became, where the writer failed by
/// the first lines. This is said of readers and writers that tell their bytes. Whatever they tell, the session
/// is sound after the run, however it ended (`sound` of `stays`): so one text may follow another. The pointers
/// of the entries begin a history (`begun` of `stays`), as `StrictSession::step` says.
pub fn run_text_strict<
    P: Ptr,
    S: NonZeroInxGenericStack<ArenaSlot<P, Node<u64, P>>>,
    R: Read,
    W: Write,
>(
    session: &mut StrictSession<P, u64, S>,
    alloc: Global,
    input: &mut R,
    output: &mut W,
) -> Result<(), TextError>
    ensures run { IsWholeTextRun (IsStrictSessionStep S.kind S.has_memory P.Gen.generations)
        (R.remaining input.old) result
        session.old session.new (W.contents output.old) (W.contents output.new) }
    ensures store { P.Gen.generations.counting ≡ true
        → IsStrictStoreText (strictly_shown P.Gen.generations.greatest session.old)
        (strictly_shown P.Gen.generations.greatest session.new)
        (R.remaining input.old) result (W.contents output.old) (W.contents output.new) }
    ensures stays { StaysStrict S.kind P.Gen.generations session.old session.new }
{
    session.tell_begun();
    read_and_run(&mut session.body, alloc, input, output)
}

/// Runs a text as `run_text_strict` does, over a buffered writer. The writer is flushed once when the
/// run has ended, whatever its outcome, and the writer below it is given back.
///
/// Of a run that failed by reading or for want of memory nothing was written, and at the other
/// outcomes but `Write` the writer below holds each reply line. At `Write` it holds a front of the
/// reply lines of the commands that ran. A failed flush is `Write`. The lines are those of a strict store of
/// names, and the session is left, as `run_text_strict` says.
pub fn run_text_strict_and_flush<
    P: Ptr,
    S: NonZeroInxGenericStack<ArenaSlot<P, Node<u64, P>>>,
    R: Read,
    W: Write + Drop,
>(
    session: &mut StrictSession<P, u64, S>,
    alloc: Global,
    input: &mut R,
    output: BufWriter<W>,
) -> (Result<(), TextError>, W)
    ensures run { IsWholeFlushedRun (IsStrictSessionStep S.kind S.has_memory P.Gen.generations)
        (R.remaining input.old) result.0
        session.old session.new (writer_contents W.contents output) (W.contents result.1) }
    ensures store { P.Gen.generations.counting ≡ true
        → IsStrictStoreText (strictly_shown P.Gen.generations.greatest session.old)
        (strictly_shown P.Gen.generations.greatest session.new)
        (R.remaining input.old) result.0 (writer_contents W.contents output) (W.contents result.1) }
    ensures stays { StaysStrict S.kind P.Gen.generations session.old session.new }
{
    session.tell_begun();
    let mut output = output;
    let outcome = read_and_run(&mut session.body, alloc, input, &mut output);
    flush_after(outcome, output)
}
