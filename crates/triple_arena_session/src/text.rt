//! The run of a text: from the bytes of a reader to the bytes of a writer.

ghost use Rattle.std.specs.Prelude.{◌≡◌, ◌≤◌, true, Some};
ghost use Rattle.std.specs.Io.Buffered.{writer_contents};
ghost use Rattle.triple_arena_commands.specs.TextRun.{IsTextRun, IsFlushedRun};
ghost use Rattle.triple_arena_session.specs.SessionRun.{IsStep};
ghost use Rattle.triple_arena_session.specs.Shown.{shown, IsSound, IsArenaOver};
ghost use Rattle.triple_arena_session.specs.SessionLayout.{IsStepStrictIf};
ghost use Rattle.triple_arena_session.specs.StoreText.{IsStoreText, LeavesStore};

use crate::node::Node;
use crate::session::Session;
use crate::session_arena::SessionArena;
use crate::session_body::SessionBody;
use std::alloc::Global;
use std::io::{BufWriter, Read, Write};
use triple_arena::ArenaSlot;
use triple_arena_commands::{
    LINE_ROOM, TextError, flush_after, parse_command, read_text, split_first, write_reply_in,
};
use triple_arena_ptr::Ptr;
use triple_arena_stack::NonZeroInxGenericStack;

/// Runs the commands of a text: reads the text to its end, and then takes its lines in order, each
/// parsed, run and answered by one line before the next is parsed.
///
/// A line of no bytes is skipped. The run ends with the text, with the first reply that tells of
/// a wrap, or with the error that comes first; `TextError` says what stands after each. A reply
/// goes out by writes alone, without asking for memory, and nothing is flushed.
///
/// In a sound session the lines are answered as by the store of names that it shows, and
/// compactions change no other line, as `Session::run` says. Unless the last reply told of a wrap,
/// it is sound after the run, and shows what the store became: so one text may follow another. All
/// this is said but where the writer failed, of readers that tell their bytes, and what is said of the
/// lines of writers that do.
pub fn run_text<P: Ptr, S: NonZeroInxGenericStack<ArenaSlot<P, Node<u64, P>>>, R: Read, W: Write>(
    session: &mut Session<P, u64, S>,
    alloc: Global,
    input: &mut R,
    output: &mut W,
) -> Result<(), TextError>
    ensures run { IsTextRun (IsStep S.kind S.has_memory P.Gen.generations)
        (R.remaining input.old) result
        session.old session.new (W.contents output.old) (W.contents output.new) }
    ensures store { P.Gen.generations.counting ≡ true → IsSound session.old
        → IsStoreText (shown session.old) (R.remaining input.old) result
        (W.contents output.old) (W.contents output.new) }
    ensures leaves { P.Gen.generations.counting ≡ true → IsSound session.old
        → LeavesStore (IsStep S.kind S.has_memory P.Gen.generations) (R.remaining input.old) result
        session.old session.new (W.contents output.old) (W.contents output.new) }
    ensures arena { IsArenaOver S.kind session.old.arena }
{
    read_and_run(&mut session.body, alloc, input, output)
}

/// The run of a text in a session of any arena: reads the text to its end and runs its lines. One over a
/// strict arena stays sound (`kept`), also where the reader doesn't tell its bytes.
pub(crate) fn read_and_run<
    P: Ptr,
    S: NonZeroInxGenericStack<ArenaSlot<P, Node<u64, P>>>,
    A: SessionArena<P, Node<u64, P>, S>,
    R: Read,
    W: Write,
>(
    session: &mut SessionBody<P, u64, S, A>,
    alloc: Global,
    input: &mut R,
    output: &mut W,
) -> Result<(), TextError>
    ensures run { IsTextRun (IsStepStrictIf A.strict S.kind S.has_memory P.Gen.generations)
        (R.remaining input.old) result
        session.old session.new (W.contents output.old) (W.contents output.new) }
    ensures kept { A.strict ≡ true → P.Gen.generations.counting ≡ true
        → IsSound session.old → IsSound session.new }
    ensures over { IsArenaOver S.kind session.old.arena }
    ensures within { session.old.arena.counter ≤ P.Gen.generations.greatest }
{
    session.tell_arena_over_stack();
    let text = read_text(alloc, input)?;
    run_lines(session, text.as_slice(), output)
}

/// Runs a text as `run_text` does, over a buffered writer. The writer is flushed once when the run
/// has ended, whatever its outcome, and the writer below it is given back.
///
/// Of a run that failed by reading or for want of memory nothing was written, and at the other
/// outcomes but `Write` the writer below holds each reply line. At `Write` it holds a front of the
/// reply lines of the commands that ran. A failed flush is `Write`. In a sound session the lines
/// are those of a store of names, and it is left, as `run_text` says.
pub fn run_text_and_flush<
    P: Ptr,
    S: NonZeroInxGenericStack<ArenaSlot<P, Node<u64, P>>>,
    R: Read,
    W: Write + Drop,
>(
    session: &mut Session<P, u64, S>,
    alloc: Global,
    input: &mut R,
    output: BufWriter<W>,
) -> (Result<(), TextError>, W)
    ensures run { IsFlushedRun (IsStep S.kind S.has_memory P.Gen.generations)
        (R.remaining input.old) result.0 session.old session.new (writer_contents W.contents output) (W.contents result.1) }
    ensures store { P.Gen.generations.counting ≡ true → IsSound session.old
        → IsStoreText (shown session.old) (R.remaining input.old) result.0
        (writer_contents W.contents output) (W.contents result.1) }
    ensures leaves { P.Gen.generations.counting ≡ true → IsSound session.old
        → LeavesStore (IsStep S.kind S.has_memory P.Gen.generations) (R.remaining input.old)
        result.0 session.old session.new (writer_contents W.contents output) (W.contents result.1) }
    ensures arena { IsArenaOver S.kind session.old.arena }
{
    let mut output = output;
    let outcome = read_and_run(&mut session.body, alloc, input, &mut output);
    flush_after(outcome, output)
}

// Runs the lines of a text. A line of no bytes is passed over. The room is for the line of each reply.
fn run_lines<
    P: Ptr,
    S: NonZeroInxGenericStack<ArenaSlot<P, Node<u64, P>>>,
    A: SessionArena<P, Node<u64, P>, S>,
    W: Write,
>(session: &mut SessionBody<P, u64, S, A>, text: &[u8], output: &mut W) -> Result<(), TextError>
    ensures { IsTextRun (IsStepStrictIf A.strict S.kind S.has_memory P.Gen.generations)
        (Some text.now) result
        session.old session.new (W.contents output.old) (W.contents output.new) }
{
    let mut rest = text;
    let mut before = 0usize;
    let mut room = [0; LINE_ROOM];
    'lines: loop {
        let (line, after) = split_first(rest, b'\n');
        if !line.is_empty() {
            let Some(command) = parse_command(line) else {
                return Err(TextError::Malformed(before + 1));
            };
            let reply = session.answer(command);
            let Ok(()) = write_reply_in(output, &reply, &mut room) else {
                return Err(TextError::Write);
            };
            if reply.tells_of_wrap() {
                return Ok(());
            }
        }
        match after {
            None => return Ok(()),
            Some(next) => {
                rest = next;
                before += 1;
            }
        }
    }
}
