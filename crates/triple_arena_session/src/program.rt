//! Runs of a text in a new session, and of the program.

ghost use Rattle.std.specs.Prelude.{◌≡◌, IsErr, IsNone};
ghost use Rattle.std.specs.Io.Buffered.{writer_contents};
ghost use Rattle.triple_arena_stack.specs.StackKind.{new_room, new_limit, made_room, made_limit};
ghost use Rattle.triple_arena_commands.specs.Program.{asked_mode};
ghost use Rattle.triple_arena_session.specs.KindRun.{RunsKind, RunsOver, RunsKindStrictly, RunsStrictlyOver, first_session};
ghost use Rattle.triple_arena_session.specs.ProgramRun.{RunsProgram};
ghost use Rattle.triple_arena_session.specs.StoreText.{IsAnsweredText, AnswersFreshly, AnswersProgram};

use crate::node::Node;
use crate::session::Session;
use crate::strict_session::StrictSession;
use crate::strict_text::run_text_strict_and_flush;
use crate::text::run_text_and_flush;
use std::alloc::Global;
use std::io;
use std::io::{BufWriter, Read, Write};
use triple_arena::ArenaSlot;
use triple_arena_commands::{Kind, Outcome, TextError, asked_mode, flush_after};
use triple_arena_ptr::P0;
use triple_arena_stack::{
    NonZeroInxArray, NonZeroInxBoxedSlice, NonZeroInxGenericStack, NonZeroInxLimitedVec,
    NonZeroInxVec,
};

/// A slot of the program's arenas.
type Slot = ArenaSlot<P0, Node<u64, P0>>;

type HeapSlots = NonZeroInxVec<Slot>;

type LimitedSlots = NonZeroInxLimitedVec<Slot>;

type FixedSlots = NonZeroInxBoxedSlice<Slot>;

type ArraySlots = NonZeroInxArray<Slot, 8>;

/// How many bytes of replies are gathered before they go out.
const OUTPUT_BUFFER: usize = 65536;

/// Runs the program: its input, in the session that its arguments ask for, as `run_kind` does, or in a
/// strict one where they ask for this. Replies are gathered in a buffer over the output, which is given
/// back at the end.
///
/// Where the arguments ask for no kind, nothing is read or written: they are wrong, as `parse_mode`
/// says of their words and as all are that are no text, or there was no memory for them, which is
/// `NoMemory`. Where there is no memory for the buffer, the outcome is `NoMemory`, nothing is read,
/// and the output is let go. What is written is what a new store of names answers, as `run_kind`
/// says, or a new strict store, as `run_text_strict` does.
pub fn run_program<R: Read, W: Write + Drop>(
    args: io::Result<Vec<String>>,
    alloc: Global,
    input: &mut R,
    output: W,
) -> (Outcome, Option<W>)
    ensures run { RunsProgram W.contents (asked_mode args) (R.remaining input.old)
        result.0 output result.1 }
    ensures unread { IsErr (asked_mode args) → input.new ≡ input.old }
    ensures unbegun { IsNone result.1 → input.new ≡ input.old }
    ensures store { AnswersProgram W.contents (asked_mode args) (R.remaining input.old)
        result.0 output result.1 }
{
    match asked_mode(&args) {
        Ok(mode) => match BufWriter::with_capacity(alloc, OUTPUT_BUFFER, output) {
            Ok(output) => {
                let (answer, output) = match mode {
                    (false, kind) => run_kind(kind, alloc, input, output),
                    (true, kind) => run_in_new_strict_session(kind, alloc, input, output),
                };
                (Outcome::Ran(answer), Some(output))
            }
            Err(_) => (Outcome::Ran(Err(TextError::NoMemory)), None),
        },
        Err(outcome) => (outcome, Some(output)),
    }
}

/// Runs a text as `run_text_and_flush` does, in a new session of the kind that was asked for: over
/// the heap; over the heap with this limit, which is its room at first too; over so many fixed
/// places; or over an array of 8.
///
/// Where there is no memory for the session, the outcome is `NoMemory`, or `Write` where the flush
/// fails: nothing has run, and what the buffer held before goes out.
///
/// Up to the first reply that tells of a wrap, and but where the writer failed, what is written is
/// what a new store of names answers, each pointer that was given is new, and compactions change no
/// other line, as `Session::run` says. This is said of readers and writers that tell their bytes.
#[tactic(auto, using(crate::proofs::StoreTextLaws::RunsKindFreshly))]
pub fn run_kind<R: Read, W: Write + Drop>(
    kind: Kind,
    alloc: Global,
    input: &mut R,
    output: BufWriter<W>,
) -> (Result<(), TextError>, W)
    ensures run { RunsKind kind (R.remaining input.old) result.0
        (writer_contents W.contents output) (W.contents result.1) }
    ensures store { IsAnsweredText (AnswersFreshly kind) (R.remaining input.old) result.0
        (writer_contents W.contents output) (W.contents result.1) }
{
    match kind {
        Kind::Heap => run_new::<HeapSlots, R, W>(alloc, input, output),
        Kind::Limited(most) => run_made::<LimitedSlots, R, W>(most, alloc, input, output),
        Kind::Fixed(slots) => run_made::<FixedSlots, R, W>(slots, alloc, input, output),
        Kind::Array => run_new::<ArraySlots, R, W>(alloc, input, output),
    }
}

// Runs a text in a new session over this stack.
fn run_new<S: NonZeroInxGenericStack<Slot> + Drop, R: Read, W: Write + Drop>(
    alloc: Global,
    input: &mut R,
    output: BufWriter<W>,
) -> (Result<(), TextError>, W)
    ensures { RunsOver S.kind S.has_memory (first_session (new_room S.kind) (new_limit S.kind))
        (R.remaining input.old) result.0
        (writer_contents W.contents output) (W.contents result.1) }
{
    let mut session = Session::<P0, u64, S>::with_new_arena(alloc);
    run_text_and_flush(&mut session, alloc, input, output)
}

// Runs a text in a new session over this stack, with room for so many entries.
fn run_made<S: NonZeroInxGenericStack<Slot> + Drop, R: Read, W: Write + Drop>(
    slots: usize,
    alloc: Global,
    input: &mut R,
    output: BufWriter<W>,
) -> (Result<(), TextError>, W)
    ensures { RunsOver S.kind S.has_memory
        (first_session (made_room S.kind slots) (made_limit S.kind slots))
        (R.remaining input.old) result.0
        (writer_contents W.contents output) (W.contents result.1) }
{
    match Session::<P0, u64, S>::with_min_capacity(alloc, slots) {
        Ok(mut session) => run_text_and_flush(&mut session, alloc, input, output),
        Err(_) => flush_after(Err(TextError::NoMemory), output),
    }
}

// Runs a text in a new strict session of a kind.
fn run_in_new_strict_session<R: Read, W: Write + Drop>(
    kind: Kind,
    alloc: Global,
    input: &mut R,
    output: BufWriter<W>,
) -> (Result<(), TextError>, W)
    ensures { RunsKindStrictly kind (R.remaining input.old) result.0
        (writer_contents W.contents output) (W.contents result.1) }
{
    match kind {
        Kind::Heap => run_new_strictly::<HeapSlots, R, W>(alloc, input, output),
        Kind::Limited(most) => run_made_strictly::<LimitedSlots, R, W>(most, alloc, input, output),
        Kind::Fixed(slots) => run_made_strictly::<FixedSlots, R, W>(slots, alloc, input, output),
        Kind::Array => run_new_strictly::<ArraySlots, R, W>(alloc, input, output),
    }
}

// Runs a text in a new strict session over this stack.
fn run_new_strictly<S: NonZeroInxGenericStack<Slot> + Drop, R: Read, W: Write + Drop>(
    alloc: Global,
    input: &mut R,
    output: BufWriter<W>,
) -> (Result<(), TextError>, W)
    ensures { RunsStrictlyOver S.kind S.has_memory
        (first_session (new_room S.kind) (new_limit S.kind)) (R.remaining input.old) result.0
        (writer_contents W.contents output) (W.contents result.1) }
{
    let mut session = StrictSession::<P0, u64, S>::with_new_arena(alloc);
    run_text_strict_and_flush(&mut session, alloc, input, output)
}

// Runs a text in a new strict session over this stack, with room for so many entries.
fn run_made_strictly<S: NonZeroInxGenericStack<Slot> + Drop, R: Read, W: Write + Drop>(
    slots: usize,
    alloc: Global,
    input: &mut R,
    output: BufWriter<W>,
) -> (Result<(), TextError>, W)
    ensures { RunsStrictlyOver S.kind S.has_memory
        (first_session (made_room S.kind slots) (made_limit S.kind slots))
        (R.remaining input.old) result.0
        (writer_contents W.contents output) (W.contents result.1) }
{
    match StrictSession::<P0, u64, S>::with_min_capacity(alloc, slots) {
        Ok(mut session) => run_text_strict_and_flush(&mut session, alloc, input, output),
        Err(_) => flush_after(Err(TextError::NoMemory), output),
    }
}
