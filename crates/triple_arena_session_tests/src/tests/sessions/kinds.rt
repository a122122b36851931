//! New sessions of several kinds. A function that names a session takes long to prove, so few do, and the tests are
//! rows of what is asked.

use super::texts::{Asked, Dialogue, Run};
use std::alloc::Global;
use std::io::BufWriter;
use std::process::Abort;
use triple_arena::ArenaSlot;
use triple_arena_ptr::{P0, Ptr, PtrGen};
use triple_arena_session::{
    Node, Session, StrictSession, run_text, run_text_and_flush, run_text_strict,
    run_text_strict_and_flush,
};
use triple_arena_stack::{NonZeroInxGenericStack, NonZeroInxVec};
use triple_arena_test_kit::{B, Narrow};

pub type Slot<P> = ArenaSlot<P, Node<u64, P>>;

pub type OnHeap<P> = NonZeroInxVec<Slot<P>>;

/// The sessions that are tried, over the heap, by their pointers.
#[derive(Clone, Copy)]
pub enum Kind {
    /// The pointer of general use.
    General,
    /// Generations of a byte.
    ByteGenerations,
    /// Indexes of a byte.
    ByteIndexes,
    /// A strict session at the pointer of general use.
    Strict,
    /// A strict one at generations of a byte.
    StrictByteGenerations,
}

/// Expects a new session of a kind to answer so. The one body that names the types of the kinds.
pub fn tries(rt: &impl Abort, alloc: Global, kind: Kind, asked: &Asked<'_>) {
    match kind {
        Kind::General => try_at::<P0, OnHeap<P0>>(rt, alloc, asked),
        Kind::ByteGenerations => try_at::<B, OnHeap<B>>(rt, alloc, asked),
        Kind::ByteIndexes => try_at::<Narrow, OnHeap<Narrow>>(rt, alloc, asked),
        Kind::Strict => try_strictly_at::<P0, OnHeap<P0>>(rt, alloc, asked),
        Kind::StrictByteGenerations => try_strictly_at::<B, OnHeap<B>>(rt, alloc, asked),
    }
}

/// Expects a new session of a kind to give so many names to insertions of this datum, or of the number of
/// each name, and then to answer a text so.
pub fn gives(
    rt: &impl Abort,
    alloc: Global,
    kind: Kind,
    datum: Option<usize>,
    count: usize,
    text: &str,
    lines: &str,
) {
    let mut insertions = Dialogue::new(alloc);
    insertions.insert(rt, datum, count);
    let runs = [insertions.run(), Run::of(text, lines)];
    tries(rt, alloc, kind, &Asked::of("many names", &runs));
}

fn try_at<P: Ptr, S: NonZeroInxGenericStack<Slot<P>> + Drop>(
    rt: &impl Abort,
    alloc: Global,
    asked: &Asked<'_>,
) {
    assert!(rt; P::Gen::counts());
    let mut session: Session<P, u64, S> = Session::with_new_arena(alloc);
    answers(rt, alloc, &mut session, asked);
}

fn try_strictly_at<P: Ptr, S: NonZeroInxGenericStack<Slot<P>> + Drop>(
    rt: &impl Abort,
    alloc: Global,
    asked: &Asked<'_>,
) {
    assert!(rt; P::Gen::counts());
    let mut session: StrictSession<P, u64, S> = StrictSession::with_new_arena(alloc);
    answers_strictly(rt, alloc, &mut session, asked);
}

/// Expects a session to answer so.
pub fn answers<P: Ptr, S: NonZeroInxGenericStack<Slot<P>>>(
    rt: &impl Abort,
    alloc: Global,
    session: &mut Session<P, u64, S>,
    asked: &Asked<'_>,
) {
    asked.expect(rt, alloc, session.run(asked.commands));
    for run in asked.runs {
        let mut input = run.input();
        if run.is_buffered {
            let buffer = BufWriter::new(alloc, run.output(alloc)).expect(rt, "memory");
            let (outcome, output) = run_text_and_flush(session, alloc, &mut input, buffer);
            run.expect(rt, asked.name, outcome, &output);
        } else {
            let mut output = run.output(alloc);
            let outcome = run_text(session, alloc, &mut input, &mut output);
            run.expect(rt, asked.name, outcome, &output);
        }
    }
}

/// Expects a strict session to answer so.
pub fn answers_strictly<P: Ptr, S: NonZeroInxGenericStack<Slot<P>>>(
    rt: &impl Abort,
    alloc: Global,
    session: &mut StrictSession<P, u64, S>,
    asked: &Asked<'_>,
) {
    asked.expect(rt, alloc, session.run(asked.commands));
    for run in asked.runs {
        let mut input = run.input();
        if run.is_buffered {
            let buffer = BufWriter::new(alloc, run.output(alloc)).expect(rt, "memory");
            let (outcome, output) = run_text_strict_and_flush(session, alloc, &mut input, buffer);
            run.expect(rt, asked.name, outcome, &output);
        } else {
            let mut output = run.output(alloc);
            let outcome = run_text_strict(session, alloc, &mut input, &mut output);
            run.expect(rt, asked.name, outcome, &output);
        }
    }
}
