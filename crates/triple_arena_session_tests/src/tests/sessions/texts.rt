//! What a session is asked, as rows: commands, and texts that run.

use super::devices::{PieceReader, PieceWriter, Reads, WriteFailure, Writes};
use crate::tests::lines::are_replies;
use std::alloc::Global;
use std::fmt::Write as _;
use std::io::ErrorKind;
use std::process::Abort;
use triple_arena_base::AllocError;
use triple_arena_session::{Command, Reply, TextError};
use triple_arena_test_kit::is;

/// A read gives all that there is room for, and none fails.
pub const AT_ONCE: Reads = Reads {
    most: usize::MAX,
    before: usize::MAX,
    failure: ErrorKind::Other,
    times: 0,
};

/// A read gives a byte, and none fails.
pub const BY_BYTES: Reads = Reads {
    most: 1,
    before: usize::MAX,
    failure: ErrorKind::Other,
    times: 0,
};

/// A write takes all, and none fails.
pub const WHOLE: Writes = Writes {
    most: usize::MAX,
    before: usize::MAX,
    failure: WriteFailure::TakesNone,
};

/// A text that runs: how it is read, how its lines are written, how the run ends, and all that is written
/// then.
#[derive(Clone, Copy)]
pub struct Run<'a> {
    pub text: &'a [u8],
    pub reads: Reads,
    pub writes: Writes,
    /// Whether the lines go through a buffer, which is flushed. Else nothing may be flushed.
    pub is_buffered: bool,
    pub outcome: Result<(), TextError>,
    pub lines: &'a [u8],
}

impl<'a> Run<'a> {
    /// Ends well with these lines, where no read and no write fails.
    pub fn of(text: &'a str, lines: &'a str) -> Run<'a> {
        Run {
            text: text.as_bytes(),
            reads: AT_ONCE,
            writes: WHOLE,
            is_buffered: false,
            outcome: Ok(()),
            lines: lines.as_bytes(),
        }
    }

    /// The reader of the text.
    pub fn input(&self) -> PieceReader<'a> {
        PieceReader {
            rest: self.text,
            reads: self.reads,
        }
    }

    /// The writer of the lines.
    pub fn output(&self, alloc: Global) -> PieceWriter {
        PieceWriter {
            bytes: Vec::new(alloc),
            writes: self.writes,
            flushes: 0,
        }
    }

    /// Expects the run to have ended as the row says.
    pub fn expect(
        &self,
        rt: &impl Abort,
        name: &str,
        outcome: Result<(), TextError>,
        output: &PieceWriter,
    ) {
        let is_quiet = self.is_buffered || output.flushes == 0;
        let place = (self.reads.before, self.writes.before);
        let told = (outcome, is_quiet, output.bytes.as_slice());
        is((place, told), (place, (self.outcome, true, self.lines))).expect(rt, name);
    }
}

/// What a new session is asked: commands, whose replies have these lines, and then texts, one after another.
#[derive(Drop)]
pub struct Asked<'a> {
    pub name: &'a str,
    pub commands: &'a [Command<u64>],
    pub lines: &'a str,
    pub runs: &'a [Run<'a>],
}

impl<'a> Asked<'a> {
    /// Texts alone.
    pub fn of(name: &'a str, runs: &'a [Run<'a>]) -> Asked<'a> {
        Asked {
            name,
            commands: &[],
            lines: "",
            runs,
        }
    }

    /// Expects the replies to the commands.
    pub fn expect(
        &self,
        rt: &impl Abort,
        alloc: Global,
        told: Result<Vec<Reply<u64>>, AllocError>,
    ) {
        are_replies(rt, alloc, self.name, told, self.lines);
    }
}

/// A long text, and the lines of its replies.
#[derive(Drop)]
pub struct Dialogue {
    pub text: String,
    pub lines: String,
}

impl Dialogue {
    pub fn new(alloc: Global) -> Dialogue {
        Dialogue {
            text: String::new(alloc),
            lines: String::new(alloc),
        }
    }

    /// Insertions of this datum, or of the number of each name, which are given so many names.
    pub fn insert(&mut self, rt: &impl Abort, datum: Option<usize>, count: usize) {
        for name in 1..=count {
            put(rt, &mut self.text, "insert ", datum.unwrap_or(name), " -\n");
            put(rt, &mut self.lines, "given ", name, "\n");
        }
    }

    /// Look-ups of at least two names, of which the last finds nothing, and the others that datum.
    pub fn get(&mut self, rt: &impl Abort, datum: Option<usize>, last: usize) {
        for name in 1..=last {
            put(rt, &mut self.text, "get ", name, "\n");
            if name < last {
                let after = if name + 1 == last {
                    " -\nnothing\n"
                } else {
                    " -\n"
                };
                put(rt, &mut self.lines, "found ", datum.unwrap_or(name), after);
            }
        }
    }

    /// Insertions, each before the removal of its name, which raise the counter so often.
    pub fn insert_and_remove(&mut self, rt: &impl Abort, count: usize) {
        for name in 1..=count {
            put(rt, &mut self.text, "insert 1 -\nremove ", name, "\n");
            put(rt, &mut self.lines, "given ", name, "\nremoved 1 -\n");
        }
    }

    /// The run of the text, which ends well.
    pub fn run(&self) -> Run<'_> {
        Run::of(self.text.as_str(), self.lines.as_str())
    }
}

/// Writes a number between two texts.
pub fn put(rt: &impl Abort, text: &mut String, before: &str, number: usize, after: &str) {
    write!(text, "{before}{number}{after}").expect(rt, "memory");
}
