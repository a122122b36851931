//! Whole runs of a program: where memory is refused, nothing is written, or its one insertion is
//! answered so. Made again, each runs well.

use crate::runs::Ended;
use std::alloc::Global;
use std::io;
use std::io::{BufWriter, Cursor};
use triple_arena_refused_kit::{End, Report, Wrong};
use triple_arena_session::{Kind, Outcome, TextError, run_kind, run_program};

const TEXT: &[u8] = b"insert 1 -\n";

/// What a run writes.
type Written = Cursor<[u8; 16]>;

// The arguments of these words.
fn args_of(alloc: Global, words: &[&str]) -> io::Result<Vec<String>> {
    let mut args = Vec::new(alloc);
    for word in words {
        args.push(String::from_str(alloc, *word)?)?;
    }
    Ok(args)
}

// How a run ended with this outcome, and with what was written.
fn ended(outcome: Result<(), TextError>, output: &Written) -> Ended {
    let size = (output.position() as usize).min(16);
    let written = &output.get_ref()[..size];
    match outcome {
        Ok(()) if written == b"given 1\n".as_slice() => Ended::Whole(0),
        Ok(()) if written == b"no memory\n".as_slice() => Ended::Whole(1),
        Err(TextError::NoMemory) if written.is_empty() => Ended::Unwritten,
        _ => Ended::Otherwise,
    }
}

// How the program ends with these arguments.
fn program(alloc: Global, words: &[&str]) -> Ended {
    let args = args_of(alloc, words);
    let mut input = TEXT;
    match run_program(args, alloc, &mut input, Cursor::new([0u8; 16])) {
        (Outcome::Ran(outcome), Some(output)) => ended(outcome, &output),
        (Outcome::Ran(Err(TextError::NoMemory)), None) => Ended::Unwritten,
        _ => Ended::Otherwise,
    }
}

// How a run of a kind ends.
fn kind(alloc: Global, kind: Kind) -> Ended {
    let mut input = TEXT;
    let Ok(output) = BufWriter::with_capacity(alloc, 16, Cursor::new([0u8; 16])) else {
        return Ended::Unwritten;
    };
    let (outcome, output) = run_kind(kind, alloc, &mut input, output);
    ended(outcome, &output)
}

/// A whole run of the text.
#[derive(Clone, Copy)]
enum Run {
    /// Of the program, with these arguments.
    Program(&'static [&'static str]),
    Kind(Kind),
}

impl Run {
    fn ends(self, alloc: Global) -> Ended {
        match self {
            Run::Program(words) => program(alloc, words),
            Run::Kind(asked) => kind(alloc, asked),
        }
    }

    // Once, and once more where memory was refused.
    fn is_made(self, alloc: Global) -> Result<End, Wrong> {
        match self.ends(alloc) {
            Ended::Whole(0) => return Ok(End::Ample),
            Ended::Whole(1) | Ended::Unwritten => {}
            _ => return Err(Wrong::Answer(0)),
        }
        match self.ends(alloc) {
            Ended::Whole(0) => Ok(End::Refused),
            _ => Err(Wrong::Answer(1)),
        }
    }
}

const RUNS: &[(&str, &str, Run)] = &[
    ("run_program", "the heap", Run::Program(&["heap"])),
    (
        "run_program",
        "a strict session of fixed room",
        Run::Program(&["strict", "fixed", "2"]),
    ),
    ("run_kind", "a limited session", Run::Kind(Kind::Limited(2))),
];

pub fn try_each(alloc: Global, report: &mut Report) {
    for (call, of, run) in RUNS {
        report.note(*call, *of, run.is_made(alloc));
    }
}
