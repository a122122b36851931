//! Whole runs of the program, from its arguments to what is written.

use std::alloc::Global;
use std::io;
use std::io::{BufWriter, ErrorKind, Write};
use std::process::Abort;
use triple_arena_session::{Kind, Outcome, TextError, run_kind, run_program};
use triple_arena_test_kit::is;

// The arguments of these words.
fn args_of(alloc: Global, words: &[&str]) -> io::Result<Vec<String>> {
    let mut args = Vec::new(alloc);
    for word in words {
        args.push(String::from_str(alloc, *word)?)?;
    }
    Ok(args)
}

// A run of the program over a text: its outcome, what its output holds, if it is given back, and how
// many bytes of the text weren't read.
fn run(
    alloc: Global,
    args: io::Result<Vec<String>>,
    text: &str,
) -> (Outcome, Option<Vec<u8>>, usize) {
    let mut input = text.as_bytes();
    let (outcome, output) = run_program(args, alloc, &mut input, Vec::new(alloc));
    (outcome, output, input.len())
}

// Expects the program to end well with each of these rows of words as its arguments, and to write these
// lines.
fn writes_lines(rt: &impl Abort, alloc: Global, rows: &[&[&str]], text: &str, lines: &str) {
    for words in rows {
        let (outcome, output, _left) = run(alloc, args_of(alloc, *words), text);
        let written = output.expect(rt, "the output");
        let well = Outcome::Ran(Ok(()));
        is(
            (*words, outcome, written.as_slice()),
            (*words, well, lines.as_bytes()),
        )
        .expect(rt, "a run of the program");
    }
}

/// Arguments that are no text are wrong, and those that memory was refused for are not.
#[test]
fn tells_of_arguments_that_it_has_not(rt: HostRuntime) {
    let rows = [
        (ErrorKind::InvalidData, Outcome::WrongArguments),
        (
            ErrorKind::OutOfMemory,
            Outcome::Ran(Err(TextError::NoMemory)),
        ),
    ];
    for (kind, outcome) in rows {
        let args = Err(io::Error::from(kind));
        let (ended, _output, left) = run(rt.alloc(), args, "insert 1 -\n");
        is((ended, left), (outcome, 11)).expect(&rt, "the outcome, and what wasn't read");
    }
}

/// A text in a session of a kind, over a buffer that has gathered a line before, which goes out first. No
/// machine has memory for so many entries as the first two ask for: nothing is read then.
#[test]
fn runs_in_a_session_of_a_kind(rt: HostRuntime) {
    let no_memory = Err(TextError::NoMemory);
    let rows: [(Kind, Result<(), TextError>, usize, &str); 3] = [
        (Kind::Limited(usize::MAX), no_memory, 11, "before\n"),
        (Kind::Fixed(usize::MAX), no_memory, 11, "before\n"),
        (Kind::Limited(2), Ok(()), 0, "before\ngiven 1\n"),
    ];
    for (kind, outcome, left, lines) in rows {
        let mut input = "insert 1 -\n".as_bytes();
        let mut output = BufWriter::new(rt.alloc(), Vec::new(rt.alloc())).expect(&rt, "memory");
        output
            .write_all("before\n".as_bytes())
            .expect(&rt, "room in the buffer");
        let (answer, written) = run_kind(kind, rt.alloc(), &mut input, output);
        let told = (answer, input.len(), written.as_slice());
        is((kind, told), (kind, (outcome, left, lines.as_bytes()))).expect(
            &rt,
            "the outcome, how many bytes weren't read, and the lines",
        );
    }
}

/// In each mode.
#[test]
fn runs_a_text(rt: HostRuntime) {
    let rows: [&[&str]; 8] = [
        &["heap"],
        &["limited", "2"],
        &["fixed", "2"],
        &["array"],
        &["strict"],
        &["strict", "limited", "2"],
        &["strict", "fixed", "2"],
        &["strict", "array"],
    ];
    let text = "insert 1 -\ninsert 1 -\n";
    writes_lines(&rt, rt.alloc(), &rows, text, "given 1\ngiven 2\n");
}

/// A body that refuses so many would show.
#[test]
fn the_program_has_thousands_of_places(rt: HostRuntime) {
    let rows: [&[&str]; 4] = [
        &["limited", "3000"],
        &["fixed", "3000"],
        &["strict", "limited", "3000"],
        &["strict", "fixed", "3000"],
    ];
    writes_lines(&rt, rt.alloc(), &rows, "capacity\n", "count 3000\n");
}
