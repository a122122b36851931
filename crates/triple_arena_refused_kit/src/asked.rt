//! Which calls are made, and which of their requests is refused.

use crate::report::Report;
use std::alloc::{AllocError, Global};
use std::io::Read;

/// Makes a request for memory, and gives it back.
pub fn ask(alloc: Global) -> Result<(), AllocError> {
    let _given: Vec<u8> = Vec::with_capacity(alloc, 1)?;
    Ok(())
}

/// The calls of a tool.
pub trait Calls {
    /// The words that they are asked for by.
    fn words(&self) -> &'static [&'static str];

    /// Makes those of a word.
    fn make(&self, alloc: Global, word: &str, report: &mut Report);
}

// Whether the calls of a word are made, where this one was asked for.
fn is_asked(asked: Option<&str>, word: &str) -> bool {
    match asked {
        Some(asked) => asked == word,
        None => true,
    }
}

/// Reads a number and a word, and tells of the calls that it makes.
///
/// The word says which they are, and without one all are made. Of the number as many requests are
/// made first, and given back: where the machine refuses its request N (`rt try --fail-alloc N`),
/// the calls' own request N - number is refused. Where there was no memory to make something, all
/// calls of the word are made once more, and succeed.
pub fn make_asked<R: Read, C: Calls>(
    alloc: Global,
    input: &mut R,
    calls: &C,
) -> anyhow::Result<Report> {
    let mut room = [0u8; 40];
    let size = input.read(&mut room)?;
    let text = std::str::from_utf8(&room[..size])?.trim();
    let (number, asked) = match text.split_once(' ') {
        Some((number, word)) => (number, Some(word)),
        None => (text, None),
    };
    for _ in 0..number.parse::<usize>()? {
        let _given = ask(alloc);
    }
    let mut report = Report::new();
    for word in calls.words() {
        if is_asked(asked, word) {
            calls.make(alloc, word, &mut report);
            if report.had_unmade() {
                calls.make(alloc, word, &mut report);
            }
        }
    }
    Ok(report)
}
