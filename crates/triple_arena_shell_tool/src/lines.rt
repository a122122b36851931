//! The lines of a transcript, one after another.

use crate::calls::{Answer, Stop, size};
use crate::families::{Family, family_of};
use crate::held::Held;
use crate::help::HELP;
use crate::shelf::Shelf;
use std::alloc::Global;
use std::io;

/// Follows lines on arenas of one family, up to a line that names another, if there is one.
pub fn follow_family<R: Print + Input, H: Held + Drop>(
    rt: &R,
    alloc: Global,
    number: &mut u64,
) -> Result<Option<Family>, Stop> {
    let mut shelf: Shelf<H> = Shelf::new(alloc);
    for _ in 0..u64::MAX {
        let Some(line) = next_line(rt, alloc, number)? else {
            return Ok(None);
        };
        if let Some(next) = follow(rt, alloc, &mut shelf, without_end(line.as_str()))? {
            return Ok(Some(next));
        }
    }
    Ok(None)
}

// The next line, if there is one.
fn next_line<R: Input>(rt: &R, alloc: Global, number: &mut u64) -> Result<Option<String>, Stop> {
    let mut line = String::new(alloc);
    *number = number.wrapping_add(1);
    match rt.read_line(&mut line) {
        Ok(0) => Ok(None),
        Ok(_) => Ok(Some(line)),
        Err(_) => Err(Stop::Read),
    }
}

// A line without what ends it.
fn without_end(line: &str) -> &str {
    match line.strip_suffix('\n') {
        Some(line) => line,
        None => line,
    }
}

// Follows a line, and writes it; the family that it names, if it names one.
fn follow<R: Print, H: Held + Drop>(
    rt: &R,
    alloc: Global,
    shelf: &mut Shelf<H>,
    line: &str,
) -> Result<Option<Family>, Stop> {
    if line.is_empty() || line.starts_with('#') {
        is_out(println!(rt; "{line}"))?;
        return Ok(None);
    }
    if line == "help" {
        is_out(println!(rt; "{HELP}"))?;
        return Ok(None);
    }
    if let Some(name) = line.strip_prefix("pointers ") {
        let family = family_of(name)?;
        is_out(println!(rt; "{line}"))?;
        return Ok(Some(family));
    }
    let asked = before_answer(line);
    let words: Vec<&str> = asked.split_whitespace().collect(alloc)?;
    let answer = call(alloc, shelf, &words)?;
    is_out(println!(rt; "{asked} -> {answer}"))?;
    Ok(None)
}

// That what was written is out.
fn is_out(written: io::Result<()>) -> Result<(), Stop> {
    match written {
        Ok(()) => Ok(()),
        Err(_) => Err(Stop::Write),
    }
}

// A line without the answer of an earlier run.
fn before_answer(line: &str) -> &str {
    match line.split_once(" ->") {
        Some((asked, _answer)) => asked,
        None => line,
    }
}

// Makes the call of these words.
fn call<H: Held + Drop>(alloc: Global, shelf: &mut Shelf<H>, words: &[&str]) -> Answer {
    match *words {
        ["new", name, kind] => shelf.make(alloc, name, kind, None),
        ["new", name, kind, room] => shelf.make(alloc, name, kind, Some(size(room)?)),
        ["drop", name] => shelf.end(alloc, name),
        [name, ref call @ ..] => shelf.call(alloc, name, call),
        [] => Err(Stop::Malformed),
    }
}
