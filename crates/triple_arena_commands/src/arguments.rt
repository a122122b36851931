//! The arguments, the words on standard error and the exit status of the program.

ghost use Rattle.std.specs.Prelude.{◌≡◌, map, Some, string_bytes};
ghost use Rattle.triple_arena_commands.specs.Program.{kind_of, sized_kind, mode_of, asked_mode, status_of, message_of};

use crate::text_error::TextError;
use crate::words::parse_number;
use std::io::ErrorKind;
use std::{fmt, io};

/// What the session's arena is kept in.
#[derive(Clone, Copy, Debug, PartialEq, Eq)]
pub enum Kind {
    /// Slots on the heap, without a limit.
    Heap,
    /// Slots on the heap, with room for so many at first, and this limit.
    Limited(usize),
    /// So many slots, made at once.
    Fixed(usize),
    /// Slots in an array of 8.
    Array,
}

/// How the program ended.
#[derive(Clone, Copy, Debug, PartialEq, Eq)]
pub enum Outcome {
    /// The arguments are wrong. Nothing was read or written.
    WrongArguments,
    /// The answer of the run of the input. `NoMemory` is also the answer where there was no memory
    /// for the arguments, the buffer of the output or the session.
    Ran(Result<(), TextError>),
}

/// Whether the program's arguments, those after its name, ask for a strict session, and the kind that
/// they ask for, as `parse_mode` reads their words. Arguments that are no text are wrong, and no
/// memory for them is `NoMemory`.
pub fn asked_mode(args: &io::Result<Vec<String>>) -> Result<(bool, Kind), Outcome>
    ensures { result ≡ asked_mode args.now }
{
    match args {
        Ok(args) => mode_of_args(args.as_slice()).ok_or(Outcome::WrongArguments),
        Err(e) => match e.kind() {
            ErrorKind::OutOfMemory => Err(Outcome::Ran(Err(TextError::NoMemory))),
            _ => Err(Outcome::WrongArguments),
        },
    }
}

fn mode_of_args(args: &[String]) -> Option<(bool, Kind)>
    ensures { result ≡ mode_of (map string_bytes args.now) }
{
    match args {
        [] => parse_mode(&[]),
        [word] => parse_mode(&[word.as_str()]),
        [word, number] => parse_mode(&[word.as_str(), number.as_str()]),
        [mode, word, number] => parse_mode(&[mode.as_str(), word.as_str(), number.as_str()]),
        _ => None,
    }
}

/// The kind that the words after the program's name ask for: the heap without a word or with
/// `heap`, `limited N`, `fixed N`, or `array`, where N is a number as in command lines. `None`
/// exactly where the words are wrong.
pub fn parse_args(words: &[&str]) -> Option<Kind>
    ensures { result ≡ kind_of (map (λ word. word.now) words.now) }
{
    match words {
        [] => Some(Kind::Heap),
        [word] if *word == "heap" => Some(Kind::Heap),
        [word] if *word == "array" => Some(Kind::Array),
        [word, number] => sized_kind(word, parse_number(number.as_bytes())? as usize),
        _ => None,
    }
}

/// Whether the words after the program's name ask for a strict session, which `strict` does as the
/// first of them, and the kind that the others ask for, as `parse_args` reads them. `None` exactly
/// where these are wrong.
pub fn parse_mode(words: &[&str]) -> Option<(bool, Kind)>
    ensures { result ≡ mode_of (map (λ word. word.now) words.now) }
{
    match words {
        [word, rest @ ..] if *word == "strict" => Some((true, parse_args(rest)?)),
        _ => Some((false, parse_args(words)?)),
    }
}

fn sized_kind(word: &str, size: usize) -> Option<Kind>
    ensures { result ≡ sized_kind word.now size }
{
    match word {
        "limited" => Some(Kind::Limited(size)),
        "fixed" => Some(Kind::Fixed(size)),
        _ => None,
    }
}

/// The exit status: 0 where the input was run to its end or to a reply that tells of a wrap, 1
/// where memory, reader or writer failed, 2 for wrong arguments, 3 for a malformed line.
pub fn status(outcome: Outcome) -> u8
    ensures { result ≡ status_of outcome }
{
    match outcome {
        Outcome::WrongArguments => 2,
        Outcome::Ran(Ok(())) => 0,
        Outcome::Ran(Err(TextError::Malformed(_))) => 3,
        Outcome::Ran(Err(_)) => 1,
    }
}

/// What the program writes to standard error: a line that says why it stopped before the end of
/// its input, or nothing.
impl fmt::Display for Outcome {
    ghost output = { λ outcome. Some (message_of outcome) };

    fn fmt<W: fmt::Write>(&self, f: &mut fmt::Formatter<W>) -> fmt::Result {
        match self {
            Outcome::WrongArguments => {
                writeln!(
                    f,
                    "usage: triple_arena_run [heap | limited N | fixed N | array]"
                )
            }
            Outcome::Ran(Ok(())) => Ok(()),
            Outcome::Ran(Err(e)) => writeln!(f, "{e}"),
        }
    }
}
