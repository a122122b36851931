//! Why a text wasn't run to its end, and the words that say so.

ghost use Rattle.std.specs.Prelude.{Some};
ghost use Rattle.triple_arena_commands.specs.ErrorText.{error_text};

use std::error::Error;
use std::fmt;

/// Why a text wasn't run to its end.
#[derive(Clone, Copy, Debug, PartialEq, Eq)]
pub enum TextError {
    /// The line of this number, counted from 1, stands for no command. The lines before it have
    /// run and were answered.
    Malformed(usize),
    /// The reader failed, or hadn't ended after 4294967296 reads. Nothing has run.
    Read,
    /// The writer failed, took no byte, or interrupted one write 4294967296 times. The command whose reply
    /// was being written has run, and those before it. The replies before went out whole, and that one in part
    /// or not at all. Of a run that is flushed after it, a front of the replies of the commands that ran
    /// went out.
    Write,
    /// There was no memory for the text, or for what it was to run in. Nothing has run.
    NoMemory,
}

impl fmt::Display for TextError {
    ghost output = { λ e. Some (error_text e) };

    fn fmt<W: fmt::Write>(&self, f: &mut fmt::Formatter<W>) -> fmt::Result {
        match self {
            TextError::Malformed(line) => write!(f, "line {line}: malformed"),
            TextError::Read => f.write_str("read failed"),
            TextError::Write => f.write_str("write failed"),
            TextError::NoMemory => f.write_str("no memory"),
        }
    }
}

impl Error for TextError {}
