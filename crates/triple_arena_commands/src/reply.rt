//! Replies, and their text.

ghost use Rattle.std.specs.Prelude.{◌≡◌, ◌≤◌, ◌++◌, length, Some, IfOk, IfErr};
ghost use Rattle.triple_arena_commands.specs.ReplyText.{tells_of_wrap, reply_text, wrapped_text};
ghost use Rattle.triple_arena_commands.specs.ReplyParts.{numbers_text};

use std::fmt;

/// The reply to one command. A `bool` tells whether the counter of generations wrapped.
#[derive(Debug, PartialEq, Eq, Drop)]
pub enum Reply<X> {
    /// A new name.
    Given(usize, bool),
    /// As many entries as the capacity are there, and nothing has changed.
    Full,
    /// The arena's limit is reached or would be passed, and nothing has changed, but that a
    /// reservation has tidied the free list.
    BeyondMaxCapacity,
    /// There was no memory, or no index; entries, names, counter and capacity are as they were.
    NoMemory,
    /// The datum and the link under a name.
    Found(X, Option<usize>),
    /// The name to look up was never given, or has ended.
    Nothing,
    /// What was asked for stands.
    Done,
    /// The datum and the link that were taken away, and their name has ended.
    Removed(X, Option<usize>, bool),
    /// The name to act on was never given, or has ended, and nothing has changed.
    Invalid,
    /// No entry is left, and every name has ended.
    Cleared(bool),
    /// The entries stand at the first indexes, under the same names.
    Compacted(bool),
    /// A link's name has ended, so that nothing was moved.
    Unresolved,
    /// The link's name was never given, and nothing has changed.
    BadName,
    /// So many.
    Count(usize),
    /// The arena as text.
    Line(String),
    /// The counter stands at the greatest generation, and what was asked for would raise it. Nothing has
    /// changed. Strict sessions alone answer so.
    Exhausted,
}

impl<X> Reply<X> {
    /// Whether the reply tells that the counter wrapped. A run ends with such a reply.
    pub fn tells_of_wrap(&self) -> bool
        ensures { result ≡ tells_of_wrap self.now }
    {
        match self {
            Reply::Given(_, wrapped) => *wrapped,
            Reply::Removed(_, _, wrapped) => *wrapped,
            Reply::Cleared(wrapped) => *wrapped,
            Reply::Compacted(wrapped) => *wrapped,
            _ => false,
        }
    }
}

/// What the text of a reply but `Line` is made of: a word, its numbers, and whether it tells of a wrap.
#[derive(Clone, Copy)]
pub(crate) struct Parts(pub(crate) &'static str, pub(crate) Numbers, pub(crate) bool);

/// The numbers of a reply: none, one, or a datum and after a space the name of its link, or a dash.
#[derive(Clone, Copy)]
pub(crate) enum Numbers {
    Nothing,
    Number(u64),
    Linked(u64, Option<usize>),
}

/// The parts of a reply's text, or `Err`, the text of a `Line`, which may have any length.
#[inline(always)]
pub(crate) fn parts_of(reply: &Reply<u64>) -> Result<Parts, &str>
    ensures text { IfOk result (λ parts. parts.0.now ++ numbers_text parts.1
        ++ wrapped_text parts.2 ≡ reply_text reply.now) }
    ensures short { IfOk result (λ parts. length parts.0.now ≤ 20) }
    ensures shown { IfErr result (λ text. text.now ≡ reply_text reply.now) }
{
    let none = Numbers::Nothing;
    match reply {
        Reply::Given(name, wrapped) => {
            Ok(Parts("given ", Numbers::Number(*name as u64), *wrapped))
        }
        Reply::Full => Ok(Parts("full", none, false)),
        Reply::BeyondMaxCapacity => Ok(Parts("beyond max capacity", none, false)),
        Reply::NoMemory => Ok(Parts("no memory", none, false)),
        Reply::Found(datum, link) => Ok(Parts("found ", Numbers::Linked(*datum, *link), false)),
        Reply::Nothing => Ok(Parts("nothing", none, false)),
        Reply::Done => Ok(Parts("done", none, false)),
        Reply::Removed(datum, link, wrapped) => {
            Ok(Parts("removed ", Numbers::Linked(*datum, *link), *wrapped))
        }
        Reply::Invalid => Ok(Parts("invalid", none, false)),
        Reply::Cleared(wrapped) => Ok(Parts("cleared", none, *wrapped)),
        Reply::Compacted(wrapped) => Ok(Parts("compacted", none, *wrapped)),
        Reply::Unresolved => Ok(Parts("unresolved", none, false)),
        Reply::BadName => Ok(Parts("bad name", none, false)),
        Reply::Count(number) => Ok(Parts("count ", Numbers::Number(*number as u64), false)),
        Reply::Line(text) => Err(text.as_str()),
        Reply::Exhausted => Ok(Parts("exhausted", none, false)),
    }
}

/// A reply's text, without a line break: `found 10 -`. Numbers are decimal, no link is a dash,
/// and ` wrapped` follows where the reply tells of a wrap.
impl fmt::Display for Reply<u64> {
    ghost output = { λ reply. Some (reply_text reply) };

    fn fmt<W: fmt::Write>(&self, f: &mut fmt::Formatter<W>) -> fmt::Result {
        match parts_of(self) {
            Ok(Parts(word, numbers, wrapped)) => write!(f, "{word}{numbers}{}", Wrapped(wrapped)),
            Err(text) => f.write_str(text),
        }
    }
}

impl fmt::Display for Numbers {
    ghost output = { λ numbers. Some (numbers_text numbers) };

    fn fmt<W: fmt::Write>(&self, f: &mut fmt::Formatter<W>) -> fmt::Result {
        match self {
            Numbers::Nothing => Ok(()),
            Numbers::Number(number) => write!(f, "{number}"),
            Numbers::Linked(datum, Some(name)) => write!(f, "{datum} {name}"),
            Numbers::Linked(datum, None) => write!(f, "{datum} -"),
        }
    }
}

// What stands at the end of a reply that tells of a wrap.
#[derive(Clone, Copy)]
struct Wrapped(bool);

impl fmt::Display for Wrapped {
    ghost output = { λ this. Some (wrapped_text this.0) };

    fn fmt<W: fmt::Write>(&self, f: &mut fmt::Formatter<W>) -> fmt::Result {
        if self.0 {
            f.write_str(" wrapped")
        } else {
            Ok(())
        }
    }
}
