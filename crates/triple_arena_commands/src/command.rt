//! Commands, and the lines that stand for them.

ghost use Rattle.std.specs.Prelude.{◌≡◌, ◌∷◌, ℕ, List, Some, codes};
ghost use Rattle.triple_arena_commands.specs.Lines.{words_of};
ghost use Rattle.triple_arena_commands.specs.CommandText.{number_of, link_of, bare_of, numbered, linked, set_of, command_of_words, command_of, IsOtherVerb, HasOtherVerb};

use crate::splitting::split_first;
use crate::words::{parse_link, parse_number, read_link, read_number};

/// One command of a session. Names are numbers from 1, in the order of giving.
#[derive(Clone, Copy, Debug, PartialEq, Eq)]
pub enum Command<X> {
    /// Keeps a datum, with a link to a name that was given, or with none, under a new name.
    Insert(X, Option<usize>),
    /// Keeps a datum and a link under a new name, where the arena needn't grow for it.
    InsertWithin(X, Option<usize>),
    /// Looks up the datum and the link under a name.
    Get(usize),
    /// Puts another datum and another link under a name.
    Set(usize, X, Option<usize>),
    /// Takes away the datum and the link under a name, and ends the name.
    Remove(usize),
    /// Keeps the datum and the link of a name under a new name, and ends the old one.
    Invalidate(usize),
    /// Takes away all data, and ends all names.
    Clear,
    /// Moves the data together, to the first indexes. Names and links stay.
    Compact,
    /// Counts the data.
    Len,
    /// Tells how many data fit without growth.
    Capacity,
    /// Makes room for so many data, and gives back what room it can past them and the last entry.
    Reserve(usize),
    /// Writes the arena as text.
    Show,
}

/// The command that a line stands for, given without its line break, with one space between words:
///
/// - `insert N L`, `within N L`, a datum and a link;
/// - `set N N L`, a name, a datum and a link;
/// - `get N`, `remove N`, `invalidate N`, a name, and `reserve N`, a number of entries;
/// - `clear`, `compact`, `len`, `capacity` and `show`.
///
/// A number `N` is one or more decimal digits, of a value of at most `u64::MAX`, and a link `L`
/// is a dash or a number. `None` exactly where the line has none of these forms.
#[inline(always)]
pub fn parse_command(line: &[u8]) -> Option<Command<u64>>
    ensures { result ≡ command_of line.now }
{
    // These three are told by their first bytes, which is quicker; `parse_other` tells the other verbs.
    if let Some(name) = line.strip_prefix(b"get ") {
        Some(Command::Get(parse_number(name)? as usize))
    } else if let Some(rest) = line.strip_prefix(b"insert ") {
        parse_insertion(rest)
    } else if let Some(name) = line.strip_prefix(b"remove ") {
        Some(Command::Remove(parse_number(name)? as usize))
    } else {
        parse_other(line)
    }
}

// The command of the words after the verb `insert`.
#[inline(always)]
fn parse_insertion(rest: &[u8]) -> Option<Command<u64>>
    ensures { result ≡ command_of_words (codes "insert" ∷ words_of rest.now) }
{
    let (datum, after_datum) = read_number(rest)?;
    let link = parse_link(after_datum?)?;
    Some(Command::Insert(datum, link))
}

// The command of a line whose verb, where words follow it, is another than those three.
fn parse_other(line: &[u8]) -> Option<Command<u64>>
    requires { HasOtherVerb line.now }
    ensures { result ≡ command_of line.now }
{
    let (verb, after_verb) = split_first(line, b' ');
    match after_verb {
        None => parse_bare(verb),
        Some(rest) => parse_arguments(verb, rest),
    }
}

// The command of such a verb and the words after it.
#[inline(always)]
fn parse_arguments(verb: &[u8], rest: &[u8]) -> Option<Command<u64>>
    requires { IsOtherVerb verb.now }
    ensures { result ≡ command_of_words (verb.now ∷ words_of rest.now) }
{
    let (first, after_first) = read_number(rest)?;
    match after_first {
        None => parse_numbered(verb, first as usize),
        Some(rest) => parse_after_first(verb, first, rest),
    }
}

// The command of such a verb, a word that writes this number, and the words after it.
#[inline(always)]
fn parse_after_first(verb: &[u8], first: u64, rest: &[u8]) -> Option<Command<u64>>
    requires { IsOtherVerb verb.now }
    ensures { (word : List ℕ) → number_of word ≡ Some first
        → result ≡ command_of_words (verb.now ∷ word ∷ words_of rest.now) }
{
    let (second, after_second) = read_link(rest)?;
    match after_second {
        None => parse_within(verb, first, second),
        Some(rest) => parse_after_second(verb, first as usize, second, rest),
    }
}

// The command of a verb, two words that write this name and this link, and the words after them. A link
// that is there writes a datum, too.
#[inline(always)]
fn parse_after_second(
    verb: &[u8],
    name: usize,
    second: Option<usize>,
    rest: &[u8],
) -> Option<Command<u64>>
    ensures { (first word : List ℕ) → number_of first ≡ Some name → link_of word ≡ Some second
        → result ≡ command_of_words (verb.now ∷ first ∷ word ∷ words_of rest.now) }
{
    let datum = second? as u64;
    let (link, after_third) = read_link(rest)?;
    match after_third {
        None => parse_set(verb, name, datum, link),
        Some(_) => None,
    }
}

// The command of a verb that stands alone.
#[inline(always)]
fn parse_bare(verb: &[u8]) -> Option<Command<u64>>
    ensures { result ≡ bare_of verb.now }
{
    if verb == b"clear".as_slice() {
        Some(Command::Clear)
    } else if verb == b"compact".as_slice() {
        Some(Command::Compact)
    } else if verb == b"len".as_slice() {
        Some(Command::Len)
    } else if verb == b"capacity".as_slice() {
        Some(Command::Capacity)
    } else if verb == b"show".as_slice() {
        Some(Command::Show)
    } else {
        None
    }
}

// The command of such a verb before a number.
#[inline(always)]
fn parse_numbered(verb: &[u8], number: usize) -> Option<Command<u64>>
    requires { IsOtherVerb verb.now }
    ensures { result ≡ numbered verb.now number }
{
    if verb == b"invalidate".as_slice() {
        Some(Command::Invalidate(number))
    } else if verb == b"reserve".as_slice() {
        Some(Command::Reserve(number))
    } else {
        None
    }
}

// The command of such a verb before a datum and a link.
#[inline(always)]
fn parse_within(verb: &[u8], datum: u64, link: Option<usize>) -> Option<Command<u64>>
    requires { IsOtherVerb verb.now }
    ensures { result ≡ linked verb.now datum link }
{
    if verb == b"within".as_slice() {
        Some(Command::InsertWithin(datum, link))
    } else {
        None
    }
}

// The command of a verb before a name, a datum and a link.
#[inline(always)]
fn parse_set(verb: &[u8], name: usize, datum: u64, link: Option<usize>) -> Option<Command<u64>>
    ensures { result ≡ set_of verb.now (Some name) (Some datum) (Some link) }
{
    if verb == b"set".as_slice() {
        Some(Command::Set(name, datum, link))
    } else {
        None
    }
}
