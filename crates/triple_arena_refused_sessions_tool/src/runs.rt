//! Runs of commands and of texts: they are refused as a whole, before anything has run, or one
//! command is.

use crate::sessions::{Asked, View, seen};
use std::alloc::Global;
use std::io;
use std::io::{Cursor, Read};
use triple_arena_ptr::P0;
use triple_arena_refused_kit::{End, Report, Wrong, free_indexes};
use triple_arena_session::{Command, Reply, Session, StrictSession, TextError};

// What was refused where nothing has run.
const WHOLE: &str = "all";

// Three names, of which the second has ended, in a new session.
fn three_names<T: Asked>(session: &mut T) -> Result<(), Wrong> {
    for command in [
        Command::Insert(1, None),
        Command::Insert(2, Some(1)),
        Command::Insert(3, None),
        Command::Remove(2),
    ] {
        if session.answer(command) == Reply::NoMemory {
            return Err(Wrong::NoMemory);
        }
    }
    Ok(())
}

// Four insertions and a question, of which one may be refused.
const COMMANDS: [Command<u64>; 5] = [
    Command::Insert(4, None),
    Command::Insert(5, Some(1)),
    Command::Insert(6, Some(1)),
    Command::Insert(7, Some(1)),
    Command::Len,
];

// How the commands ended of which these are the replies, in a session of three names that looked
// so. What was inserted has the next names in turn; four places grew to eight.
fn has_run<T: Asked>(session: &mut T, before: &View, replies: &[Reply<u64>]) -> Result<End, Wrong> {
    let mut names = before.names;
    let mut given = 3usize;
    for (command, reply) in COMMANDS.iter().zip(replies) {
        let next = given.saturating_add(1);
        if let Command::Insert(datum, link) = command {
            if next < names.len() && *reply == Reply::Given(next, false) {
                names[next] = Some((*datum, *link));
                given = next;
            } else if *reply != Reply::NoMemory {
                return Err(Wrong::Answer(next));
            }
        }
    }
    let len = given.saturating_sub(1);
    let left = seen(session);
    let is_left = left.names == names
        && left.extent == (len, 8, 3)
        && left.free == free_indexes(&[]);
    let is_counted = replies.len() == 5 && replies.get(4) == Some(&Reply::Count(len));
    match given {
        7 if is_counted && is_left => Ok(End::Ample),
        6 if is_counted && is_left => Ok(End::Refused),
        _ => Err(Wrong::State(given)),
    }
}

// The commands run, and once more where there was no memory to begin, which has changed nothing.
fn runs_commands<T: Asked>(session: &mut T) -> Result<End, Wrong> {
    three_names(session)?;
    let before = seen(session);
    if let Some(replies) = session.answers(&COMMANDS) {
        return has_run(session, &before, replies.as_slice());
    }
    if seen(session) != before {
        return Err(Wrong::State(0));
    }
    match session.answers(&COMMANDS) {
        Some(replies) if has_run(session, &before, replies.as_slice())? == End::Ample => {
            Ok(End::PartRefused(WHOLE))
        }
        _ => Err(Wrong::Answer(0)),
    }
}

/// Gives a text in pieces, so that room for it is asked for more than once.
#[derive(Drop)]
struct Pieces {
    rest: &'static [u8],
}

impl Read for Pieces {
    fn read(&mut self, buf: &mut [u8]) -> io::Result<usize> {
        let size = buf.len().min(5);
        self.rest.read(&mut buf[..size])
    }
}

/// A text, and the lines of its replies, of which one may tell that memory was refused.
#[derive(Drop)]
struct Text {
    name: &'static str,
    // Whether a command of it asks for memory; then none gives a name, ends one or writes under one.
    takes_memory: bool,
    text: &'static [u8],
    lines: &'static [u8],
}

// Each text asks for memory while it is read. A reply line asks for none, and what `show` writes is
// made in its step, so that its line alone tells that memory was refused, and those after it stand.
const TAKES_NONE: Text = Text {
    name: "a text whose commands take none",
    takes_memory: false,
    text: b"get 1\nlen\ncapacity\ninsert 4 1\nset 1 5 4\nget 4\nget 9\nremove 3\n\
        clear\ncompact\nset 1 1 77\nreserve 4\n",
    lines: b"found 1 -\ncount 2\ncount 4\ngiven 4\ndone\nfound 4 1\nnothing\nremoved 3 -\n\
        cleared\ncompacted\nbad name\ndone\n",
};

const TAKES_MEMORY: Text = Text {
    name: "a text whose commands take memory",
    takes_memory: true,
    text: b"len\nshow\nreserve 9\ncompact\nget 3\n",
    lines: b"count 2\n{P0[1](2): (1, None), P0[3](2): (3, None)}\ndone\ncompacted\nfound 3 -\n",
};

// How many of these lines tell of refused memory where others are wanted; none if another one
// differs.
fn refused_lines(written: &[u8], wanted: &[u8]) -> Option<usize> {
    let mut lines = written.split(|byte| *byte == b'\n');
    let mut refused = 0;
    for wanted_line in wanted.split(|byte| *byte == b'\n') {
        let line = lines.next()?;
        if line == b"no memory".as_slice() {
            refused = 1usize.saturating_add(refused);
        } else if line != wanted_line {
            return None;
        }
    }
    match lines.next() {
        Some(_line) => None,
        None => Some(refused),
    }
}

/// How a text ended.
#[derive(Clone, Copy)]
pub enum Ended {
    /// So many of its lines tell of refused memory.
    Whole(usize),
    /// Memory was refused, and nothing was written.
    Unwritten,
    Otherwise,
}

impl Text {
    // How it ends in a session.
    fn ends_in<T: Asked>(&self, alloc: Global, session: &mut T) -> Ended {
        let mut input = Pieces { rest: self.text };
        let mut output = Cursor::new([0u8; 256]);
        let outcome = session.runs(alloc, &mut input, &mut output);
        let size = (output.position() as usize).min(256);
        match (
            outcome,
            refused_lines(&output.get_ref()[..size], self.lines),
        ) {
            (Ok(()), Some(refused)) => Ended::Whole(refused),
            (Err(TextError::NoMemory), _) if size == 0 => Ended::Unwritten,
            _ => Ended::Otherwise,
        }
    }

    // In a session of three names, and once more where nothing has run.
    fn runs_in<T: Asked>(&self, alloc: Global, session: &mut T) -> Result<End, Wrong> {
        three_names(session)?;
        let before = seen(session);
        match self.ends_in(alloc, session) {
            Ended::Whole(0) => return Ok(End::Ample),
            Ended::Whole(1) if self.takes_memory && seen(session).names == before.names => {
                return Ok(End::Refused);
            }
            Ended::Unwritten if seen(session) == before => {}
            _ => return Err(Wrong::Text(self.name)),
        }
        match self.ends_in(alloc, session) {
            Ended::Whole(0) => Ok(End::PartRefused(WHOLE)),
            _ => Err(Wrong::Text(self.name)),
        }
    }
}

/// What runs in a session of three names: the commands, or a text.
#[derive(Clone, Copy)]
enum Run {
    Commands,
    Text(&'static Text),
}

impl Run {
    fn runs_in<T: Asked>(self, alloc: Global, session: &mut T) -> Result<End, Wrong> {
        match self {
            Run::Commands => runs_commands(session),
            Run::Text(text) => text.runs_in(alloc, session),
        }
    }

    fn runs(self, alloc: Global) -> Result<End, Wrong> {
        let mut session: Session<P0, u64> = Session::with_new_arena(alloc);
        self.runs_in(alloc, &mut session)
    }

    fn runs_strictly(self, alloc: Global) -> Result<End, Wrong> {
        let mut session: StrictSession<P0, u64> = StrictSession::with_new_arena(alloc);
        self.runs_in(alloc, &mut session)
    }
}

pub fn try_each(alloc: Global, report: &mut Report) {
    let (none, memory) = (Run::Text(&TAKES_NONE), Run::Text(&TAKES_MEMORY));
    report.note("run", "a session", Run::Commands.runs(alloc));
    report.note(
        "run",
        "a strict session",
        Run::Commands.runs_strictly(alloc),
    );
    report.note("run_text", TAKES_NONE.name, none.runs(alloc));
    report.note("run_text", TAKES_MEMORY.name, memory.runs(alloc));
    report.note(
        "run_text_strict",
        TAKES_MEMORY.name,
        memory.runs_strictly(alloc),
    );
}
