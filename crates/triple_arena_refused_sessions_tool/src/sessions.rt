//! Sessions: each command that may be refused memory.

use arrayvec::ArrayString;
use std::alloc::Global;
use std::fmt::Write as _;
use std::io::{Read, Write};
use triple_arena::{Arena, ArenaSlot, ArenaTrait};
use triple_arena_ptr::{P0, Ptr};
use triple_arena_refused_kit::{End, FreeList, Report, SLOTS, Wrong, free_of};
use triple_arena_session::{
    BeginsOver, Command, Node, Reply, Session, StrictSession, TextError, parse_command, run_text,
    run_text_strict,
};
use triple_arena_stack::{
    NonZeroInxArray, NonZeroInxBoxedSlice, NonZeroInxGenericStack, NonZeroInxLimitedVec,
};
use triple_arena_test_kit::{index_number, inx};

type Slot = ArenaSlot<P0, Node<u64, P0>>;

type Limited = NonZeroInxLimitedVec<Slot>;

type Fixed = NonZeroInxBoxedSlice<Slot>;

type InArray = NonZeroInxArray<Slot, 8>;

/// The arena of a session.
type Entries<S> = Arena<P0, Node<u64, P0>, S>;

/// What stands under a name.
pub type Row = Option<(u64, Option<usize>)>;

/// A session of numbers, of any kind.
pub trait Asked {
    /// The reply to a command.
    fn answer(&mut self, command: Command<u64>) -> Reply<u64>;

    /// The replies of a run of commands, if there is memory for them.
    fn answers(&mut self, commands: &[Command<u64>]) -> Option<Vec<Reply<u64>>>;

    /// How a run of what a reader gives ends, whose lines a writer takes.
    fn runs<R: Read, W: Write>(
        &mut self,
        alloc: Global,
        input: &mut R,
        output: &mut W,
    ) -> Result<(), TextError>;

    /// How many entries there are, for how many there is room, and the generation of the counter.
    fn extent(&self) -> (usize, usize, u64);

    /// The free list.
    fn free(&self) -> FreeList;

    /// The index of the last entry, and 0 where there is none.
    fn last_index(&self) -> usize;

    /// The limit, how many slots there are, and by index the generations and the numbers of the first
    /// entries.
    fn layout(&self) -> Layout;
}

/// The limit, how many slots there are, and by index the generations and the numbers of the first entries.
type Layout = (Option<usize>, usize, [Option<(u64, u64)>; 13]);

impl<S: NonZeroInxGenericStack<Slot>> Asked for Session<P0, u64, S> {
    fn answer(&mut self, command: Command<u64>) -> Reply<u64> {
        self.step(command)
    }

    fn answers(&mut self, commands: &[Command<u64>]) -> Option<Vec<Reply<u64>>> {
        self.run(commands).ok()
    }

    fn runs<R: Read, W: Write>(
        &mut self,
        alloc: Global,
        input: &mut R,
        output: &mut W,
    ) -> Result<(), TextError> {
        run_text(self, alloc, input, output)
    }

    fn extent(&self) -> (usize, usize, u64) {
        extent_of(self.arena())
    }

    fn free(&self) -> FreeList {
        free_of(self.arena())
    }

    fn last_index(&self) -> usize {
        last_index_of(self.arena())
    }

    fn layout(&self) -> Layout {
        layout_of(self.arena())
    }
}

impl<S: NonZeroInxGenericStack<Slot>> Asked for StrictSession<P0, u64, S> {
    fn answer(&mut self, command: Command<u64>) -> Reply<u64> {
        self.step(command)
    }

    fn answers(&mut self, commands: &[Command<u64>]) -> Option<Vec<Reply<u64>>> {
        self.run(commands).ok()
    }

    fn runs<R: Read, W: Write>(
        &mut self,
        alloc: Global,
        input: &mut R,
        output: &mut W,
    ) -> Result<(), TextError> {
        run_text_strict(self, alloc, input, output)
    }

    fn extent(&self) -> (usize, usize, u64) {
        extent_of(self.arena().arena())
    }

    fn free(&self) -> FreeList {
        free_of(self.arena().arena())
    }

    fn last_index(&self) -> usize {
        last_index_of(self.arena().arena())
    }

    fn layout(&self) -> Layout {
        layout_of(self.arena().arena())
    }
}

fn extent_of<S: NonZeroInxGenericStack<Slot>>(arena: &Entries<S>) -> (usize, usize, u64) {
    (arena.len(), arena.capacity(), arena.generation().get())
}

fn last_index_of<S: NonZeroInxGenericStack<Slot>>(arena: &Entries<S>) -> usize {
    match arena.find_last_inx_ptr() {
        Some(p) => index_number(p.inx()),
        None => 0,
    }
}

fn layout_of<S: NonZeroInxGenericStack<Slot>>(arena: &Entries<S>) -> Layout {
    let mut entries = [None; 13];
    for index in 1..13 {
        if let Some((generation, node)) = arena.get_inx(inx(index)) {
            entries[index] = Some((generation.get(), node.datum));
        }
    }
    (
        arena.max_capacity(),
        arena.backing().as_slice().len(),
        entries,
    )
}

/// All that a session of at most twelve names shows of itself.
#[derive(Clone, Copy, PartialEq)]
pub struct View {
    pub names: [Row; 13],
    pub extent: (usize, usize, u64),
    pub free: FreeList,
    layout: Layout,
}

pub fn seen<T: Asked>(session: &mut T) -> View {
    let mut names = [None; 13];
    for name in 0..13 {
        if let Reply::Found(datum, link) = session.answer(Command::Get(name)) {
            names[name] = Some((datum, link));
        }
    }
    View {
        names,
        extent: session.extent(),
        free: session.free(),
        layout: session.layout(),
    }
}

// A view once its free list is tidied: rising, and without those past the last entry.
fn tidied(before: View, last_index: usize) -> View {
    let mut free = [0; SLOTS];
    let mut place = 0;
    for index in 1..=last_index {
        if before.free.contains(index) && place < SLOTS {
            free[place] = index;
            place += 1;
        }
    }
    let (limit, _slots, entries) = before.layout;
    let layout = (limit, last_index, entries);
    View {
        free: FreeList::Indexes(free),
        layout,
        ..before
    }
}

// Whether this, which has 64 bytes at most, is the text of a reply. It takes no memory.
fn says(reply: &Reply<u64>, text: &str) -> bool {
    let mut written: ArrayString<64> = ArrayString::new();
    written.write(reply).is_ok() && written.as_str() == text
}

// The word of a line.
fn word_of(line: &'static str) -> &'static str {
    match line.split_once(' ') {
        Some((word, _rest)) => word,
        None => line,
    }
}

// A line and the text of its reply. Memory may be refused first, and then names, entries, length,
// capacity, counter and free list are as they were; a reservation has tidied the last.
fn answers<T: Asked>(session: &mut T, line: &'static str, text: &str) -> Result<End, Wrong> {
    let Some(command) = parse_command(line.as_bytes()) else {
        return Err(Wrong::Text(line));
    };
    let before = seen(session);
    let left = match command {
        Command::Reserve(_) => tidied(before, session.last_index()),
        _ => before,
    };
    let mut reply = session.answer(command);
    let mut end = End::Ample;
    if reply == Reply::NoMemory {
        if seen(session) != left {
            return Err(Wrong::Text(line));
        }
        reply = session.answer(command);
        end = End::Refused;
    }
    if says(&reply, text) {
        Ok(end)
    } else {
        Err(Wrong::Text(line))
    }
}

// Lines and the texts of their replies, where there is room for up to eight entries.
const ROWS: &[(&str, &str)] = &[
    ("insert 1 -", "given 1"),
    ("reserve 6", "done"),
    ("within 2 1", "given 2"),
    (
        "show",
        "{P0[1](2): (1, None), P0[2](2): (2, Some(P0[1](2)))}",
    ),
    ("insert 3 -", "given 3"),
    ("insert 4 -", "given 4"),
    ("remove 2", "removed 2 1"),
    ("remove 3", "removed 3 -"),
    // the free indexes are 3 and 2, in this order
    ("show", "{P0[1](2): (1, None), P0[4](2): (4, None)}"),
    ("invalidate 1", "given 5"),
    ("within 5 1", "given 6"),
    ("insert 6 -", "given 7"),
    ("insert 7 -", "given 8"),
    ("remove 7", "removed 6 -"),
    ("remove 4", "removed 4 -"),
    // 4 and 2
    ("compact", "unresolved"),
    ("within 8 -", "given 9"),
    ("remove 6", "removed 5 1"),
    // 3 and 2
    ("reserve 7", "done"),
    ("set 8 7 5", "done"),
    ("remove 9", "removed 8 -"),
    // 4, 2 and 3
    ("compact", "compacted"),
    (
        "show",
        "{P0[1](a): (1, None), P0[2](a): (7, Some(P0[1](a)))}",
    ),
    ("get 8", "found 7 5"),
    ("reserve 2", "done"),
    ("insert 9 5", "given 10"),
    ("clear", "cleared"),
    ("show", "{}"),
];

// Each row, in a session of this kind. A text that is shown is on the heap, whatever the session's
// stack is, so that a session in an array need not show it.
fn each_row<T: Asked>(session: &mut T, kind: &'static str, shows: bool, report: &mut Report) {
    for (line, text) in ROWS {
        let word = word_of(*line);
        if shows || word != "show" {
            report.note(word, kind, answers(session, *line, *text));
        }
    }
}

// A session is made with room for eight.
fn has_room(alloc: Global) -> Result<End, Wrong> {
    let session: Session<P0, u64> = Session::with_min_capacity(alloc, 8)?;
    is_empty_with_eight(session.extent())
}

fn strict_has_room(alloc: Global) -> Result<End, Wrong> {
    let session: StrictSession<P0, u64> = StrictSession::with_min_capacity(alloc, 8)?;
    is_empty_with_eight(session.extent())
}

// That a session has no entry, room for eight, and the first counter.
fn is_empty_with_eight(extent: (usize, usize, u64)) -> Result<End, Wrong> {
    if extent == (0, 8, 2) {
        Ok(End::Ample)
    } else {
        Err(Wrong::State(0))
    }
}

// Each row but `show` in a session of room for eight, where that could be made: up to a limit, and of fixed room. Each
// names its type: one that is generic in its stack can't be dropped.
fn each_row_limited(alloc: Global, report: &mut Report) {
    let kind = "a session under a limit";
    let mut arena: Entries<Limited> = Arena::new(alloc);
    match arena.set_max_capacity(8) {
        Ok(()) => each_row(&mut Session::new(arena, alloc), kind, false, report),
        Err(_refused) => report.note("made", kind, Err(Wrong::Answer(0))),
    }
}

fn each_row_fixed(alloc: Global, report: &mut Report) {
    let kind = "a session of fixed room";
    match Session::<P0, u64, Fixed>::with_min_capacity(alloc, 8) {
        Ok(mut session) => each_row(&mut session, kind, false, report),
        Err(_refused) => report.note("made", kind, Err(Wrong::NoMemory)),
    }
}

fn each_row_strict_limited(alloc: Global, report: &mut Report) {
    let kind = "a limited strict session";
    match StrictSession::<P0, u64, Limited>::with_min_capacity(alloc, 8) {
        Ok(mut session) => each_row(&mut session, kind, false, report),
        Err(_refused) => report.note("made", kind, Err(Wrong::NoMemory)),
    }
}

fn each_row_strict_fixed(alloc: Global, report: &mut Report) {
    let kind = "a strict session of fixed room";
    match StrictSession::<P0, u64, Fixed>::with_min_capacity(alloc, 8) {
        Ok(mut session) => each_row(&mut session, kind, false, report),
        Err(_refused) => report.note("made", kind, Err(Wrong::NoMemory)),
    }
}

// The rows in sessions over each stack.
fn each_general(alloc: Global, report: &mut Report) {
    let mut session: Session<P0, u64> = Session::with_new_arena(alloc);
    each_row(&mut session, "a session", true, report);
    each_row_limited(alloc, report);
    each_row_fixed(alloc, report);
    let mut session: Session<P0, u64, InArray> = Session::with_new_arena(alloc);
    each_row(&mut session, "a session in an array", false, report);
}

// The rows in strict sessions over each stack.
fn each_strict(alloc: Global, report: &mut Report) {
    let mut session: StrictSession<P0, u64> = StrictSession::with_new_arena(alloc);
    each_row(&mut session, "a strict session", true, report);
    each_row_strict_limited(alloc, report);
    each_row_strict_fixed(alloc, report);
    let mut session: StrictSession<P0, u64, InArray> = StrictSession::with_new_arena(alloc);
    each_row(&mut session, "a strict session in an array", false, report);
}

pub fn try_each(alloc: Global, report: &mut Report) {
    each_general(alloc, report);
    each_strict(alloc, report);
    let (call, made, made_strictly) = ("no call", has_room(alloc), strict_has_room(alloc));
    report.note(call, "a session with room", made);
    report.note(call, "a strict session with room", made_strictly);
}
