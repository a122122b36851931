//! What each command does to the arena of a session and its names.

ghost use Rattle.std.specs.Prelude.{◌≡◌, ◌≤◌, ◌==◌, true, false};
ghost use Rattle.std.specs.Option.{option_map};
ghost use Rattle.triple_arena_ptr.specs.Numbers.{greatest_index};
ghost use Rattle.triple_arena_traits.specs.Items.{item};
ghost use Rattle.triple_arena_traits.specs.ArenaState.{arena_len, capacity, map_values};
ghost use Rattle.triple_arena_traits.specs.Histories.{AreDistinct};
ghost use Rattle.triple_arena_session.specs.SessionState.{new_session, node_of, link_name, link_pointer};
ghost use Rattle.triple_arena_session.specs.SessionRun.{IsStep, refusal, refused_reply};
ghost use Rattle.triple_arena_session.specs.Shown.{IsSound};
ghost use Rattle.triple_arena_session.specs.StrictSession.{raises_counter, is_refused};
ghost use Rattle.triple_arena_session.specs.SessionLayout.{refuses};

use crate::node::Node;
use crate::session_arena::SessionArena;
use std::alloc::Global;
use std::fmt::Debug;
use std::marker::{Model, PhantomData};
use triple_arena::ArenaSlot;
use triple_arena_base::{CompactError, ReallocationError};
use triple_arena_commands::{Command, NameTable, Reply};
use triple_arena_ptr::{Ptr, PtrGen, PtrInx};
use triple_arena_stack::NonZeroInxGenericStack;

/// The arena of a session, and the table of the pointers that were given.
#[derive(Drop)]
pub(crate) struct NamedArena<
    P: Ptr,
    X,
    S: NonZeroInxGenericStack<ArenaSlot<P, Node<X, P>>>,
    A: SessionArena<P, Node<X, P>, S>,
> {
    pub(crate) arena: A,
    table: NameTable<P>,
    // For the replies of a run, for compactions and for texts.
    pub(crate) alloc: Global,
    of: PhantomData<(X, S)>,
}

impl<
    P: Ptr,
    X,
    S: NonZeroInxGenericStack<ArenaSlot<P, Node<X, P>>>,
    A: SessionArena<P, Node<X, P>, S>,
> Model for NamedArena<P, X, S, A> {
    ghost use Rattle.triple_arena_session.specs.SessionState.{SessionState};

    ghost Value = { SessionState X };

    ghost use Rattle.triple_arena_session.specs.SessionLayout.{session_of};

    ghost view = { λ s. session_of P.numbers (A.state s.arena) s.table.items s.table.room };
}

impl<
    P: Ptr,
    X: Copy,
    S: NonZeroInxGenericStack<ArenaSlot<P, Node<X, P>>>,
    A: SessionArena<P, Node<X, P>, S>,
> NamedArena<P, X, S, A> {
    /// Over this arena, without names; sound where it has no entry.
    pub(crate) fn over(arena: A, alloc: Global) -> Self
        ensures made { result ≡ new_session (map_values (node_of P.numbers) (A.state arena)) }
        ensures sound { arena_len (A.state arena) ≡ 0 → IsSound result }
    {
        NamedArena {
            arena,
            table: NameTable::new(alloc),
            alloc,
            of: PhantomData,
        }
    }

    /// Whether a command would raise a counter that stands at the greatest generation.
    pub(crate) fn is_refused(&self, command: Command<X>) -> bool
        ensures { result ≡ is_refused P.Gen.generations self.now command }
    {
        self.arena.is_at_greatest() && self.raises(command)
    }

    // Whether a command raises the counter where it succeeds.
    fn raises(&self, command: Command<X>) -> bool
        ensures { result ≡ raises_counter self.now command }
    {
        match command {
            Command::Remove(name) | Command::Invalidate(name) => match self.pointer(name) {
                Some(p) => self.arena.get(p).is_some(),
                None => false,
            },
            Command::Clear | Command::Compact => 0 < self.arena.len(),
            _ => false,
        }
    }

    /// The reply to a command that is not refused for want of a raise, and what it leaves. Whether it is
    /// known that no pointer stands twice in the table (`distinct`) makes a difference to time alone.
    pub(crate) fn reply(&mut self, command: Command<X>, distinct: bool) -> Reply<X>
    where
        X: Debug,
        requires allowed { refuses A.strict P.Gen.generations self.old command ≡ false }
        requires distinct { distinct ≡ true → AreDistinct self.old.table }
        ensures { IsStep S.kind S.has_memory P.Gen.generations self.old command result self.new }
    {
        match command {
            Command::Insert(datum, link) => self.insert(datum, link),
            Command::InsertWithin(datum, link) => self.insert_within(datum, link),
            Command::Get(name) => self.get(name, distinct),
            Command::Set(name, datum, link) => self.set(name, datum, link),
            Command::Remove(name) => self.remove(name, distinct),
            Command::Invalidate(name) => self.invalidate(name),
            Command::Clear => self.clear(),
            Command::Compact => self.compact(),
            Command::Len => Reply::Count(self.arena.len()),
            Command::Capacity => Reply::Count(self.arena.capacity()),
            Command::Reserve(count) => self.reserve(count),
            Command::Show => self.show(),
        }
    }

    fn insert(&mut self, datum: X, link: Option<usize>) -> Reply<X>
        ensures { IsStep S.kind S.has_memory P.Gen.generations
            self.old (Command.Insert datum link) result self.new }
    {
        let Some(target) = self.link_pointer(link) else {
            return Reply::BadName;
        };
        // Asked before the table makes room, since nothing is to change then.
        if let Some(why) = self.refusal() {
            return refused_reply(why);
        }
        let Ok(()) = self.table.make_room() else {
            return Reply::NoMemory;
        };
        let node = Node {
            datum,
            link: target,
        };
        match self.arena.insert(node) {
            Ok(p) => Reply::Given(self.table.push(p, link), false),
            Err(_) => Reply::NoMemory,
        }
    }

    fn insert_within(&mut self, datum: X, link: Option<usize>) -> Reply<X>
        ensures { IsStep S.kind S.has_memory P.Gen.generations
            self.old (Command.InsertWithin datum link) result self.new }
    {
        let Some(target) = self.link_pointer(link) else {
            return Reply::BadName;
        };
        if self.is_full() {
            return Reply::Full;
        }
        let Ok(()) = self.table.make_room() else {
            return Reply::NoMemory;
        };
        let p = self.arena.insert_reserved(Node {
            datum,
            link: target,
        });
        Reply::Given(self.table.push(p, link), false)
    }

    fn get(&self, name: usize, distinct: bool) -> Reply<X>
        requires { distinct ≡ true → AreDistinct self.now.table }
        ensures { IsStep S.kind S.has_memory P.Gen.generations
            self.now (Command.Get name) result self.now }
    {
        let Some(p) = self.pointer(name) else {
            return Reply::Nothing;
        };
        match self.arena.get(p) {
            Some(node) => Reply::Found(node.datum, self.link_name(name, node.link, distinct)),
            None => Reply::Nothing,
        }
    }

    fn set(&mut self, name: usize, datum: X, link: Option<usize>) -> Reply<X>
        ensures { IsStep S.kind S.has_memory P.Gen.generations
            self.old (Command.Set name datum link) result self.new }
    {
        let Some(target) = self.link_pointer(link) else {
            return Reply::BadName;
        };
        let Some(p) = self.pointer(name) else {
            return Reply::Invalid;
        };
        let node = Node {
            datum,
            link: target,
        };
        if !self.arena.put(p, node) {
            return Reply::Invalid;
        }
        self.table.note_link(name, link);
        Reply::Done
    }

    fn remove(&mut self, name: usize, distinct: bool) -> Reply<X>
        requires allowed { refuses A.strict P.Gen.generations
            self.old (Command.Remove name) ≡ false }
        requires distinct { distinct ≡ true → AreDistinct self.old.table }
        ensures { IsStep S.kind S.has_memory P.Gen.generations
            self.old (Command.Remove name) result self.new }
    {
        let Some(p) = self.pointer(name) else {
            return Reply::Invalid;
        };
        let (taken, wrapped) = self.arena.remove(p).overflowing();
        match taken {
            Some(node) => Reply::Removed(
                node.datum,
                self.link_name(name, node.link, distinct),
                wrapped,
            ),
            None => Reply::Invalid,
        }
    }

    fn invalidate(&mut self, name: usize) -> Reply<X>
        requires { refuses A.strict P.Gen.generations
            self.old (Command.Invalidate name) ≡ false }
        ensures { IsStep S.kind S.has_memory P.Gen.generations
            self.old (Command.Invalidate name) result self.new }
    {
        let Some(p) = self.pointer(name) else {
            return Reply::Invalid;
        };
        let Some(_) = self.arena.get(p) else {
            return Reply::Invalid;
        };
        let Ok(()) = self.table.make_room() else {
            return Reply::NoMemory;
        };
        let link = self.table.hint(name);
        let (answer, wrapped) = self.arena.invalidate(p).overflowing();
        match answer {
            Some(renewed) => Reply::Given(self.table.push(renewed, link), wrapped),
            None => Reply::Invalid,
        }
    }

    fn clear(&mut self) -> Reply<X>
        requires { refuses A.strict P.Gen.generations self.old Command.Clear ≡ false }
        ensures { IsStep S.kind S.has_memory P.Gen.generations
            self.old Command.Clear result self.new }
    {
        let ((), wrapped) = self.arena.clear().overflowing();
        Reply::Cleared(wrapped)
    }

    fn compact(&mut self) -> Reply<X>
        requires { refuses A.strict P.Gen.generations self.old Command.Compact ≡ false }
        ensures { IsStep S.kind S.has_memory P.Gen.generations
            self.old Command.Compact result self.new }
    {
        match self.arena.compress_recast(self.alloc) {
            Ok(answer) => {
                let (renaming, wrapped) = answer.overflowing();
                self.table.rename(&renaming);
                Reply::Compacted(wrapped)
            }
            Err(CompactError::Unresolved(_)) => Reply::Unresolved,
            Err(CompactError::Reallocation(_)) => Reply::NoMemory,
        }
    }

    fn reserve(&mut self, count: usize) -> Reply<X>
        ensures { IsStep S.kind S.has_memory P.Gen.generations
            self.old (Command.Reserve count) result self.new }
    {
        // The greatest index of the arena is that of its pointers.
        let _capacity = self.arena.capacity();
        match self.arena.reallocate_min_capacity(count) {
            Ok(()) => Reply::Done,
            Err(why) => refused_reply(why),
        }
    }

    fn show(&self) -> Reply<X>
    where
        X: Debug,
        ensures { IsStep S.kind S.has_memory P.Gen.generations
            self.now Command.Show result self.now }
    {
        match format!(in self.alloc; "{:?}", self.arena.arena()) {
            Ok(text) => Reply::Line(text),
            Err(_) => Reply::NoMemory,
        }
    }

    // Why the arena cannot take one more entry, whatever memory there is.
    fn refusal(&self) -> Option<ReallocationError>
        ensures why { result ≡ refusal self.now.arena }
        ensures fits { arena_len self.now.arena ≤ capacity self.now.arena }
        ensures greatest { self.now.arena.greatest ≡ greatest_index P.Inx.greatest }
    {
        let capacity = self.arena.capacity();
        if self.arena.len() < capacity {
            return None;
        }
        match self.arena.max_capacity() {
            Some(limit) if limit <= capacity => Some(ReallocationError::BeyondMaxCapacity),
            _ if capacity == P::Inx::max_index().get() => Some(ReallocationError::AllocError),
            _ => None,
        }
    }

    // Whether the arena has as many entries as fit without growth.
    fn is_full(&self) -> bool
        ensures full { result ≡ (arena_len self.now.arena == capacity self.now.arena) }
        ensures fits { arena_len self.now.arena ≤ capacity self.now.arena }
    {
        self.arena.len() == self.arena.capacity()
    }

    // The pointer of a name, if it was given.
    fn pointer(&self, name: usize) -> Option<P>
        ensures { option_map P.numbers result ≡ item self.now.table name }
    {
        self.table.pointer(name)
    }

    // The pointer of a link, or none if the link is to a name that was never given.
    fn link_pointer(&self, link: Option<usize>) -> Option<Option<P>>
        ensures { option_map (option_map P.numbers) result ≡ link_pointer self.now.table link }
    {
        match link {
            Some(name) => self.pointer(name).map(Some),
            None => Some(None),
        }
    }

    // The name of the pointer of a link that the entry of a name has. Where it is known that no pointer
    // stands twice in the table, it is found at once if the table has the right hint, and else by
    // looking through the table.
    fn link_name(&self, name: usize, link: Option<P>, distinct: bool) -> Option<usize>
        requires { distinct ≡ true → AreDistinct self.now.table }
        ensures { result ≡ link_name self.now.table (option_map P.numbers link) }
    {
        let p = link?;
        match self.table.hinted_name(name, p) {
            Some(target) if distinct => Some(target),
            _ => self.table.name(p),
        }
    }
}

// The reply where the arena can't have so many entries, or memory was refused.
fn refused_reply<X>(why: ReallocationError) -> Reply<X>
    ensures { result ≡ refused_reply why }
{
    match why {
        ReallocationError::BeyondMaxCapacity => Reply::BeyondMaxCapacity,
        ReallocationError::AllocError => Reply::NoMemory,
    }
}
