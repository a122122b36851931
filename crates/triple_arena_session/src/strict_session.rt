//! Strict sessions: sessions that refuse what would wrap the counter of their arena.

ghost use Rattle.std.specs.Prelude.{◌≡◌, ◌-◌, ◌≤◌, ◌↔◌, [], IfOk, OnOk, OnErr, IsOk, true, false};
ghost use Rattle.std.specs.List.{list_all, list_any};
ghost use Rattle.triple_arena_ptr.specs.Numbers.{greatest_index, first_generation};
ghost use Rattle.triple_arena_stack.specs.StackKind.{new_room, new_limit, made_room, made_limit, CanHold, TakesNoMemory};
ghost use Rattle.triple_arena_traits.specs.ArenaState.{new_arena, map_values};
ghost use Rattle.triple_arena_traits.specs.Walks.{keys};
ghost use Rattle.triple_arena_traits.specs.Histories.{begun_with, Fits, Continues};
ghost use Rattle.triple_arena_commands.specs.declared.reply.Reply.TheVariants.{Exhausted};
ghost use Rattle.triple_arena_commands.specs.ReplyText.{tells_of_wrap};
ghost use Rattle.triple_arena_commands.specs.Runs.{IsRun};
ghost use Rattle.triple_arena_commands.specs.NameStore.{new_store};
ghost use Rattle.triple_arena_commands.specs.StoreRuns.{is_named, is_no_memory, replies_with_memory, without_compactions, replies_without_compactions};
ghost use Rattle.triple_arena_commands.specs.StrictStore.{tells_exhausted, IsStrictStoreStep};
ghost use Rattle.triple_arena_session.specs.SessionState.{node_of, new_session};
ghost use Rattle.triple_arena_session.specs.SessionCalls.{calls_of, RunsFreshly};
ghost use Rattle.triple_arena_session.specs.Shown.{shown, IsSound};
ghost use Rattle.triple_arena_session.specs.StrictSession.{is_refused, IsStrictSessionStep, strictly_shown, RepliesToEach, StaysStrict};

use crate::node::Node;
use crate::session_body::SessionBody;
use std::alloc::Global;
use std::fmt::Debug;
use std::marker::Model;
use triple_arena::ArenaSlot;
use triple_arena_base::AllocError;
use triple_arena_commands::{Command, Reply};
use triple_arena_direct::StrictArena;
use triple_arena_ptr::{Ptr, PtrGen, PtrInx};
use triple_arena_stack::{NonZeroInxGenericStack, NonZeroInxVec};

/// A session over a strict arena: a command that would raise the counter past the greatest generation is
/// answered `Exhausted`, and changes nothing. So no reply tells of a wrap, and no pointer is ever given
/// twice, however long the session is used. Where generations count it is sound at any time, whatever was
/// done before.
#[derive(Drop)]
pub struct StrictSession<
    P: Ptr,
    X,
    S: NonZeroInxGenericStack<ArenaSlot<P, Node<X, P>>> = NonZeroInxVec<ArenaSlot<P, Node<X, P>>>,
> {
    pub(crate) body: SessionBody<P, X, S, StrictArena<P, Node<X, P>, S>>,
}

impl<P: Ptr, X, S: NonZeroInxGenericStack<ArenaSlot<P, Node<X, P>>>> Model
    for StrictSession<P, X, S> {
    ghost use Rattle.std.specs.Prelude.{◌≡◌, true};
    ghost use Rattle.triple_arena_session.specs.SessionState.{SessionState};
    ghost use Rattle.triple_arena_session.specs.Shown.{IsSound};

    ghost Value = { SessionState X };

    ghost view = { λ s. s.body };

    // no step wraps the counter, and a session may be unsound after a wrap alone
    ghost invariant = { λ s. P.Gen.generations.counting ≡ true → IsSound s.body };
}

impl<P: Ptr, X: Copy, S: NonZeroInxGenericStack<ArenaSlot<P, Node<X, P>>>> StrictSession<P, X, S> {
    /// A strict session over a new arena, that has given no name, on the condition that the generation
    /// of its pointers counts, which `PtrGen::counts` tells. It takes no memory.
    ///
    /// It is sound, and shows an empty store of names, to whose counter the raises are left that lead
    /// from the first generation to the greatest.
    pub fn with_new_arena(alloc: Global) -> Self
        requires { P.Gen.generations.counting ≡ true }
        ensures made { result ≡ new_session (new_arena (new_room S.kind) (new_limit S.kind)
            (greatest_index P.Inx.greatest) (first_generation P.Gen.generations)) }
        ensures sound { IsSound result }
        ensures store { shown result ≡ new_store (new_room S.kind) (new_limit S.kind) (greatest_index P.Inx.greatest) }
        ensures left { (strictly_shown P.Gen.generations.greatest result).left
            ≡ P.Gen.generations.greatest - first_generation P.Gen.generations }
    {
        StrictSession {
            body: SessionBody::over(StrictArena::new(alloc), alloc),
        }
    }

    /// A strict session over an arena with room for `min_capacity` entries, on the same condition.
    ///
    /// Refused where the arena is: where `min_capacity` is past the greatest index or the places of
    /// an array, and where memory is refused. The session is sound, and shows an empty store of names
    /// with the same raises left.
    pub fn with_min_capacity(alloc: Global, min_capacity: usize) -> Result<Self, AllocError>
        requires { P.Gen.generations.counting ≡ true }
        ensures made { IfOk result (λ session. session ≡ new_session (new_arena
            (made_room S.kind min_capacity) (made_limit S.kind min_capacity)
            (greatest_index P.Inx.greatest) (first_generation P.Gen.generations))) }
        ensures sound { IfOk result (λ session. IsSound session) }
        ensures store { IfOk result (λ session. shown session ≡ new_store
            (made_room S.kind min_capacity) (made_limit S.kind min_capacity) (greatest_index P.Inx.greatest)) }
        ensures left { IfOk result (λ session.
            (strictly_shown P.Gen.generations.greatest session).left
            ≡ P.Gen.generations.greatest - first_generation P.Gen.generations) }
        ensures holds { OnOk result
            ((min_capacity ≤ greatest_index P.Inx.greatest) × CanHold S.kind min_capacity) }
        ensures succeeds { min_capacity ≤ greatest_index P.Inx.greatest
            → TakesNoMemory S.kind min_capacity → IsOk result }
        ensures with_memory { min_capacity ≤ greatest_index P.Inx.greatest
            → CanHold S.kind min_capacity → S.has_memory min_capacity → IsOk result }
    {
        let arena = StrictArena::with_min_capacity(alloc, min_capacity)?;
        Ok(StrictSession {
            body: SessionBody::over(arena, alloc),
        })
    }

    /// The arena: data with the pointers of their links.
    pub fn arena(&self) -> &StrictArena<P, Node<X, P>, S>
        ensures { map_values (node_of P.numbers) result.now ≡ self.now.arena }
    {
        &self.body.named.arena
    }

    /// Runs a command, and gives its reply, as `Session::step` does, but that it is `Exhausted` where
    /// the command would raise a counter that stands at the greatest generation: `Remove` and
    /// `Invalidate` of a live name, after `Invalid` and before `NoMemory`, and `Clear` and `Compact`
    /// where there is an entry, before all else. Then nothing changes. No reply tells of a wrap.
    ///
    /// It answers as the strict store of names that the session shows, which then shows what the store
    /// becomes. The pointers of the entries begin a history (`begun` of `stays`), and the calls on the arena take
    /// each history that fits it to one that fits (`history`): so every pointer that was given is new. Of the
    /// session before, `stays` tells what is true of each (`arena`, `within`, `was_sound`), so that the law
    /// `strict_session_steps_as_store` can be used of its steps.
    pub fn step(&mut self, command: Command<X>) -> Reply<X>
    where
        X: Debug,
        ensures step { IsStrictSessionStep S.kind S.has_memory P.Gen.generations
            self.old command result self.new }
        ensures quiet { tells_of_wrap result ≡ false }

        // Refused for want of a raise.
        ensures exhausted { (result ≡ Exhausted)
            ↔ (is_refused P.Gen.generations self.old command ≡ true) }
        ensures unchanged { result ≡ Exhausted → self.new ≡ self.old }

        // The store that it shows, its histories, and what is true of it before and after.
        ensures store { P.Gen.generations.counting ≡ true → IsStrictStoreStep
            (strictly_shown P.Gen.generations.greatest self.old) command result
            (strictly_shown P.Gen.generations.greatest self.new) }
        ensures history { P.Gen.generations.counting ≡ true
            → Continues Fits self.old.arena (calls_of self.old command result) self.new.arena }
        ensures stays { StaysStrict S.kind P.Gen.generations self.old self.new }
    {
        self.tell_begun();
        self.body.tell_arena_over_stack();
        self.body.answer(command)
    }

    /// Runs the commands in order, all of them, and gives their replies, one to each (`each`).
    ///
    /// There is room for all replies first: where memory for it is refused, nothing is done. For no
    /// commands none is asked for.
    ///
    /// They are answered as by the strict store of names that the session shows, which then shows what the
    /// store becomes. Every pointer that was given is new, as the pointers of the entries begin a history
    /// (`begun` of `stays`), and each that fits goes on (`history`). Of named commands, which are all but
    /// `Capacity`, `Reserve` and `Show`, and with neither `NoMemory` nor `Exhausted` among the replies,
    /// compactions change no other reply (`unseen`).
    pub fn run(&mut self, commands: &[Command<X>]) -> Result<Vec<Reply<X>>, AllocError>
    where
        X: Debug,
        ensures ran { IfOk result (λ replies.
            IsRun (IsStrictSessionStep S.kind S.has_memory P.Gen.generations)
            self.old commands.now replies.items self.new) }
        ensures each { IfOk result (λ replies. RepliesToEach commands.now replies.items) }

        // Refused.
        ensures refused { OnErr result (self.new ≡ self.old) }
        ensures succeeds { commands.now ≡ [] → IsOk result }

        // The store that it shows, its histories, and what is true of it before and after.
        ensures store { P.Gen.generations.counting ≡ true → IfOk result (λ replies.
            IsRun IsStrictStoreStep (strictly_shown P.Gen.generations.greatest self.old)
            commands.now replies.items (strictly_shown P.Gen.generations.greatest self.new)) }
        ensures unseen { P.Gen.generations.counting ≡ true → IfOk result (λ replies.
            list_all is_named commands.now ≡ true → list_any is_no_memory replies.items ≡ false
            → list_any tells_exhausted replies.items ≡ false
            → replies_without_compactions commands.now replies.items
            ≡ replies_with_memory (shown self.old) (without_compactions commands.now)) }
        ensures history { P.Gen.generations.counting ≡ true → IfOk result (λ replies.
            RunsFreshly (IsStrictSessionStep S.kind S.has_memory P.Gen.generations)
            self.old commands.now replies.items self.new) }
        ensures stays { StaysStrict S.kind P.Gen.generations self.old self.new }
    {
        self.tell_begun();
        self.body.tell_arena_over_stack();
        self.body.run_commands(commands)
    }

    // Tells that the pointers of the entries of any strict session begin a history, and does nothing.
    pub(crate) fn tell_begun(&self)
        ensures { P.Gen.generations.counting ≡ true
            → Fits (begun_with (keys self.now.arena.slots)) self.now.arena }
    {
        let arena = self.arena();
        let _generation = arena.generation();
    }
}
