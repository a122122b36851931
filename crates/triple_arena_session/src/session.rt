//! Sessions: commands that speak of entries by name.

ghost use Rattle.std.specs.Prelude.{◌≡◌, ◌≢◌, ◌≤◌, [], IfOk, OnOk, OnErr, IsOk, true, false, length, take};
ghost use Rattle.std.specs.List.{list_all, list_any};
ghost use Rattle.triple_arena_ptr.specs.Numbers.{greatest_index, first_generation};
ghost use Rattle.triple_arena_stack.specs.StackKind.{new_room, new_limit, made_room, made_limit, CanHold, TakesNoMemory};
ghost use Rattle.triple_arena_traits.specs.ArenaState.{new_arena, map_values};
ghost use Rattle.triple_arena_traits.specs.Histories.{Fits, Continues};
ghost use Rattle.triple_arena_commands.specs.declared.reply.Reply.TheVariants.{Exhausted};
ghost use Rattle.triple_arena_commands.specs.ReplyText.{tells_of_wrap};
ghost use Rattle.triple_arena_commands.specs.Runs.{RunsToWrap};
ghost use Rattle.triple_arena_commands.specs.NameStore.{Store, new_store, IsStoreStep};
ghost use Rattle.triple_arena_commands.specs.StoreRuns.{is_named, is_no_memory, without_wrap, AnswersAsStore, replies_with_memory, without_compactions, replies_without_compactions};
ghost use Rattle.triple_arena_session.specs.SessionState.{SessionState, node_of, new_session};
ghost use Rattle.triple_arena_session.specs.SessionRun.{IsStep};
ghost use Rattle.triple_arena_session.specs.SessionCalls.{calls_of, RunGoesOn};
ghost use Rattle.triple_arena_session.specs.Shown.{shown, IsSound, IsArenaOver};
ghost use Rattle.triple_arena_session.specs.StoreRun.{EndsSoundly};

use crate::node::Node;
use crate::session_body::SessionBody;
use std::alloc::Global;
use std::fmt::Debug;
use std::marker::Model;
use triple_arena::{Arena, ArenaSlot, ArenaTrait};
use triple_arena_base::AllocError;
use triple_arena_commands::{Command, Reply};
use triple_arena_ptr::{Ptr, PtrGen, PtrInx};
use triple_arena_stack::{NonZeroInxGenericStack, NonZeroInxVec};

/// An arena of data with links, and the pointers that were given: a name is the number of a pointer's
/// place in the order of giving, and is never given again.
#[derive(Drop)]
pub struct Session<
    P: Ptr,
    X,
    S: NonZeroInxGenericStack<ArenaSlot<P, Node<X, P>>> = NonZeroInxVec<ArenaSlot<P, Node<X, P>>>,
> {
    pub(crate) body: SessionBody<P, X, S, Arena<P, Node<X, P>, S>>,
}

impl<P: Ptr, X, S: NonZeroInxGenericStack<ArenaSlot<P, Node<X, P>>>> Model for Session<P, X, S> {
    ghost use Rattle.triple_arena_session.specs.SessionState.{SessionState};

    ghost Value = { SessionState X };

    ghost view = { λ s. s.body };
}

impl<P: Ptr, X: Copy, S: NonZeroInxGenericStack<ArenaSlot<P, Node<X, P>>>> Session<P, X, S> {
    /// A session over a new arena, that has given no name, on the condition that the generation of
    /// its pointers counts, which `PtrGen::counts` tells. It takes no memory.
    ///
    /// It is sound, and shows an empty store of names.
    pub fn with_new_arena(alloc: Global) -> Self
        requires { P.Gen.generations.counting ≡ true }
        ensures made { result ≡ new_session (new_arena (new_room S.kind) (new_limit S.kind)
            (greatest_index P.Inx.greatest) (first_generation P.Gen.generations)) }
        ensures sound { IsSound result }
        ensures store { shown result ≡ new_store (new_room S.kind) (new_limit S.kind) (greatest_index P.Inx.greatest) }
    {
        Session {
            body: SessionBody::over(Arena::new(alloc), alloc),
        }
    }

    /// A session over an arena with room for `min_capacity` entries, on the same condition.
    ///
    /// Refused where the arena is: where `min_capacity` is past the greatest index or the places of
    /// an array, and where memory is refused. The session is sound, and shows an empty store of names.
    pub fn with_min_capacity(alloc: Global, min_capacity: usize) -> Result<Self, AllocError>
        requires { P.Gen.generations.counting ≡ true }
        ensures made { IfOk result (λ session. session ≡ new_session (new_arena
            (made_room S.kind min_capacity) (made_limit S.kind min_capacity)
            (greatest_index P.Inx.greatest) (first_generation P.Gen.generations))) }
        ensures sound { IfOk result (λ session. IsSound session) }
        ensures store { IfOk result (λ session. shown session ≡ new_store
            (made_room S.kind min_capacity) (made_limit S.kind min_capacity) (greatest_index P.Inx.greatest)) }
        ensures holds { OnOk result
            ((min_capacity ≤ greatest_index P.Inx.greatest) × CanHold S.kind min_capacity) }
        ensures succeeds { min_capacity ≤ greatest_index P.Inx.greatest
            → TakesNoMemory S.kind min_capacity → IsOk result }
        ensures with_memory { min_capacity ≤ greatest_index P.Inx.greatest
            → CanHold S.kind min_capacity → S.has_memory min_capacity → IsOk result }
    {
        let arena = Arena::with_min_capacity(alloc, min_capacity)?;
        Ok(Session {
            body: SessionBody::over(arena, alloc),
        })
    }

    /// The arena: data with the pointers of their links.
    pub fn arena(&self) -> &Arena<P, Node<X, P>, S>
        ensures { map_values (node_of P.numbers) result.now ≡ self.now.arena }
    {
        &self.body.named.arena
    }

    /// Runs a command, and gives its reply, the first that fits:
    ///
    /// - `Insert`: `BadName` (the link was never given); where the arena is full,
    ///   `BeyondMaxCapacity` at its limit, or else `NoMemory` where its indexes are all taken;
    ///   `NoMemory`; `Given`.
    /// - `InsertWithin`: `BadName`; `Full` where the arena is full; `NoMemory`; `Given`.
    /// - `Get`: `Nothing` (never given, or ended); `Found`.
    /// - `Set`: `BadName` (the new link); `Invalid` (never given, or ended); `Done`.
    /// - `Remove`: `Invalid`; `Removed`.
    /// - `Invalidate`: `Invalid`; `NoMemory`; `Given`, and the old name has ended.
    /// - `Clear`: `Cleared`.
    /// - `Compact`: `NoMemory`; `Unresolved` (a link's name has ended); `Compacted`.
    /// - `Len`, `Capacity`: `Count`.
    /// - `Reserve`: `NoMemory` past the greatest index; `BeyondMaxCapacity`; `NoMemory`; `Done`.
    /// - `Show`: `NoMemory`; `Line`.
    ///
    /// All else stays, but that after a `NoMemory` the table of names may have grown, and that a
    /// reservation, refused or not, tidies the free list of the arena. `Compact`, `Reserve` and
    /// `Show` touch each slot, and `Compact` each name; a look-up of an entry with a link may have to
    /// search the names. Which of the two refusals of `Compact` comes first is the body's, and said
    /// by no clause. No reply is `Exhausted`, which strict sessions alone answer.
    ///
    /// A sound session answers as the store of names that it shows, its bool aside where the reply
    /// tells of a wrap; where it tells of none, the session shows what the store becomes, and is
    /// sound. Of any session, sound or not, the calls on its arena then take each history that fits
    /// it to one that fits (`calls`), so that no pointer is given that such a history has: one fits a
    /// sound session, and any whose arena has no entry. Of the session before it tells what is true of
    /// each (`arena`), so that the law `session_steps_as_store` can be used of its steps.
    pub fn step(&mut self, command: Command<X>) -> Reply<X>
    where
        X: Debug,
        ensures step { IsStep S.kind S.has_memory P.Gen.generations
            self.old command result self.new }

        // Of a sound session, by the store that it shows.
        ensures store { P.Gen.generations.counting ≡ true → IsSound self.old
            → tells_of_wrap result ≡ false
            → IsStoreStep (shown self.old) command result (shown self.new) }
        ensures sound { P.Gen.generations.counting ≡ true → IsSound self.old
            → tells_of_wrap result ≡ false
            → IsSound self.new }
        ensures at_wrap { P.Gen.generations.counting ≡ true → IsSound self.old
            → (after : Store X) × IsStoreStep (shown self.old) command (without_wrap result) after }

        // Of any session.
        ensures calls { P.Gen.generations.counting ≡ true → tells_of_wrap result ≡ false
            → Continues Fits self.old.arena (calls_of self.old command result) self.new.arena }
        ensures never { result ≢ Exhausted }
        ensures arena { IsArenaOver S.kind self.old.arena }
    {
        self.body.tell_arena_over_stack();
        self.body.answer(command)
    }

    /// Runs the commands in order, and gives their replies, up to the first reply that tells of a
    /// wrap, that one included.
    ///
    /// There is room for all replies first: where memory for it is refused, nothing is done. For no
    /// commands none is asked for.
    ///
    /// A sound session answers as the store of names that it shows (`store`). Where no reply tells of a
    /// wrap, it shows what the store becomes, and is sound. Where the last one does, so it was before that
    /// step, and its reply is the store's too, its bool aside (`ends`). Of named commands, which are all but
    /// `Capacity`, `Reserve` and `Show`, and with no `NoMemory` among the replies, compactions change no other
    /// reply (`unseen`).
    ///
    /// Of any session, sound or not, each history that fits the arena goes on as long as no reply tells of a
    /// wrap, also by each front of the commands and replies (`goes_on`), as the law
    /// `session_runs_keep_histories` says of every list of steps: from an arena without entries no pointer was
    /// given twice by then.
    pub fn run(&mut self, commands: &[Command<X>]) -> Result<Vec<Reply<X>>, AllocError>
    where
        X: Debug,
        ensures ran { IfOk result (λ replies.
            RunsToWrap (IsStep S.kind S.has_memory P.Gen.generations)
            self.old commands.now replies.items self.new) }

        // Refused.
        ensures refused { OnErr result (self.new ≡ self.old) }
        ensures succeeds { commands.now ≡ [] → IsOk result }

        // Of a sound session, by the store that it shows.
        ensures store { P.Gen.generations.counting ≡ true → IsSound self.old
            → IfOk result (λ replies.
            AnswersAsStore (shown self.old) (take (length replies.items) commands.now) replies.items) }
        ensures ends { P.Gen.generations.counting ≡ true → IsSound self.old
            → IfOk result (λ replies. EndsSoundly (IsStep S.kind S.has_memory P.Gen.generations)
            self.old commands.now replies.items self.new) }
        ensures unseen { P.Gen.generations.counting ≡ true → IsSound self.old
            → IfOk result (λ replies.
            let ran = take (length replies.items) commands.now in
            list_all is_named ran ≡ true → list_any is_no_memory replies.items ≡ false
            → replies_without_compactions ran replies.items
            ≡ replies_with_memory (shown self.old) (without_compactions ran)) }

        // Of any session.
        ensures goes_on { IfOk result (λ replies.
            RunGoesOn P.Gen.generations (IsStep S.kind S.has_memory P.Gen.generations)
            self.old (take (length replies.items) commands.now) replies.items self.new) }
        ensures arena { IsArenaOver S.kind self.old.arena }
    {
        self.body.tell_arena_over_stack();
        self.body.run_commands(commands)
    }
}
