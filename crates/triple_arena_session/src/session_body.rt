//! The body of every session, strict or not.

ghost use Rattle.std.specs.Prelude.{◌≡◌, ◌≤◌, [], IfOk, OnErr, IsOk, true};
ghost use Rattle.triple_arena_traits.specs.ArenaState.{arena_len, map_values};
ghost use Rattle.triple_arena_commands.specs.Runs.{RunsToWrap};
ghost use Rattle.triple_arena_session.specs.SessionState.{new_session, node_of};
ghost use Rattle.triple_arena_session.specs.Shown.{IsSound, IsArenaOver};
ghost use Rattle.triple_arena_session.specs.SessionLayout.{IsStepStrictIf};

use crate::named_arena::NamedArena;
use crate::node::Node;
use crate::session_arena::SessionArena;
use std::alloc::Global;
use std::fmt::Debug;
use std::marker::Model;
use triple_arena::ArenaSlot;
use triple_arena_base::AllocError;
use triple_arena_commands::{Command, Reply};
use triple_arena_ptr::{Ptr, PtrGen};
use triple_arena_stack::NonZeroInxGenericStack;

/// The arena of a session with its names, and what is known of them.
#[derive(Drop)]
pub(crate) struct SessionBody<
    P: Ptr,
    X,
    S: NonZeroInxGenericStack<ArenaSlot<P, Node<X, P>>>,
    A: SessionArena<P, Node<X, P>, S>,
> {
    pub(crate) named: NamedArena<P, X, S, A>,
    // Whether it is known that the session is sound: each pointer of its table is below the counter or that
    // of an entry, and so a new one never stands there already. It is until a reply tells of a wrap.
    sound: bool,
}

impl<
    P: Ptr,
    X,
    S: NonZeroInxGenericStack<ArenaSlot<P, Node<X, P>>>,
    A: SessionArena<P, Node<X, P>, S>,
> Model for SessionBody<P, X, S, A> {
    ghost use Rattle.std.specs.Prelude.{◌≡◌, true};
    ghost use Rattle.triple_arena_session.specs.SessionState.{SessionState};
    ghost use Rattle.triple_arena_session.specs.Shown.{IsSound};

    ghost Value = { SessionState X };

    ghost view = { λ s. s.named };

    ghost invariant = { λ s. s.sound ≡ true
        → (P.Gen.generations.counting ≡ true) × IsSound s.named };
}

impl<
    P: Ptr,
    X: Copy,
    S: NonZeroInxGenericStack<ArenaSlot<P, Node<X, P>>>,
    A: SessionArena<P, Node<X, P>, S>,
> SessionBody<P, X, S, A> {
    /// Over this arena, which has no entry, without names, on the condition that the generation of its
    /// pointers counts; it is sound.
    pub(crate) fn over(arena: A, alloc: Global) -> Self
        requires counts { P.Gen.generations.counting ≡ true }
        requires empty { arena_len (A.state arena) ≡ 0 }
        ensures made { result ≡ new_session (map_values (node_of P.numbers) (A.state arena)) }
        ensures sound { IsSound result }
    {
        SessionBody {
            named: NamedArena::over(arena, alloc),
            sound: true,
        }
    }

    // Tells what is true of the arena of any session, and does nothing.
    pub(crate) fn tell_arena_over_stack(&self)
        ensures over { IsArenaOver S.kind self.now.arena }
        ensures within { self.now.arena.counter ≤ P.Gen.generations.greatest }
    {
        let arena = &self.named.arena;
        let _len = arena.len();
        let _limit = arena.max_capacity();
        let _is_at_greatest = arena.is_at_greatest();
    }

    /// The body of `step`: the reply to a command, and what it leaves. Over a strict arena it is `Exhausted`
    /// where the command would raise a counter that stands at the greatest generation.
    pub(crate) fn answer(&mut self, command: Command<X>) -> Reply<X>
    where
        X: Debug,
        ensures { IsStepStrictIf A.strict S.kind S.has_memory P.Gen.generations
            self.old command result self.new }
    {
        self.tell_arena_over_stack();
        if A::is_strict() && self.named.is_refused(command) {
            return Reply::Exhausted;
        }
        let reply = self.named.reply(command, self.sound);
        self.sound &= !reply.tells_of_wrap();
        reply
    }

    // The body of `run`: the replies to commands, up to the first wrap.
    pub(crate) fn run_commands(
        &mut self,
        commands: &[Command<X>],
    ) -> Result<Vec<Reply<X>>, AllocError>
    where
        X: Debug,
        ensures ran { IfOk result (λ replies.
            RunsToWrap (IsStepStrictIf A.strict S.kind S.has_memory P.Gen.generations)
            self.old commands.now replies.items self.new) }
        ensures refused { OnErr result (self.new ≡ self.old) }
        ensures succeeds { commands.now ≡ [] → IsOk result }
    {
        let mut replies = Vec::with_capacity(self.named.alloc, commands.len())?;
        'commands: for command in commands {
            let reply = self.answer(*command);
            let wrapped = reply.tells_of_wrap();
            replies.push_reserved(reply);
            if wrapped {
                return Ok(replies);
            }
        }
        Ok(replies)
    }
}
