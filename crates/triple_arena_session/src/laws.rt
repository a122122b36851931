//! What holds of sessions, with the laws of lines, commands and stores of names. Each law is the contract
//! of a function with an empty body.

ghost use Rattle.std.specs.Prelude.{◌≡◌, ◌≤◌, List, [], ◌∷◌, ◌++◌, None, true, false};
ghost use Rattle.std.specs.List.{list_all, list_any};
ghost use Rattle.triple_arena_traits.specs.ArenaState.{arena_len};
ghost use Rattle.triple_arena_traits.specs.Histories.{AreDistinct, begun_with, given, followed_by, Continues, Fits};
ghost use Rattle.triple_arena_commands.specs.declared.command.Command.{Command};
ghost use Rattle.triple_arena_commands.specs.declared.reply.Reply.{Reply};
ghost use Rattle.triple_arena_commands.specs.declared.reply.Reply.TheVariants.{Exhausted};
ghost use Rattle.triple_arena_commands.specs.ReplyText.{tells_of_wrap};
ghost use Rattle.triple_arena_commands.specs.Runs.{IsRun, TellsOfNoWrap};
ghost use Rattle.triple_arena_commands.specs.NameStore.{new_store, IsStoreStep};
ghost use Rattle.triple_arena_commands.specs.StoreRuns.{is_named, is_no_memory, replies_with_memory, without_compactions, replies_without_compactions};
ghost use Rattle.triple_arena_commands.specs.StrictStore.{tells_exhausted, IsStrictStoreStep};
ghost use Rattle.triple_arena_session.specs.SessionState.{SessionState};
ghost use Rattle.triple_arena_session.specs.SessionRun.{IsStep};
ghost use Rattle.triple_arena_session.specs.SessionCalls.{calls_of, calls_in, KeepsHistories};
ghost use Rattle.triple_arena_session.specs.Shown.{shown, IsSound, IsArenaOver};
ghost use Rattle.triple_arena_session.specs.StoreRun.{EndsAsStore, StepsAsStore};
ghost use Rattle.triple_arena_session.specs.StrictSession.{IsStrictSessionStep, strictly_shown};
ghost use Rattle.triple_arena_session.specs.KindRun.{greatest, first_session};
ghost use Rattle.triple_arena_session.specs.ElevenCommands.{eleven_commands, eleven_replies, nine_replies, model_replies};

use crate::node::Node;
use triple_arena::ArenaSlot;
pub use triple_arena_commands::laws::{
    compaction_is_unseen, forms_are_exact, lines_are_exact, names_are_new, store_is_exact,
    strict_compaction_is_unseen, strict_store_is_exact,
};
use triple_arena_ptr::Ptr;
use triple_arena_stack::NonZeroInxGenericStack;

/// A step of a session, whose arena is as every arena over the stack is, is one of the store that it shows
/// (`store`), where the generation counts, the session is sound, and the reply tells of no wrap. The session is
/// sound after it too (`sound`). Where the reply tells of a wrap, it is the store's, its bool aside (`at_wrap`).
/// No reply is `Exhausted`.
///
/// Of any session, sound or not, the arena stays as every arena over the stack is (`arena`); and where the
/// generation counts and the reply tells of no wrap, the calls on the arena take each history that fits
/// it to one that fits (`calls`).
pub fn session_steps_as_store<P: Ptr, X, S: NonZeroInxGenericStack<ArenaSlot<P, Node<X, P>>>>()
    ensures steps { (s t : SessionState X) (command : Command X) (reply : Reply X)
        → IsArenaOver S.kind s.arena
        → IsStep S.kind S.has_memory P.Gen.generations s command reply t
        → StepsAsStore S.kind P.Gen.generations s command reply t }
    ensures never { (s t : SessionState X) (command : Command X)
        → IsStep S.kind S.has_memory P.Gen.generations s command Exhausted t → ⊥ }
{}

/// So it is with any list of steps, one after another: where no reply tells of a wrap, they are steps of
/// the store that the session shows, and it is sound after them. Where the last reply alone tells of one,
/// the others are, and the last is the store's, its bool aside.
pub fn session_runs_as_store<P: Ptr, X, S: NonZeroInxGenericStack<ArenaSlot<P, Node<X, P>>>>()
    ensures store { P.Gen.generations.counting ≡ true
        → (s t : SessionState X) (commands : List (Command X)) (replies : List (Reply X))
        → IsArenaOver S.kind s.arena → IsSound s
        → IsRun (IsStep S.kind S.has_memory P.Gen.generations) s commands replies t
        → TellsOfNoWrap replies → IsRun IsStoreStep (shown s) commands replies (shown t) }
    ensures sound { P.Gen.generations.counting ≡ true
        → (s t : SessionState X) (commands : List (Command X)) (replies : List (Reply X))
        → IsArenaOver S.kind s.arena → IsSound s
        → IsRun (IsStep S.kind S.has_memory P.Gen.generations) s commands replies t
        → TellsOfNoWrap replies → IsArenaOver S.kind t.arena × IsSound t }
    ensures at_wrap { P.Gen.generations.counting ≡ true
        → (s t : SessionState X) (commands : List (Command X)) (before : List (Reply X)) (last : Reply X)
        → IsArenaOver S.kind s.arena → IsSound s
        → IsRun (IsStep S.kind S.has_memory P.Gen.generations) s commands (before ++ last ∷ []) t
        → TellsOfNoWrap before
        → EndsAsStore (IsStep S.kind S.has_memory P.Gen.generations) s commands before last t }
{}

/// A list of steps of any session, sound or not, takes each history that fits its arena to one that
/// fits, where the generation counts, the arena is as every arena over the stack is, which it stays, and
/// no reply tells of a wrap. So from a session without entries, as a new one is, and any one that was
/// cleared, no pointer is given twice by all of them.
pub fn session_runs_keep_histories<P: Ptr, X, S: NonZeroInxGenericStack<ArenaSlot<P, Node<X, P>>>>()
    ensures calls { P.Gen.generations.counting ≡ true
        → (s t : SessionState X) (commands : List (Command X)) (replies : List (Reply X))
        → IsArenaOver S.kind s.arena
        → KeepsHistories (IsStep S.kind S.has_memory P.Gen.generations) s commands replies t }
    ensures arena { (s t : SessionState X) (commands : List (Command X)) (replies : List (Reply X))
        → IsArenaOver S.kind s.arena
        → IsRun (IsStep S.kind S.has_memory P.Gen.generations) s commands replies t
        → IsArenaOver S.kind t.arena }
    ensures given_once { P.Gen.generations.counting ≡ true
        → (s t : SessionState X) (commands : List (Command X)) (replies : List (Reply X))
        → IsArenaOver S.kind s.arena → arena_len s.arena ≡ 0
        → (run : IsRun (IsStep S.kind S.has_memory P.Gen.generations) s commands replies t)
        → TellsOfNoWrap replies
        → AreDistinct (given (followed_by (begun_with [])
        (calls_in (IsStep S.kind S.has_memory P.Gen.generations)
        s commands replies t run))) }
{}

/// A step of a strict session is one of the strict store that it shows, where the generation counts,
/// the session is sound, its arena is as every arena over the stack is, and its counter is at most the
/// greatest generation: so it is of every strict session, as `was_sound`, `arena` and `within` of the clauses
/// `stays` of its calls say. All this holds after it too, and no reply tells of a wrap. Whether it is sound or not,
/// and with any counter, the calls on the arena take each history that fits it to one that fits, so that no
/// pointer is given that such a history has. One fits every strict session, as `begun` of these says.
pub fn strict_session_steps_as_store<
    P: Ptr,
    X,
    S: NonZeroInxGenericStack<ArenaSlot<P, Node<X, P>>>,
>()
    ensures store { P.Gen.generations.counting ≡ true
        → (s t : SessionState X) (command : Command X) (reply : Reply X)
        → IsArenaOver S.kind s.arena → s.arena.counter ≤ P.Gen.generations.greatest → IsSound s
        → IsStrictSessionStep S.kind S.has_memory P.Gen.generations s command reply t
        → IsStrictStoreStep (strictly_shown P.Gen.generations.greatest s)
        command reply (strictly_shown P.Gen.generations.greatest t) }
    ensures sound { P.Gen.generations.counting ≡ true
        → (s t : SessionState X) (command : Command X) (reply : Reply X)
        → IsArenaOver S.kind s.arena → s.arena.counter ≤ P.Gen.generations.greatest → IsSound s
        → IsStrictSessionStep S.kind S.has_memory P.Gen.generations s command reply t
        → IsArenaOver S.kind t.arena × (t.arena.counter ≤ P.Gen.generations.greatest) × IsSound t }
    ensures quiet { (s t : SessionState X) (command : Command X) (reply : Reply X)
        → IsStrictSessionStep S.kind S.has_memory P.Gen.generations s command reply t
        → tells_of_wrap reply ≡ false }
    ensures history { P.Gen.generations.counting ≡ true
        → (s t : SessionState X) (command : Command X) (reply : Reply X)
        → IsArenaOver S.kind s.arena
        → IsStrictSessionStep S.kind S.has_memory P.Gen.generations s command reply t
        → Continues Fits s.arena (calls_of s command reply) t.arena }
{}

/// So it is with any list of steps, one after another; from a session without entries, sound or not, no
/// pointer is given twice by all of them. Of named commands, with neither `NoMemory` nor `Exhausted`
/// among the replies, compactions change no other reply.
pub fn strict_session_runs_as_store<
    P: Ptr,
    X,
    S: NonZeroInxGenericStack<ArenaSlot<P, Node<X, P>>>,
>()
    ensures store { P.Gen.generations.counting ≡ true
        → (s t : SessionState X) (commands : List (Command X)) (replies : List (Reply X))
        → IsArenaOver S.kind s.arena → s.arena.counter ≤ P.Gen.generations.greatest → IsSound s
        → IsRun (IsStrictSessionStep S.kind S.has_memory P.Gen.generations) s commands replies t
        → IsRun IsStrictStoreStep (strictly_shown P.Gen.generations.greatest s) commands replies
        (strictly_shown P.Gen.generations.greatest t) }
    ensures sound { P.Gen.generations.counting ≡ true
        → (s t : SessionState X) (commands : List (Command X)) (replies : List (Reply X))
        → IsArenaOver S.kind s.arena → s.arena.counter ≤ P.Gen.generations.greatest → IsSound s
        → IsRun (IsStrictSessionStep S.kind S.has_memory P.Gen.generations) s commands replies t
        → IsArenaOver S.kind t.arena × (t.arena.counter ≤ P.Gen.generations.greatest) × IsSound t }
    ensures quiet { (s t : SessionState X) (commands : List (Command X)) (replies : List (Reply X))
        → IsRun (IsStrictSessionStep S.kind S.has_memory P.Gen.generations) s commands replies t
        → TellsOfNoWrap replies }
    ensures history { P.Gen.generations.counting ≡ true
        → (s t : SessionState X) (commands : List (Command X)) (replies : List (Reply X))
        → IsArenaOver S.kind s.arena
        → (run : IsRun (IsStrictSessionStep S.kind S.has_memory P.Gen.generations)
        s commands replies t)
        → Continues Fits s.arena
        (calls_in (IsStrictSessionStep S.kind S.has_memory P.Gen.generations)
        s commands replies t run) t.arena }
    ensures given_once { P.Gen.generations.counting ≡ true
        → (s t : SessionState X) (commands : List (Command X)) (replies : List (Reply X))
        → IsArenaOver S.kind s.arena → arena_len s.arena ≡ 0
        → (run : IsRun (IsStrictSessionStep S.kind S.has_memory P.Gen.generations)
        s commands replies t)
        → AreDistinct (given (followed_by (begun_with [])
        (calls_in (IsStrictSessionStep S.kind S.has_memory P.Gen.generations)
        s commands replies t run))) }
    ensures unseen { P.Gen.generations.counting ≡ true
        → (s t : SessionState X) (commands : List (Command X)) (replies : List (Reply X))
        → IsArenaOver S.kind s.arena → s.arena.counter ≤ P.Gen.generations.greatest → IsSound s
        → IsRun (IsStrictSessionStep S.kind S.has_memory P.Gen.generations) s commands replies t
        → list_all is_named commands ≡ true → list_any is_no_memory replies ≡ false
        → list_any tells_exhausted replies ≡ false
        → replies_without_compactions commands replies ≡ replies_with_memory (shown s) (without_compactions commands) }
{}

/// Eleven commands in a new session over the heap, computed: the first of two compactions finds a
/// link whose name has ended, and the second moves the entries. Without the two the other nine
/// replies are the same, and they are those of a store of names.
pub fn eleven_commands_answered()
    ensures answered { model_replies (first_session 0 None) eleven_commands ≡ eleven_replies }
    ensures without { model_replies (first_session 0 None) (without_compactions eleven_commands) ≡ nine_replies }
    ensures others { replies_without_compactions eleven_commands eleven_replies ≡ nine_replies }
    ensures store { replies_with_memory (new_store 0 None greatest) (without_compactions eleven_commands)
        ≡ nine_replies }
{}
