//! Sessions over arenas that are there already, whose limit and counter are as their callers set them.

ghost use Rattle.std.specs.Prelude.{◌≡◌, ◌-◌, IfSome, None, false};
ghost use Rattle.triple_arena.specs.ArenaState.{arena_len};
ghost use Rattle.triple_arena_session.specs.Command.TheVariants.{Insert};
ghost use Rattle.triple_arena_session.specs.Reply.TheVariants.{Given};
ghost use Rattle.triple_arena_session.specs.NameStore.{new_store, IsStoreStep};
ghost use Rattle.triple_arena_session.specs.KindRun.{greatest};
ghost use Rattle.triple_arena_session.specs.Shown.{shown, IsSound};
ghost use Rattle.triple_arena_session.specs.StrictSession.{strictly_shown};

use std::alloc::Global;
use triple_arena::{Arena, ArenaSlot};
use triple_arena_direct::StrictArena;
use triple_arena_ptr::P0;
use triple_arena_session::{BeginsOver, Command, Node, Reply, Session, StrictSession};
use triple_arena_stack::NonZeroInxLimitedVec;

/// The slots of a session of numbers, up to a limit.
pub type LimitedSlots = NonZeroInxLimitedVec<ArenaSlot<P0, Node<u64, P0>>>;

/// Begins a session over an arena without entries, and enters a number that links to nothing: what the
/// session shows then is what this makes of an empty store of names with the room and the limit of the
/// arena, whatever its counter is, which stays. `None` where the limit allows no entry or memory was refused, of which
/// no clause says more.
pub fn begin(
    arena: Arena<P0, Node<u64, P0>, LimitedSlots>,
    alloc: Global,
    number: u64,
) -> Option<(Session<P0, u64, LimitedSlots>, usize)>
    requires empty { arena_len arena ≡ 0 }
    ensures store { IfSome result (λ begun. IsStoreStep (new_store arena.room arena.limit arena.greatest)
        (Insert number None) (Given begun.1 false) (shown begun.0)) }
    ensures counter { IfSome result (λ begun. begun.0.arena.counter ≡ arena.counter) }
    ensures sound { IfSome result (λ begun. IsSound begun.0) }
{
    let mut session: Session<P0, u64, LimitedSlots> = Session::new(arena, alloc);
    match session.step(Command::Insert(number, None)) {
        Reply::Given(name, false) => Some((session, name)),
        _ => None,
    }
}

/// Begins a strict session over an arena without entries, of whose counter so many raises are left as lead
/// to the greatest generation: none where it stands there. It shows an empty store of names with the room
/// and the limit of the arena.
pub fn begin_strictly(
    arena: StrictArena<P0, Node<u64, P0>>,
    alloc: Global,
) -> StrictSession<P0, u64>
    requires empty { arena_len arena ≡ 0 }
    ensures store { shown result ≡ new_store arena.room arena.limit arena.greatest }
    ensures left { (strictly_shown greatest result).left ≡ greatest - arena.counter }
    ensures sound { IsSound result }
{
    StrictSession::new(arena, alloc)
}
