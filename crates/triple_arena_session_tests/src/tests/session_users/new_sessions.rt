//! New sessions, and the replies of runs. A function that makes a session takes long to prove, so few do.

ghost use Rattle.triple_arena_session.specs.Shown.{IsSound};

use crate::tests::lines::are_replies;
use std::alloc::Global;
use std::process::Abort;
use triple_arena_base::AllocError;
use triple_arena_direct::StrictArena;
use triple_arena_ptr::P0;
use triple_arena_session::{Reply, Session, StrictSession};
use triple_arena_session_uses::begun_sessions::begin_strictly;

/// A new session with room for so many entries.
pub fn new_session(rt: &impl Abort, alloc: Global, room: usize) -> Session<P0, u64>
    ensures { IsSound result }
{
    Session::with_min_capacity(alloc, room).expect(rt, "memory")
}

/// A strict session that has begun over a new arena.
pub fn new_strict_session(alloc: Global) -> StrictSession<P0, u64> {
    begin_strictly(StrictArena::new(alloc), alloc)
}

/// Expects a run to have the replies of these lines.
pub fn replies(
    rt: &impl Abort,
    alloc: Global,
    told: Result<Vec<Reply<u64>>, AllocError>,
    lines: &str,
) {
    are_replies(rt, alloc, "the replies", told, lines);
}
