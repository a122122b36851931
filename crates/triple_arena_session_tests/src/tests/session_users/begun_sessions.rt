//! A session over an arena with a limit; that a strict one begins is tried where new ones are made.

use triple_arena::{Arena, ArenaTrait};
use triple_arena_ptr::P0;
use triple_arena_session::{Command, Node, Reply};
use triple_arena_session_uses::begun_sessions::{LimitedSlots, begin};
use triple_arena_test_kit::is;

/// The limit allows one entry.
#[test]
fn a_session_begins_under_a_limit(rt: HostRuntime) {
    let mut arena: Arena<P0, Node<u64, P0>, LimitedSlots> = Arena::new(rt.alloc());
    arena.set_max_capacity(1).expect(&rt, "a limit");
    let begun = begin(arena, rt.alloc(), 7);
    let (mut session, name) = begun.expect(&rt, "memory");
    let found = session.step(Command::Get(1));
    let refused = session.step(Command::Insert(8, None));
    is((name, found), (1, Reply::Found(7, None))).expect(&rt, "the entry");
    is(refused, Reply::BeyondMaxCapacity).expect(&rt, "one entry more");
}
