//! Sessions that begin over an arena which is there already.

ghost use Rattle.std.specs.Prelude.{◌≡◌, ℕ, Option, true};
ghost use Rattle.triple_arena_ptr.specs.Pointers.{Pointer};
ghost use Rattle.triple_arena_traits.specs.ArenaState.{ArenaState, arena_len, map_values};
ghost use Rattle.triple_arena_commands.specs.NameStore.{new_store};
ghost use Rattle.triple_arena_session.specs.SessionState.{SessionState, node_of, new_session};
ghost use Rattle.triple_arena_session.specs.Shown.{shown, IsSound};

use crate::node::Node;
use crate::session::Session;
use crate::session_body::SessionBody;
use crate::strict_session::StrictSession;
use std::alloc::Global;
use triple_arena::{Arena, ArenaSlot};
use triple_arena_direct::StrictArena;
use triple_arena_ptr::{Ptr, PtrGen};
use triple_arena_stack::{
    NonZeroInxArray, NonZeroInxBoxedSlice, NonZeroInxLimitedVec, NonZeroInxVec,
};

// The slots of a session over each kind of stack.
type HeapSlots<P, X> = NonZeroInxVec<ArenaSlot<P, Node<X, P>>>;

type LimitedSlots<P, X> = NonZeroInxLimitedVec<ArenaSlot<P, Node<X, P>>>;

type FixedSlots<P, X> = NonZeroInxBoxedSlice<ArenaSlot<P, Node<X, P>>>;

type ArraySlots<P, X, const LIMIT: usize> = NonZeroInxArray<ArenaSlot<P, Node<X, P>>, LIMIT>;

/// A session begins over an arena, which it takes.
///
/// A call finds the impl by its arena. There is one for each kind of stack, since one over any stack has
/// no proved caller; over another stack a session makes its arena itself (`with_new_arena`,
/// `with_min_capacity`).
pub trait BeginsOver<P: Ptr, X, A>: Sized {
    /// How many entries the arena has.
    ghost entries: { A → ℕ };

    /// What the arena holds, with the pointers of links as numbers.
    ghost over: { A → ArenaState (X × Option Pointer) };

    /// What the session holds.
    ghost session: { Self → SessionState X };

    /// A session over this arena, that has given no name, on the condition that the arena has no entry
    /// and that the generation of its pointers counts, which `PtrGen::counts` tells. It takes no memory,
    /// and leaves room, limit, counter and free list as they are.
    ///
    /// It is sound, and shows an empty store of names.
    fn new(arena: A, alloc: Global) -> Self
        requires counts { P.Gen.generations.counting ≡ true }
        requires empty { entries arena ≡ 0 }
        ensures made { session result ≡ new_session (over arena) }
        ensures sound { IsSound (session result) }
        ensures store { shown (session result)
            ≡ new_store (over arena).room (over arena).limit (over arena).greatest };
}

impl<P: Ptr, X: Copy> BeginsOver<P, X, Arena<P, Node<X, P>, HeapSlots<P, X>>>
    for Session<P, X, HeapSlots<P, X>> {
    ghost entries = { arena_len };

    ghost over = { map_values (node_of P.numbers) };

    ghost session = { λ session. session };

    fn new(arena: Arena<P, Node<X, P>, HeapSlots<P, X>>, alloc: Global) -> Self {
        Session {
            body: SessionBody::over(arena, alloc),
        }
    }
}

impl<P: Ptr, X: Copy> BeginsOver<P, X, Arena<P, Node<X, P>, LimitedSlots<P, X>>>
    for Session<P, X, LimitedSlots<P, X>> {
    ghost entries = { arena_len };

    ghost over = { map_values (node_of P.numbers) };

    ghost session = { λ session. session };

    fn new(arena: Arena<P, Node<X, P>, LimitedSlots<P, X>>, alloc: Global) -> Self {
        Session {
            body: SessionBody::over(arena, alloc),
        }
    }
}

impl<P: Ptr, X: Copy> BeginsOver<P, X, Arena<P, Node<X, P>, FixedSlots<P, X>>>
    for Session<P, X, FixedSlots<P, X>> {
    ghost entries = { arena_len };

    ghost over = { map_values (node_of P.numbers) };

    ghost session = { λ session. session };

    fn new(arena: Arena<P, Node<X, P>, FixedSlots<P, X>>, alloc: Global) -> Self {
        Session {
            body: SessionBody::over(arena, alloc),
        }
    }
}

impl<P: Ptr, X: Copy, const LIMIT: usize> BeginsOver<
    P,
    X,
    Arena<P, Node<X, P>, ArraySlots<P, X, LIMIT>>,
> for Session<P, X, ArraySlots<P, X, LIMIT>> {
    ghost entries = { arena_len };

    ghost over = { map_values (node_of P.numbers) };

    ghost session = { λ session. session };

    fn new(arena: Arena<P, Node<X, P>, ArraySlots<P, X, LIMIT>>, alloc: Global) -> Self {
        Session {
            body: SessionBody::over(arena, alloc),
        }
    }
}

impl<P: Ptr, X: Copy> BeginsOver<P, X, StrictArena<P, Node<X, P>, HeapSlots<P, X>>>
    for StrictSession<P, X, HeapSlots<P, X>> {
    ghost entries = { arena_len };

    ghost over = { map_values (node_of P.numbers) };

    ghost session = { λ session. session };

    fn new(arena: StrictArena<P, Node<X, P>, HeapSlots<P, X>>, alloc: Global) -> Self {
        StrictSession {
            body: SessionBody::over(arena, alloc),
        }
    }
}

impl<P: Ptr, X: Copy> BeginsOver<P, X, StrictArena<P, Node<X, P>, LimitedSlots<P, X>>>
    for StrictSession<P, X, LimitedSlots<P, X>> {
    ghost entries = { arena_len };

    ghost over = { map_values (node_of P.numbers) };

    ghost session = { λ session. session };

    fn new(arena: StrictArena<P, Node<X, P>, LimitedSlots<P, X>>, alloc: Global) -> Self {
        StrictSession {
            body: SessionBody::over(arena, alloc),
        }
    }
}

impl<P: Ptr, X: Copy> BeginsOver<P, X, StrictArena<P, Node<X, P>, FixedSlots<P, X>>>
    for StrictSession<P, X, FixedSlots<P, X>> {
    ghost entries = { arena_len };

    ghost over = { map_values (node_of P.numbers) };

    ghost session = { λ session. session };

    fn new(arena: StrictArena<P, Node<X, P>, FixedSlots<P, X>>, alloc: Global) -> Self {
        StrictSession {
            body: SessionBody::over(arena, alloc),
        }
    }
}

impl<P: Ptr, X: Copy, const LIMIT: usize> BeginsOver<
    P,
    X,
    StrictArena<P, Node<X, P>, ArraySlots<P, X, LIMIT>>,
> for StrictSession<P, X, ArraySlots<P, X, LIMIT>> {
    ghost entries = { arena_len };

    ghost over = { map_values (node_of P.numbers) };

    ghost session = { λ session. session };

    fn new(arena: StrictArena<P, Node<X, P>, ArraySlots<P, X, LIMIT>>, alloc: Global) -> Self {
        StrictSession {
            body: SessionBody::over(arena, alloc),
        }
    }
}
