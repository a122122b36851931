//! Arenas of any kind, as lines call them.

use crate::arena_calls::call_arena;
use crate::calls::{Answer, Numbered, Value, shown, size};
use std::alloc::Global;
use triple_arena::{Arena, ArenaSlot, ArenaTrait};
use triple_arena_base::AllocError;
use triple_arena_ptr::{Ptr, PtrGen};
use triple_arena_stack::{
    NonZeroInxArray, NonZeroInxBoxedSlice, NonZeroInxGenericStack, NonZeroInxLimitedVec,
};

/// An arena of one of the kinds that lines name. It has no clauses, so that its callers are quick to prove.
pub trait Held {
    /// A new arena of the kind that this word names, with this room or as `new` makes it; none where the word names no
    /// kind, or one that these pointers don't have (`help`).
    fn make(alloc: Global, kind: &str, room: Option<usize>) -> Result<Option<Self>, AllocError>;

    /// Makes a call.
    fn call(&mut self, alloc: Global, call: &[&str]) -> Answer;
}

/// An arena over one of the four stacks.
#[derive(Drop)]
pub enum OverOneOf<H, L, F, A> {
    Heap(H),
    Limited(L),
    Fixed(F),
    Array(A),
}

/// An `Arena` with such pointers, over any stack.
pub type OverAny<P> = OverOneOf<
    Arena<P, Value>,
    Arena<P, Value, NonZeroInxLimitedVec<ArenaSlot<P, Value>>>,
    Arena<P, Value, NonZeroInxBoxedSlice<ArenaSlot<P, Value>>>,
    Arena<P, Value, NonZeroInxArray<ArenaSlot<P, Value>, 8>>,
>;

impl<P: Ptr> Held for OverAny<P>
where
    P::Gen: Numbered,
{
    fn make(alloc: Global, kind: &str, room: Option<usize>) -> Result<Option<Self>, AllocError> {
        Ok(Some(match kind {
            "fixed" | "array" if !P::Gen::counts() => return Ok(None),
            "heap" => OverOneOf::Heap(made(alloc, room)?),
            "limited" => OverOneOf::Limited(made(alloc, room)?),
            "fixed" => OverOneOf::Fixed(made(alloc, room)?),
            "array" => OverOneOf::Array(made(alloc, room)?),
            _ => return Ok(None),
        }))
    }

    fn call(&mut self, alloc: Global, call: &[&str]) -> Answer {
        match self {
            OverOneOf::Heap(arena) => call_arena(alloc, arena, call),
            OverOneOf::Limited(arena) => match *call {
                ["set_max_capacity", n] => shown(alloc, &arena.set_max_capacity(size(n)?)),
                _ => call_arena(alloc, arena, call),
            },
            OverOneOf::Fixed(arena) => call_arena(alloc, arena, call),
            OverOneOf::Array(arena) => call_arena(alloc, arena, call),
        }
    }
}

fn made<P: Ptr, S: NonZeroInxGenericStack<ArenaSlot<P, Value>>>(
    alloc: Global,
    room: Option<usize>,
) -> Result<Arena<P, Value, S>, AllocError> {
    match room {
        Some(room) => Arena::with_min_capacity(alloc, room),
        None => Ok(Arena::new(alloc)),
    }
}
