//! Calls at two values of an arena.

use crate::calls::answer::{Answer, shown};
use crate::calls::numbered::Numbered;
use crate::calls::stop::Stop;
use crate::calls::words::{Value, inx, pointer};
use std::alloc::Global;
use std::mem;
use triple_arena::{Arena, ArenaSlot, DisjointableArenaTrait};
use triple_arena_ptr::Ptr;
use triple_arena_stack::NonZeroInxGenericStack;

/// A call that exchanges two values.
pub fn exchange<P: Ptr, S: NonZeroInxGenericStack<ArenaSlot<P, Value>>>(
    alloc: Global,
    arena: &mut Arena<P, Value, S>,
    call: &[&str],
) -> Answer
where
    P::Gen: Numbered,
{
    match *call {
        ["with_disjoint_mut", p, q] => {
            let (p, q) = (pointer(p)?, pointer(q)?);
            shown(
                alloc,
                &arena.with_disjoint_mut(p, q, |a, b| mem::swap(a, b)),
            )
        }
        ["with_disjoint_inx_mut", i, j] => {
            let (i, j) = (inx(i)?, inx(j)?);
            shown(
                alloc,
                &arena.with_disjoint_inx_mut(i, j, |_, a, _, b| mem::swap(a, b)),
            )
        }
        _ => Err(Stop::Malformed),
    }
}
