//! Calls that read an arena.

use crate::calls::answer::{Answer, shown};
use crate::calls::numbered::Numbered;
use crate::calls::stop::Stop;
use crate::calls::words::{Value, inx, pointer};
use std::alloc::Global;
use triple_arena::{Arena, ArenaSlot, ArenaTrait};
use triple_arena_ptr::Ptr;
use triple_arena_stack::NonZeroInxGenericStack;

/// A call that looks an entry up, or tells of the whole.
pub fn read<P: Ptr, S: NonZeroInxGenericStack<ArenaSlot<P, Value>>>(
    alloc: Global,
    arena: &Arena<P, Value, S>,
    call: &[&str],
) -> Answer
where
    P::Gen: Numbered,
{
    match *call {
        ["get", p] => shown(alloc, &arena.get(pointer(p)?)),
        ["contains", p] => shown(alloc, &arena.contains(pointer(p)?)),
        ["get_inx", i] => shown(alloc, &arena.get_inx(inx(i)?)),
        ["generation_at", i] => shown(alloc, &arena.generation_at(inx(i)?)),
        ["len"] => shown(alloc, &arena.len()),
        ["is_empty"] => shown(alloc, &arena.is_empty()),
        ["capacity"] => shown(alloc, &arena.capacity()),
        ["max_capacity"] => shown(alloc, &arena.max_capacity()),
        ["bounds"] => {
            let bounds = (arena.len(), arena.capacity(), arena.max_capacity());
            shown(alloc, &bounds)
        }
        ["singular_generation"] => shown(alloc, &arena.singular_generation()),
        ["find_first_inx_ptr"] => shown(alloc, &arena.find_first_inx_ptr()),
        ["find_last_inx_ptr"] => shown(alloc, &arena.find_last_inx_ptr()),
        _ => Err(Stop::Malformed),
    }
}
