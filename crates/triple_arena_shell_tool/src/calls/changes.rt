//! Calls that write to an arena's entries, or end them.

use crate::calls::answer::{Answer, shown};
use crate::calls::numbered::Numbered;
use crate::calls::stop::Stop;
use crate::calls::words::{Value, given, inx, pointer, size};
use std::alloc::Global;
use std::mem;
use triple_arena::{Arena, ArenaSlot, ArenaTrait};
use triple_arena_ptr::Ptr;
use triple_arena_stack::NonZeroInxGenericStack;

/// A call that ends entries, changes the capacity, or lends a value and answers which it was. With one more word another
/// is written over it.
pub fn change<P: Ptr, S: NonZeroInxGenericStack<ArenaSlot<P, Value>>>(
    alloc: Global,
    arena: &mut Arena<P, Value, S>,
    call: &[&str],
) -> Answer
where
    P::Gen: Numbered,
{
    match *call {
        ["invalidate", p] => shown(alloc, &arena.invalidate(pointer(p)?)),
        ["remove", p] => shown(alloc, &arena.remove(pointer(p)?)),
        ["remove_inx", i] => shown(alloc, &arena.remove_inx(inx(i)?)),
        ["clear"] => shown(alloc, &arena.clear()),
        ["reallocate_min_capacity", n] => shown(alloc, &arena.reallocate_min_capacity(size(n)?)),
        ["get_mut", p, ref new @ ..] => {
            let new = given(new)?;
            shown(alloc, &written(arena.get_mut(pointer(p)?), new))
        }
        ["get_inx_mut", i, ref new @ ..] => {
            let new = given(new)?;
            shown(alloc, &written(arena.get_inx_mut(inx(i)?), new))
        }
        _ => Err(Stop::Malformed),
    }
}

// The value that is lent, over which a new one is written, if there is one.
fn written(lent: Option<&mut Value>, new: Option<Value>) -> Option<Value> {
    let lent = lent?;
    match new {
        Some(new) => Some(mem::replace(lent, new)),
        None => Some(*lent),
    }
}
