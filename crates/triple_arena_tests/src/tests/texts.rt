//! The text of an arena.

use crate::tests::arenas::{Numbers, has_text};
use std::alloc::Global;
use std::fmt;
use std::fmt::Write;
use std::process::Abort;
use triple_arena::Arena;
use triple_arena_ptr::{P0, Ptr, Q2};
use triple_arena_test_kit::{is, pointer};

// Of three values the second goes, and the third gets a new pointer.
fn two_left(rt: &impl Abort, alloc: Global) -> Numbers {
    let mut arena: Numbers = Arena::on_heap(alloc);
    arena.insert(7).expect(rt, "memory");
    let second = arena.insert(6).expect(rt, "memory");
    let third = arena.insert(8).expect(rt, "memory");
    drop(arena.remove(second));
    drop(arena.invalidate(third));
    arena
}

const TWO_LEFT: &str = "{P0[1](2): 7, P0[3](4): 8}";

#[test]
fn entries_stand_by_index(rt: HostRuntime) {
    let arena = two_left(&rt, rt.alloc());
    has_text(rt.alloc(), &arena, TWO_LEFT).expect(&rt, "the arena");
}

#[test]
fn a_value_has_its_own_text(rt: HostRuntime) {
    let alloc = rt.alloc();
    let mut texts: Arena<P0, &'static str> = Arena::on_heap(alloc);
    has_text(alloc, &texts, "{}").expect(&rt, "the arena without entries");
    texts.insert("test").expect(&rt, "memory");
    texts.insert("hello").expect(&rt, "memory");
    has_text(alloc, &texts, r#"{P0[1](2): "test", P0[2](2): "hello"}"#).expect(&rt, "the texts");
    let mut links: Arena<P0, (u64, Option<P0>)> = Arena::on_heap(alloc);
    let first = links.insert((42, None)).expect(&rt, "memory");
    links.insert((1337, Some(first))).expect(&rt, "memory");
    let text = "{P0[1](2): (42, None), P0[2](2): (1337, Some(P0[1](2)))}";
    has_text(alloc, &links, text).expect(&rt, "the links");
}

#[test]
fn a_value_holds_pointers_of_two_types(rt: HostRuntime) {
    let hello = pointer(2, 2);
    let mut pairs: Arena<Q2, (P0, Q2)> = Arena::on_heap(rt.alloc());
    let first = pairs.insert((hello, Q2::invalid())).expect(&rt, "memory");
    pairs.insert((hello, first)).expect(&rt, "memory");
    has_text(
        rt.alloc(),
        &pairs,
        "{Q2[1](2): (P0[2](2), Q2[ffffffffffffffff](1)), \
        Q2[2](2): (P0[2](2), Q2[1](2))}",
    )
    .expect(&rt, "the pairs");
}

// Takes so many bytes of a text, and refuses each piece that is longer than what is left of them.
#[derive(Drop)]
struct Refusing {
    bytes_left: usize,
    refusals: usize,
}

impl Write for Refusing {
    fn write_str(&mut self, text: &str) -> fmt::Result {
        match self.bytes_left.checked_sub(text.len()) {
            Some(left) => {
                self.bytes_left = left;
                Ok(())
            }
            None => {
                self.refusals = self.refusals.saturating_add(1);
                Err(fmt::Error)
            }
        }
    }
}

// Writes an arena to a writer that takes so many bytes: how many more it takes then, or how many pieces it
// refused.
fn written(arena: &Numbers, bytes_left: usize) -> Result<usize, usize> {
    let mut writer = Refusing {
        bytes_left,
        refusals: 0,
    };
    match write!(writer, "{arena:?}") {
        Ok(()) => Ok(writer.bytes_left),
        Err(fmt::Error) => Err(writer.refusals),
    }
}

// Each failure before the last byte of the text ends the writing.
#[test]
fn a_writer_that_fails_is_asked_no_more(rt: HostRuntime) {
    let arena = two_left(&rt, rt.alloc());
    for bytes_left in 0..TWO_LEFT.len() {
        is(written(&arena, bytes_left), Err(1)).expect(&rt, "how many pieces are refused");
    }
    is(written(&arena, TWO_LEFT.len()), Ok(0)).expect(&rt, "how many bytes are left");
}
