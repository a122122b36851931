//! The texts of further pointers, and of indexes and generations of each width.

use super::pointers::at;
use crate::tests::base::displays;
use std::alloc::Global;
use std::fmt;
use std::num::{NonZeroU8, NonZeroU16, NonZeroU32, NonZeroU64, NonZeroU128, NonZeroUsize};
use triple_arena_ptr::{P0, P1, P5, Ptr, PtrGen, PtrInx, PtrNoGen, fmt_pointer};
use triple_arena_test_kit::{is, is_shown};

/// Whether Display and Debug write this text for the pointer of an index number.
pub fn has_text<P: Ptr + fmt::Display>(alloc: Global, number: usize, text: &str) -> bool {
    match at::<P>(number) {
        Some(p) => displays(alloc, &p, text) && is_shown(alloc, &p, text).is_ok(),
        None => false,
    }
}

// Whether Display writes this text for the invalid pointer, and Debug for the default one.
fn invalid_has_text<P: Ptr + Default + fmt::Display>(alloc: Global, text: &str) -> bool {
    displays(alloc, &P::invalid(), text) && is_shown(alloc, &P::default(), text).is_ok()
}

#[test]
fn pointers_have_their_texts(rt: HostRuntime) {
    let alloc = rt.alloc();
    is(has_text::<P0>(alloc, 10, "P0[a](2)"), true).expect(&rt, "P0");
    is(has_text::<PtrNoGen<P0>>(alloc, 1, "P0[1]"), true).expect(&rt, "PtrNoGen of P0");
    is(has_text::<PtrNoGen<P1>>(alloc, 26, "P1[1a]"), true).expect(&rt, "PtrNoGen of P1");
    let invalid = invalid_has_text::<P0>(alloc, "P0[ffffffffffffffff](1)");
    is(invalid, true).expect(&rt, "invalid P0");
    is(invalid_has_text::<P5>(alloc, "P5[ff]"), true).expect(&rt, "invalid P5");
}

// An index and a generation as a pointer's text shows them.
#[derive(Drop)]
struct Parts<I, G>(I, G);

impl<I: PtrInx, G: PtrGen> fmt::Display for Parts<I, G> {
    fn fmt<W: fmt::Write>(&self, f: &mut fmt::Formatter<W>) -> fmt::Result {
        fmt_pointer("W", self.0, self.1, f)
    }
}

// A generation as `fmt_hex` writes it.
#[derive(Drop)]
struct Hex<G>(G);

impl<G: PtrGen> fmt::Display for Hex<G> {
    fn fmt<W: fmt::Write>(&self, f: &mut fmt::Formatter<W>) -> fmt::Result {
        G::fmt_hex(self.0, f)
    }
}

// Whether a pointer of this index and this generation has this text.
fn parts_have_text<I: PtrInx, G: PtrGen>(alloc: Global, inx: I, generation: G, text: &str) -> bool {
    displays(alloc, &Parts(inx, generation), text)
}

#[test]
fn numbers_of_each_width_have_their_texts(rt: HostRuntime) {
    let alloc = rt.alloc();
    let wide = NonZeroU128::new(0x1_0000_0000_0000_00ab).unwrap();
    let text = "W[100000000000000ab](ffffffffffffffffffffffffffffffff)";
    is(parts_have_text(alloc, wide, NonZeroU128::MAX, text), true).expect(&rt, "128 bits");
    let text = "W[ffffffffffffffff](ffffffffffffffff)";
    let of_64 = parts_have_text(alloc, NonZeroU64::MAX, NonZeroU64::MAX, text);
    is(of_64, true).expect(&rt, "64 bits");
    let text = "W[ffffffff](ffffffff)";
    let of_32 = parts_have_text(alloc, NonZeroU32::MAX, NonZeroU32::MAX, text);
    is(of_32, true).expect(&rt, "32 bits");
    let of_16 = parts_have_text(alloc, NonZeroU16::MAX, NonZeroU16::MAX, "W[ffff](ffff)");
    is(of_16, true).expect(&rt, "16 bits");
    let of_8 = parts_have_text(alloc, NonZeroU8::MAX, NonZeroU8::MIN, "W[ff](1)");
    is(of_8, true).expect(&rt, "8 bits");
    let uncounted = parts_have_text(alloc, NonZeroUsize::MAX, (), "W[ffffffffffffffff]");
    is(uncounted, true).expect(&rt, "generations that don't count");
    is(displays(alloc, &Hex(()), "()"), true).expect(&rt, "no generation in hexadecimal");
    is(displays(alloc, &Hex(NonZeroU8::MAX), "ff"), true).expect(&rt, "a byte in hexadecimal");
}
