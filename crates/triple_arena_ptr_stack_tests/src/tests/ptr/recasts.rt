//! Pointers that are recast.

ghost use Rattle.std.specs.Prelude.{Some, None, if◌then◌else◌};

use super::pointers::at;
use std::alloc::Global;
use std::process::Abort;
use triple_arena_base::{Recast, Recaster};
use triple_arena_ptr::{P0, Ptr};
use triple_arena_test_kit::is;

// Maps each pointer to one, which itself has no image.
#[derive(Drop)]
struct AllTo<P>(P);

impl<P: Ptr> Recaster for AllTo<P> {
    type Item = P;

    ghost image = { λ r p. if P.eq p r.0 then None else Some r.0 };

    fn recast_item(&self, item: &mut P) -> Result<(), P> {
        if *item == self.0 {
            Err(*item)
        } else {
            *item = self.0;
            Ok(())
        }
    }
}

/// Whether a value that holds pointers is recast with this answer to another, where each pointer is to
/// be one.
pub fn is_recast<P: Ptr, T: Recast<P> + Copy + PartialEq>(
    value: T,
    to: P,
    answer: Result<(), P>,
    wanted: T,
) -> bool {
    let mut value = value;
    recast(&mut value, to) == answer && value == wanted
}

// Recasts a value, where each pointer is to be one.
fn recast<P: Ptr, T: Recast<P>>(value: &mut T, to: P) -> Result<(), P> {
    value.recast(&AllTo(to))
}

// A vector of an optional pointer, none, and the pointer that has no image, once it is recast, and what
// that answers.
fn recast_vector<P: Ptr>(
    rt: &impl Abort,
    alloc: Global,
    p: P,
    last: P,
) -> (Result<(), P>, Vec<Option<P>>) {
    let mut held = Vec::new(alloc);
    held.push(Some(p)).expect(rt, "memory");
    held.push(None).expect(rt, "memory");
    held.push(Some(last)).expect(rt, "memory");
    (recast(&mut held, last), held)
}

#[test]
fn a_vector_is_recast_up_to_the_pointer_without_an_image(rt: HostRuntime) {
    let last = P0::invalid();
    let p = at::<P0>(1).expect(&rt, "a pointer");
    let (answer, held) = recast_vector(&rt, rt.alloc(), p, last);
    is(answer, Err(last)).expect(&rt, "the pointer without an image");
    let replaced = [Some(last), None, Some(last)];
    is(held.as_slice(), replaced.as_slice()).expect(&rt, "the first alone is replaced");
}
