//! Callers over any pointer type, which hold by the laws of `Ptr` with no proof of their own.

ghost use Rattle.std.specs.Prelude.{◌≡◌, ◌==◌};
ghost use Rattle.triple_arena_ptr.specs.Pointers.{is_same};

use super::pointers::at;
use triple_arena_ptr::{P0, P4, Ptr};
use triple_arena_test_kit::is;

// Whether two pointers are one.
fn are_one<P: Ptr>(p: P, q: P) -> bool
    ensures { result ≡ is_same (P.numbers p) (P.numbers q) }
{
    p == q
}

// Whether two pointers have one index.
fn have_one_index<P: Ptr>(p: P, q: P) -> bool
    ensures { result ≡ ((P.numbers p).0 == (P.numbers q).0) }
{
    p.inx() == q.inx()
}

// A pointer, made again of its parts.
fn made_again<P: Ptr>(p: P) -> P
    ensures numbers { P.numbers result ≡ P.numbers p }
    ensures same { result ≡ p }
{
    P::_from_raw(p.inx(), p.generation())
}

// A clone of a pointer, which always is there, and is the pointer.
fn cloned<P: Ptr>(p: P) -> P
    ensures { result ≡ p }
{
    match p.clone() {
        Ok(q) => q,
        Err(_) => unreachable!(),
    }
}

// Whether a pointer is its clone and is made again of its parts, and another is neither.
fn is_its_parts<P: Ptr>(p: P, other: P) -> bool {
    are_one(cloned(p), made_again(p))
        && have_one_index(p, made_again(p))
        && !are_one(cloned(p), other)
        && !have_one_index(p, other)
}

// Whether the first pointer of a type is its parts, and not its last.
fn is_first_its_parts<P: Ptr>() -> bool {
    match at::<P>(1) {
        Some(p) => is_its_parts(p, P::invalid()),
        None => false,
    }
}

#[test]
fn a_pointer_is_its_clone_and_its_parts(rt: HostRuntime) {
    is(is_first_its_parts::<P0>(), true).expect(&rt, "P0");
    is(is_first_its_parts::<P4>(), true).expect(&rt, "P4");
}
