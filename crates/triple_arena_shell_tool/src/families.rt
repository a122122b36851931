//! The arenas that lines may name, by the type of their pointers.

use crate::calls::Stop;
use crate::held::OverAny;
use crate::lines::follow_family;
use std::alloc::Global;
use triple_arena_ptr::{P0, P4, P5};
use triple_arena_test_kit::B;

/// Arenas whose pointers are of one type.
#[derive(Clone, Copy)]
pub enum Family {
    P0,
    P4,
    P5,
    B,
}

/// The family of this name.
pub fn family_of(name: &str) -> Result<Family, Stop> {
    match name {
        "P0" => Ok(Family::P0),
        "P4" => Ok(Family::P4),
        "P5" => Ok(Family::P5),
        "B" => Ok(Family::B),
        _ => Err(Stop::Malformed),
    }
}

/// Follows lines on arenas of this family, from none on, up to a line that names another, if there is one.
pub fn follow<R: Print + Input>(
    rt: &R,
    alloc: Global,
    number: &mut u64,
    family: Family,
) -> Result<Option<Family>, Stop> {
    match family {
        Family::P0 => follow_p0(rt, alloc, number),
        Family::P4 => follow_p4(rt, alloc, number),
        Family::P5 => follow_p5(rt, alloc, number),
        Family::B => follow_b(rt, alloc, number),
    }
}

fn follow_p0<R: Print + Input>(
    rt: &R,
    alloc: Global,
    number: &mut u64,
) -> Result<Option<Family>, Stop> {
    follow_family::<R, OverAny<P0>>(rt, alloc, number)
}

fn follow_p4<R: Print + Input>(
    rt: &R,
    alloc: Global,
    number: &mut u64,
) -> Result<Option<Family>, Stop> {
    follow_family::<R, OverAny<P4>>(rt, alloc, number)
}

fn follow_p5<R: Print + Input>(
    rt: &R,
    alloc: Global,
    number: &mut u64,
) -> Result<Option<Family>, Stop> {
    follow_family::<R, OverAny<P5>>(rt, alloc, number)
}

fn follow_b<R: Print + Input>(
    rt: &R,
    alloc: Global,
    number: &mut u64,
) -> Result<Option<Family>, Stop> {
    follow_family::<R, OverAny<B>>(rt, alloc, number)
}
