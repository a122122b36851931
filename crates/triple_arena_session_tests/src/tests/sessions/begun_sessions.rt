//! Sessions that begin over an arena without entries, over each kind of stack: its limit and its counter are
//! as they were.

ghost use Rattle.std.specs.Prelude.{◌≡◌, IfOk};
ghost use Rattle.triple_arena.specs.ArenaState.{arena_len};

use super::kinds::{OnHeap, Slot, answers, answers_strictly};
use super::texts::{Asked, Run};
use std::alloc::Global;
use std::process::Abort;
use triple_arena::{Arena, ArenaTrait};
use triple_arena_base::AllocError;
use triple_arena_direct::StrictArena;
use triple_arena_ptr::{P0, P3, Ptr, PtrGen};
use triple_arena_session::{BeginsOver, Node, Session, StrictSession};
use triple_arena_stack::{
    NonZeroInxArray, NonZeroInxBoxedSlice, NonZeroInxGenericStack, NonZeroInxLimitedVec,
    SetMaxCapacity,
};
use triple_arena_test_kit::{B, Numbered, is};

type Limited = NonZeroInxLimitedVec<Slot<P0>>;

type Fixed = NonZeroInxBoxedSlice<Slot<P0>>;

type InArray = NonZeroInxArray<Slot<P0>, 2>;

// An arena whose counter stands at the generation of this number.
fn counted_to<P: Ptr, S: NonZeroInxGenericStack<Slot<P>>>(
    rt: &impl Abort,
    alloc: Global,
    number: u64,
) -> Arena<P, Node<u64, P>, S>
where
    P::Gen: Numbered,
    ensures { arena_len result ≡ 0 }
{
    let generation = P::Gen::of_number(number).expect(rt, "there is such a generation");
    let mut arena: Arena<P, Node<u64, P>, S> = Arena::new(alloc);
    arena.set_generation(generation);
    arena
}

// A strict arena whose counter was raised so many times.
fn raised<P: Ptr, S: NonZeroInxGenericStack<Slot<P>>>(
    rt: &impl Abort,
    alloc: Global,
    times: u64,
) -> StrictArena<P, Node<u64, P>, S>
    ensures { arena_len result ≡ 0 }
{
    let mut arena: StrictArena<P, Node<u64, P>, S> = StrictArena::new(alloc);
    for datum in 0..times {
        let p = arena
            .insert(Node { datum, link: None })
            .expect(rt, "memory");
        arena.remove(p).expect(rt, "a raise that is left");
    }
    assert!(rt; arena.is_empty());
    arena
}

const COMES_AND_GOES: &str = "insert 7 -\nremove 1\n";

/// The counter stands at the greatest generation of 16 bits: the first removal wraps it. That of a strict
/// arena, of a byte, is at its end after 253 raises: a removal would wrap it.
#[test]
fn a_session_has_the_counter_of_its_arena(rt: HostRuntime) {
    let alloc = rt.alloc();
    let arena = counted_to::<P3, OnHeap<P3>>(&rt, alloc, 65535);
    let mut session: Session<P3, u64> = Session::new(arena, alloc);
    let runs = [Run::of(COMES_AND_GOES, "given 1\nremoved 7 - wrapped\n")];
    answers(&rt, alloc, &mut session, &Asked::of("a counter", &runs));
    let arena = raised::<B, OnHeap<B>>(&rt, alloc, 253);
    let mut session: StrictSession<B, u64> = StrictSession::new(arena, alloc);
    let runs = [Run::of(COMES_AND_GOES, "given 1\nexhausted\n")];
    answers_strictly(
        &rt,
        alloc,
        &mut session,
        &Asked::of("a strict counter", &runs),
    );
}

// An arena with a limit of two.
fn limited_to_two<S: NonZeroInxGenericStack<Slot<P0>> + SetMaxCapacity<Slot<P0>>>(
    rt: &impl Abort,
    alloc: Global,
) -> Arena<P0, Node<u64, P0>, S>
    ensures { arena_len result ≡ 0 }
{
    let mut arena: Arena<P0, Node<u64, P0>, S> = Arena::new(alloc);
    arena
        .set_max_capacity(2)
        .expect(rt, "no entry stands past the limit");
    arena
}

// An arena with room for two.
fn with_room_for_two<S: NonZeroInxGenericStack<Slot<P0>>>(
    alloc: Global,
) -> Result<Arena<P0, Node<u64, P0>, S>, AllocError>
    ensures { IfOk result (λ arena. arena_len arena ≡ 0) }
{
    Arena::with_min_capacity(alloc, 2)
}

// A strict arena with room for two.
fn strict_with_room_for_two<S: NonZeroInxGenericStack<Slot<P0>>>(
    alloc: Global,
) -> Result<StrictArena<P0, Node<u64, P0>, S>, AllocError>
    ensures { IfOk result (λ arena. arena_len arena ≡ 0) }
{
    StrictArena::with_min_capacity(alloc, 2)
}

// Two names are given, and a third insertion is past the limit.
const TAKES_TWO: &str = "insert 7 -\ninsert 8 1\ninsert 9 -\ncompact\nget 2\n";

const TWO_TAKEN: &str = "given 1\ngiven 2\nbeyond max capacity\ncompacted\nfound 8 1\n";

#[test]
fn a_session_has_the_limit_of_its_arena(rt: HostRuntime) {
    let alloc = rt.alloc();
    let runs = [Run::of(TAKES_TWO, TWO_TAKEN)];
    let arena = limited_to_two::<Limited>(&rt, alloc);
    let mut session: Session<P0, u64, Limited> = Session::new(arena, alloc);
    answers(&rt, alloc, &mut session, &Asked::of("a limit", &runs));
    let arena = with_room_for_two::<Fixed>(alloc).expect(&rt, "memory");
    let mut session: Session<P0, u64, Fixed> = Session::new(arena, alloc);
    answers(&rt, alloc, &mut session, &Asked::of("fixed places", &runs));
    let arena = with_room_for_two::<InArray>(alloc).expect(&rt, "two places");
    let mut session: Session<P0, u64, InArray> = Session::new(arena, alloc);
    answers(&rt, alloc, &mut session, &Asked::of("an array", &runs));
    let arena = strict_with_room_for_two::<Limited>(alloc).expect(&rt, "memory");
    let mut session: StrictSession<P0, u64, Limited> = StrictSession::new(arena, alloc);
    answers_strictly(
        &rt,
        alloc,
        &mut session,
        &Asked::of("a strict limit", &runs),
    );
    let arena = strict_with_room_for_two::<Fixed>(alloc).expect(&rt, "memory");
    let mut session: StrictSession<P0, u64, Fixed> = StrictSession::new(arena, alloc);
    answers_strictly(&rt, alloc, &mut session, &Asked::of("strict places", &runs));
    let arena = strict_with_room_for_two::<InArray>(alloc).expect(&rt, "two places");
    let mut session: StrictSession<P0, u64, InArray> = StrictSession::new(arena, alloc);
    answers_strictly(
        &rt,
        alloc,
        &mut session,
        &Asked::of("a strict array", &runs),
    );
}

// Expects sessions to be made with room for eight, and for no more.
fn has_eight_places<S: NonZeroInxGenericStack<Slot<P0>> + Drop>(rt: &impl Abort, alloc: Global) {
    for (room, is_made) in [(8, true), (9, false)] {
        let made = Session::<P0, u64, S>::with_min_capacity(alloc, room);
        is((room, made.is_ok()), (room, is_made)).expect(rt, "whether a session is made");
        let made = StrictSession::<P0, u64, S>::with_min_capacity(alloc, room);
        is((room, made.is_ok()), (room, is_made)).expect(rt, "whether a strict one is made");
    }
}

#[test]
fn an_array_has_room_for_no_more_than_its_places(rt: HostRuntime) {
    has_eight_places::<NonZeroInxArray<Slot<P0>, 8>>(&rt, rt.alloc());
}
