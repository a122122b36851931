use std::alloc::Global;
use std::process::Abort;
use triple_arena::Arena;
use triple_arena_base::CompactError;
use triple_arena_direct::CompactBothError;
use triple_arena_direct_uses::office::{Desk, DeskPtr, Worker, WorkerPtr, compact_office};
use triple_arena_test_kit::{is, is_shown};

type Workers = Arena<WorkerPtr, Worker>;

type Desks = Arena<DeskPtr, Desk>;

fn worker(leader: Option<WorkerPtr>, desk: Option<DeskPtr>) -> Worker {
    Worker {
        badge: 1,
        leader,
        desk,
    }
}

fn desk(owner: Option<WorkerPtr>) -> Desk {
    Desk { room: 5, owner }
}

// That Debug writes these texts of both.
fn are_shown(rt: &impl Abort, alloc: Global, workers: &Workers, desks: &Desks, texts: [&str; 2]) {
    is_shown(alloc, workers, texts[0]).expect(rt, "the workers");
    is_shown(alloc, desks, texts[1]).expect(rt, "the desks");
}

// A worker behind a gap, at a desk behind a gap that is its own.
#[test]
fn workers_and_desks_follow(rt: HostRuntime) {
    let mut workers: Workers = Arena::on_heap(rt.alloc());
    let mut desks: Desks = Arena::on_heap(rt.alloc());
    let gone = workers.insert(worker(None, None)).expect(&rt, "memory");
    let leader = workers.insert(worker(None, None)).expect(&rt, "memory");
    let left = desks.insert(desk(None)).expect(&rt, "memory");
    let seat = desks.insert(desk(Some(leader))).expect(&rt, "memory");
    let seated = worker(Some(leader), Some(seat));
    workers.insert(seated).expect(&rt, "memory");
    drop(workers.remove(gone));
    drop(desks.remove(left));
    let maps = compact_office(&mut workers, &mut desks, rt.alloc());
    is(maps.is_ok(), true).expect(&rt, "memory");
    let texts = [
        "{P0[1](4): Worker { badge: 1, leader: None, desk: None }, P0[2](4): Worker { badge: 1, leader: Some(P0[1](4)), desk: Some(P0[1](4)) }}",
        "{P0[1](4): Desk { room: 5, owner: Some(P0[1](4)) }}",
    ];
    are_shown(&rt, rt.alloc(), &workers, &desks, texts);
}

#[test]
fn an_office_with_a_desk_that_is_gone_stays_as_it_is(rt: HostRuntime) {
    let mut workers: Workers = Arena::on_heap(rt.alloc());
    let mut desks: Desks = Arena::on_heap(rt.alloc());
    let gone = desks.insert(desk(None)).expect(&rt, "memory");
    let at_it = worker(None, Some(gone));
    workers.insert(at_it).expect(&rt, "memory");
    drop(desks.remove(gone));
    let answer = compact_office(&mut workers, &mut desks, rt.alloc());
    let wanted = CompactBothError::Second(CompactError::Unresolved(gone));
    is(answer.err(), Some(wanted)).expect(&rt, "the refusal");
    let texts = [
        "{P0[1](2): Worker { badge: 1, leader: None, desk: Some(P0[1](2)) }}",
        "{}",
    ];
    are_shown(&rt, rt.alloc(), &workers, &desks, texts);
}
