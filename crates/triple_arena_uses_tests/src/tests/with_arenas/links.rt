use triple_arena::Arena;
use triple_arena_ptr::P0;
use triple_arena_test_kit::{is, pointer};
use triple_arena_uses::Link;
use triple_arena_uses::links::lead_elsewhere;

fn link(target: Option<P0>) -> Link {
    Link { weight: 5, target }
}

// Two links, of which the second leads nowhere, are led elsewhere twice.
#[test]
fn links_lead_elsewhere(rt: HostRuntime) {
    let there = pointer(9, 3);
    let mut images: Arena<P0, P0> = Arena::on_heap(rt.alloc());
    let here = images.insert(there).expect(&rt, "memory");
    let mut links: Arena<P0, Link> = Arena::on_heap(rt.alloc());
    let first = links.insert(link(Some(here))).expect(&rt, "memory");
    let second = links.insert(link(None)).expect(&rt, "memory");
    let answers = [
        lead_elsewhere(&mut links, &images),
        lead_elsewhere(&mut links, &images),
    ];
    is(answers, [Ok(()), Err(there)]).expect(&rt, "both answers");
    let found = [links.get(first).copied(), links.get(second).copied()];
    is(found, [link(Some(there)), link(None)].map(Some)).expect(&rt, "both links");
}
