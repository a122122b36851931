use super::Numbers;
use std::alloc::Global;
use std::process::Abort;
use triple_arena::Arena;
use triple_arena_base::CompactError;
use triple_arena_direct_uses::elements::{Element, Flop, compact_with_elements};
use triple_arena_direct_uses::holders::{
    LinkBorder, Named, Names, compact_with_border, compact_with_two,
};
use triple_arena_ptr::P0;
use triple_arena_test_kit::{is, numbers_of, pointer};
use triple_arena_uses::{Link, Port};

fn link() -> Link {
    Link {
        weight: 5,
        target: None,
    }
}

// The pointer of a link behind a gap.
fn behind_a_gap(rt: &impl Abort, links: &mut Arena<P0, Link>) -> P0 {
    let gone = links.insert(link()).expect(rt, "memory");
    let kept = links.insert(link()).expect(rt, "memory");
    drop(links.remove(gone));
    kept
}

// Two ports, and a row of the table of names.
fn border(rt: &impl Abort, alloc: Global, link: P0) -> LinkBorder {
    let mut ports = Vec::new(alloc);
    ports.push(Port::Open).expect(rt, "memory");
    ports.push(Port::Input(link)).expect(rt, "memory");
    let mut rows = Vec::new(alloc);
    let name = String::from_str(alloc, "clock").expect(rt, "memory");
    rows.push(Named { name, link }).expect(rt, "memory");
    LinkBorder {
        ports,
        names: Names { rows },
    }
}

// What the second port and the first name lead to.
fn seen(border: &LinkBorder) -> Option<(Numbers, Numbers)> {
    let Some(Port::Input(port)) = border.ports.get(1) else {
        return None;
    };
    let row = border.names.rows.first()?;
    if row.name.as_str() != "clock" {
        return None;
    }
    Some((numbers_of(*port), numbers_of(row.link)))
}

#[test]
fn ports_and_names_follow(rt: HostRuntime) {
    let mut links: Arena<P0, Link> = Arena::on_heap(rt.alloc());
    let mut border = border(&rt, rt.alloc(), behind_a_gap(&rt, &mut links));
    let map = compact_with_border(&mut links, &mut border, rt.alloc());
    is(map.is_ok(), true).expect(&rt, "memory");
    is(seen(&border), Some(((1, 4), (1, 4)))).expect(&rt, "what the border leads to");
}

// The same of two holders that are in no struct together.
#[test]
fn two_holders_follow(rt: HostRuntime) {
    let mut links: Arena<P0, Link> = Arena::on_heap(rt.alloc());
    let kept = behind_a_gap(&rt, &mut links);
    let (mut first, mut second) = (kept, Some(kept));
    let map = compact_with_two(&mut links, &mut first, &mut second, rt.alloc());
    is(map.is_ok(), true).expect(&rt, "memory");
    let led_to = (numbers_of(first), second.map(numbers_of));
    is(led_to, ((1, 4), Some((1, 4)))).expect(&rt, "what the two lead to");
}

// One that isn't in use, a flip-flop and a wire, all of one pin.
fn elements(rt: &impl Abort, alloc: Global, pin: P0) -> Vec<Element> {
    let mut inputs = Vec::new(alloc);
    inputs.push(pin).expect(rt, "memory");
    let flop = Flop {
        inputs,
        clock: pin,
        reset: None,
        begins: true,
    };
    let mut all = Vec::new(alloc);
    all.push(Element::Open).expect(rt, "memory");
    all.push(Element::Clocked(flop)).expect(rt, "memory");
    all.push(Element::Wire { from: pin, load: 7 })
        .expect(rt, "memory");
    all
}

// The input and the clock of the flip-flop, and from where the wire comes.
fn pins(elements: &[Element]) -> Option<[Numbers; 3]> {
    let (Some(Element::Clocked(flop)), Some(Element::Wire { from, load: 7 })) = (
        elements.get(1),
        elements.get(2),
    ) else {
        return None;
    };
    let input = *flop.inputs.first()?;
    Some([input, flop.clock, *from].map(numbers_of))
}

// And once the link is gone to which they lead, nothing changes.
#[test]
fn elements_follow_their_pins(rt: HostRuntime) {
    let mut links: Arena<P0, Link> = Arena::on_heap(rt.alloc());
    let mut elements = elements(&rt, rt.alloc(), behind_a_gap(&rt, &mut links));
    let map = compact_with_elements(&mut links, &mut elements, rt.alloc());
    is(map.is_ok(), true).expect(&rt, "memory");
    is(pins(&elements), Some([(1, 4); 3])).expect(&rt, "what the elements lead to");
    drop(links.remove(pointer(1, 4)));
    let refusal = compact_with_elements(&mut links, &mut elements, rt.alloc()).err();
    is(refusal, Some(CompactError::Unresolved(pointer(1, 4)))).expect(&rt, "the refusal");
    is(pins(&elements), Some([(1, 4); 3])).expect(&rt, "what the elements lead to then");
}
