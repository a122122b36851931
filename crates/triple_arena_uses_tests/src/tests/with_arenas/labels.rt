use super::Numbers;
use std::alloc::Global;
use std::process::Abort;
use triple_arena::Arena;
use triple_arena_base::CompactError;
use triple_arena_direct::CompactBothError;
use triple_arena_direct_uses::circuit::{Cell, Net};
use triple_arena_direct_uses::labels::{Labels, compact_labelled};
use triple_arena_ptr::{P0, Ptr, Q2};
use triple_arena_test_kit::{is, numbers_of, pointer};

fn cell(alloc: Global) -> Cell {
    Cell {
        kind: 1,
        reads: Vec::new(alloc),
    }
}

fn net(alloc: Global) -> Net {
    Net {
        label: 2,
        driver: None,
        sinks: Vec::new(alloc),
    }
}

// The pointer of the second of two entries, of which the first is gone.
fn behind_a_gap<P: Ptr, T: Drop>(
    rt: &impl Abort,
    arena: &mut Arena<P, T>,
    first: T,
    second: T,
) -> P {
    let gone = arena.insert(first).expect(rt, "memory");
    let kept = arena.insert(second).expect(rt, "memory");
    drop(arena.remove(gone));
    kept
}

// A label of a cell, and one of a net.
fn labels(rt: &impl Abort, alloc: Global, c: P0, n: Q2) -> Labels {
    let (mut cells, mut nets) = (Vec::new(alloc), Vec::new(alloc));
    cells.push((10, c)).expect(rt, "memory");
    nets.push((20, n)).expect(rt, "memory");
    Labels { cells, nets }
}

// Both labels, and what they lead to.
fn seen(labels: &Labels) -> Option<[(u64, Numbers); 2]> {
    let (cell, net) = (labels.cells.first()?, labels.nets.first()?);
    Some([(cell.0, numbers_of(cell.1)), (net.0, numbers_of(net.1))])
}

const LED: Option<[(u64, Numbers); 2]> = Some([(10, (1, 4)), (20, (1, 4))]);

// And once the net is gone, nothing changes.
#[test]
fn labels_follow_two_arenas(rt: HostRuntime) {
    let alloc = rt.alloc();
    let mut cells: Arena<P0, Cell> = Arena::on_heap(alloc);
    let mut nets: Arena<Q2, Net> = Arena::on_heap(alloc);
    let c = behind_a_gap(&rt, &mut cells, cell(alloc), cell(alloc));
    let n = behind_a_gap(&rt, &mut nets, net(alloc), net(alloc));
    let mut labels = labels(&rt, alloc, c, n);
    let maps = compact_labelled(&mut cells, &mut nets, &mut labels, alloc);
    is(maps.is_ok(), true).expect(&rt, "memory");
    is(seen(&labels), LED).expect(&rt, "what the labels lead to");
    drop(nets.remove(pointer(1, 4)));
    let refusal = compact_labelled(&mut cells, &mut nets, &mut labels, alloc).err();
    let gone = CompactError::Unresolved(pointer(1, 4));
    is(refusal, Some(CompactBothError::Second(gone))).expect(&rt, "the refusal");
    is(seen(&labels), LED).expect(&rt, "what the labels lead to then");
    is(cells.contains(pointer(1, 4)), true).expect(&rt, "whether the cell stays");
}
