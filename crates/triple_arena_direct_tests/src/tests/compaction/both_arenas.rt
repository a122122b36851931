//! Compaction of two arenas that point at each other.

ghost use Rattle.std.proofs.Common.{ap};
ghost use Rattle.triple_arena_base.specs.Held.{held_itself, refill_itself, held_option, refill_option};
ghost use Rattle.triple_arena_base.specs.laws.HeldLaws.{itself_held_refill, itself_refill_held, itself_refill_refill, option_held_refill, option_refill_held, option_refill_refill};

use crate::tests::shown::{direct_is_shown, strict_is_shown};
use std::alloc::Global;
use std::process::Abort;
use triple_arena_base::{Recast, Recaster};
use triple_arena_direct::StrictArena;
use triple_arena_ptr::{P0, Ptr, Q2};
use triple_arena_test_kit::{inx, is, pointer};

// What points to a cell and to a net, or to either, or to nothing.
#[derive(Clone, Copy, Debug, Drop)]
struct Ends {
    cell: Option<P0>,
    net: Option<Q2>,
}

impl Recast<P0> for Ends {
    ghost held = { λ ends. held_option held_itself ends.cell };

    ghost refill = { λ ends l. record ends { cell = refill_option refill_itself ends.cell l } };

    fn recast<R: Recaster<Item = P0>>(&mut self, recaster: &R) -> Result<(), P0> {
        self.cell.recast(recaster)
    }

    ghost held_refill = { λ ends. option_held_refill held_itself refill_itself
        itself_held_refill ends.cell };

    ghost refill_held = { λ ends. ap (λ cell. record ends { cell = cell })
        (option_refill_held held_itself refill_itself itself_refill_held ends.cell) };

    ghost refill_refill = { λ ends l m h k. ap (λ cell. record ends { cell = cell })
        (option_refill_refill held_itself refill_itself itself_refill_refill ends.cell l m h k) };
}

impl Recast<Q2> for Ends {
    ghost held = { λ ends. held_option held_itself ends.net };

    ghost refill = { λ ends l. record ends { net = refill_option refill_itself ends.net l } };

    fn recast<R: Recaster<Item = Q2>>(&mut self, recaster: &R) -> Result<(), Q2> {
        self.net.recast(recaster)
    }

    ghost held_refill = { λ ends. option_held_refill held_itself refill_itself
        itself_held_refill ends.net };

    ghost refill_held = { λ ends. ap (λ net. record ends { net = net })
        (option_refill_held held_itself refill_itself itself_refill_held ends.net) };

    ghost refill_refill = { λ ends l m h k. ap (λ net. record ends { net = net })
        (option_refill_refill held_itself refill_itself itself_refill_refill ends.net l m h k) };
}

// Ends at a cell and a net under these indexes and the generation 2; none at index 0.
fn at(cell: usize, net: usize) -> Ends {
    Ends {
        cell: if cell == 0 {
            None
        } else {
            Some(pointer(cell, 2))
        },
        net: if net == 0 {
            None
        } else {
            Some(pointer(net, 2))
        },
    }
}

// Cells and nets under (2, 2) and (3, 2), behind gaps, and what they are once they are compacted.
const CELLS: &str = "{P0[1](4): Ends { cell: Some(P0[2](4)), net: Some(Q2[1](4)) }, \
    P0[2](4): Ends { cell: None, net: Some(Q2[2](4)) }}";

const NETS: &str = "{Q2[1](4): Ends { cell: Some(P0[1](4)), net: Some(Q2[2](4)) }, \
    Q2[2](4): Ends { cell: Some(P0[2](4)), net: None }}";

fn linked_cells() -> [Ends; 3] {
    [at(0, 0), at(3, 2), at(0, 3)]
}

fn linked_nets() -> [Ends; 3] {
    [at(0, 0), at(2, 3), at(3, 0)]
}

// A strict arena of three, of which the first is gone.
fn behind_a_gap<P: Ptr>(
    rt: &impl Abort,
    alloc: Global,
    linked: &[Ends; 3],
) -> StrictArena<P, Ends> {
    let mut arena = StrictArena::new(alloc);
    for ends in linked {
        is(arena.insert(*ends).is_ok(), true).expect(rt, "memory");
    }
    is(arena.remove_inx(inx(1)).is_ok(), true).expect(rt, "a removal");
    arena
}

#[test]
fn strict_arenas_follow_each_other(rt: HostRuntime) {
    let alloc = rt.alloc();
    let mut cells: StrictArena<P0, Ends> = behind_a_gap(&rt, alloc, &linked_cells());
    let mut nets: StrictArena<Q2, Ends> = behind_a_gap(&rt, alloc, &linked_nets());
    let (of_cells, of_nets) = cells
        .compress_recast_both(&mut nets, alloc)
        .expect(&rt, "memory for maps");
    let text = "{P0[2](2): P0[1](4), P0[3](2): P0[2](4)}";
    direct_is_shown(alloc, &of_cells, text).expect(&rt, "the map of cells");
    let text = "{Q2[2](2): Q2[1](4), Q2[3](2): Q2[2](4)}";
    direct_is_shown(alloc, &of_nets, text).expect(&rt, "the map of nets");
    strict_is_shown(alloc, &cells, CELLS).expect(&rt, "the cells");
    strict_is_shown(alloc, &nets, NETS).expect(&rt, "the nets");
}
