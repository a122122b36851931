//! Compactions in which an arena isn't all that holds pointers: memory for each map is asked for before
//! anything changes.

use crate::circuit::{Answer, Circuit, is_renamed};
use crate::compacting::Compaction;
use crate::compactions::{Case, DANGLES, DANGLING, LINKED, on_heap, strictly};
use crate::links::Link;
use crate::told::NO_MEMORY;
use std::alloc::Global;
use triple_arena_refused_kit::{End, Report, Wrong, holds};

// Compactions beside a pointer to the third of three nodes, and beside one to no entry.
const BESIDE: &[(&str, Case)] = &[
    (
        "compress_recast_with",
        Case {
            compaction: Compaction::Beside,
            link: LINKED,
            holder: Some((3, 2)),
        },
    ),
    (
        "compress_recast_with and a dangling holder",
        Case {
            compaction: Compaction::Beside,
            link: LINKED,
            holder: DANGLING,
        },
    ),
];

// For which map of two memory was refused.
fn end_at(answer: Answer) -> Option<End> {
    match answer {
        Answer::First(told) if told == NO_MEMORY => Some(End::PartRefused("the first map")),
        Answer::Second(told) if told == NO_MEMORY => Some(End::PartRefused("the second map")),
        _ => None,
    }
}

// A compaction of two arenas, and once more where memory is refused, which changes nothing. A dangling
// pointer refuses it too, and changes nothing; else each pointer leads where it led.
fn follows(alloc: Global, net: Link, cell: Link, expected: Answer) -> Result<End, Wrong> {
    let mut circuit = Circuit::new(alloc, net, cell)?;
    let before = circuit.seen();
    let mut answer = circuit.compact(alloc);
    let (mut end, mut is_left) = (End::Ample, true);
    if let Some(refused) = end_at(answer) {
        is_left = circuit.seen() == before;
        answer = circuit.compact(alloc);
        end = refused;
    }
    holds(is_left && answer == expected, Wrong::Answer(1))?;
    let left = circuit.seen();
    let stands = if expected == Answer::Done {
        is_renamed(&left)
    } else {
        left == before
    };
    holds(stands, Wrong::State(1))?;
    Ok(end)
}

// The cell and the net behind a gap each.
const BEHIND: Link = Some((2, 2));

pub fn try_each(alloc: Global, report: &mut Report) {
    for (name, case) in BESIDE {
        report.note(*name, "an arena", on_heap(alloc, case));
        report.note(*name, "a strict arena", strictly(alloc, case));
    }
    let kind = "two arenas";
    report.note(
        "compress_recast_both",
        kind,
        follows(alloc, BEHIND, BEHIND, Answer::Done),
    );
    report.note(
        "compress_recast_both and a net without its cell",
        kind,
        follows(alloc, BEHIND, DANGLING, Answer::First(DANGLES)),
    );
    report.note(
        "compress_recast_both and a cell without its net",
        kind,
        follows(alloc, DANGLING, BEHIND, Answer::Second(DANGLES)),
    );
}
