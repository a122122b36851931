//! Compaction with recasting: of one arena, with a holder beside it, and of two arenas. Each call that compacts a named arena
//! takes its function some fifteen seconds to prove: so compactions are made of any arena, and one function names it.

mod both_arenas;
mod direct_nodes;
mod holders;
mod renaming;

use std::alloc::Global;
use triple_arena::{Arena, CompactArenaTrait};
use triple_arena_base::{CompactError, InvalidationOption};
use triple_arena_direct::{DirectArena, compress_recast, compress_recast_with, compress_recaster};
use triple_arena_ptr::P0;
use triple_arena_test_kit::{Unlike, inx, is_shown};

/// A number, and a link.
pub type Node<P> = (u64, Option<P>);

pub type Nodes = Arena<P0, Node<P0>>;

/// Nodes, of which those at these indexes are removed.
pub fn filled(alloc: Global, nodes: &[Node<P0>], removed: &[usize]) -> Option<Nodes> {
    let mut arena: Nodes = Arena::on_heap(alloc);
    for node in nodes {
        arena.insert(*node).ok()?;
    }
    for index in removed {
        drop(arena.remove_inx(inx(*index)));
    }
    Some(arena)
}

/// A compaction, and whether it resets the counter.
#[derive(Clone, Copy)]
pub enum Compaction {
    /// `compress_recaster`, which renames no link.
    Mapping(bool),
    /// `compress_recast`.
    Renaming(bool),
    /// `compress_recast_with`, beside a holder.
    Beside,
}

/// What a compaction answers.
pub type Recasting = Result<InvalidationOption<DirectArena<P0, P0>>, CompactError<P0>>;

// Makes a compaction of any arena.
fn compact_any<A: CompactArenaTrait<P0, Node<P0>>>(
    nodes: &mut A,
    holder: &mut Vec<P0>,
    alloc: Global,
    compaction: Compaction,
) -> Recasting {
    match compaction {
        Compaction::Mapping(resets) => match compress_recaster(nodes, alloc, resets) {
            Ok(told) => Ok(told),
            Err(refusal) => Err(CompactError::Reallocation(refusal)),
        },
        Compaction::Renaming(resets) => compress_recast(nodes, alloc, resets),
        Compaction::Beside => compress_recast_with(nodes, holder, alloc, false),
    }
}

/// Makes a compaction.
pub fn compact(
    nodes: &mut Nodes,
    holder: &mut Vec<P0>,
    alloc: Global,
    compaction: Compaction,
) -> Recasting {
    compact_any(nodes, holder, alloc, compaction)
}

/// The map of a compaction that renames no link.
pub fn map_of(nodes: &mut Nodes, alloc: Global, resets: bool) -> Option<DirectArena<P0, P0>> {
    let mut none = Vec::new(alloc);
    match compact(nodes, &mut none, alloc, Compaction::Mapping(resets)) {
        Ok(told) => Some(told.allow()),
        Err(_refusal) => None,
    }
}

/// That Debug writes this text of the answer of a compaction.
pub fn answer_is_shown(alloc: Global, answer: &Recasting, text: &str) -> Result<(), Unlike> {
    is_shown(alloc, answer, text)
}
