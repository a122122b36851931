//! A strict arena of numbers with links.

use crate::tests::compaction::Node;
use crate::tests::shown::{arena_is_shown, strict_is_shown};
use crate::tests::tables::{Answer, At, Call, Tabled};
use std::alloc::Global;
use std::fmt::Debug;
use std::process::Abort;
use triple_arena_base::ReallocationError;
use triple_arena_direct::{DirectArena, StrictArena, StrictError, into_arena, renew};
use triple_arena_test_kit::{B, Unlike, is_shown, numbers_of, pointer};

type StrictNodes = StrictArena<B, Node<B>>;

/// A strict arena of nodes.
#[derive(Drop)]
pub struct Nodes {
    arena: StrictNodes,
}

impl Nodes {
    /// A new one, and with a room where there is one.
    pub fn new(rt: &impl Abort, alloc: Global, room: usize) -> Nodes {
        if room == 0 {
            return Nodes {
                arena: StrictArena::new(alloc),
            };
        }
        Nodes {
            arena: StrictArena::with_min_capacity(alloc, room).expect(rt, "memory"),
        }
    }

    // The answer of a call that inserts.
    fn inserting(&mut self, call: Call<'_>) -> Option<Answer> {
        match call {
            Call::Insert(number) => Some(inserted(self.arena.insert((number, None)))),
            Call::InsertLinked(number, at) => {
                let link = Some(pointer(at.0, at.1));
                Some(inserted(self.arena.insert((number, link))))
            }
            Call::InsertWithin(number) => {
                Some(match self.arena.insert_within_capacity((number, None)) {
                    Ok(p) => Answer::Given(numbers_of(p)),
                    Err(_full) => Answer::NoPlace,
                })
            }
            Call::InsertReallocating(number) => {
                Some(inserted(self.arena.insert_reallocating((number, None))))
            }
            Call::TryInsert(number) => Some(match self.arena.try_insert((number, None)) {
                Ok(p) => Answer::Given(numbers_of(p)),
                Err(_node) => Answer::NoPlace,
            }),
            Call::InsertHalves(half) => {
                for index in 1..=half.saturating_mul(2) {
                    let told = inserted(if index <= half {
                        self.arena.insert((0, None))
                    } else {
                        self.arena.insert_reallocating((0, None))
                    });
                    if told != Answer::Given((index, 2)) {
                        return Some(told);
                    }
                }
                Some(Answer::Done)
            }
            _ => None,
        }
    }

    // The answer of a call that ends entries or pointers.
    fn ending(&mut self, call: Call<'_>) -> Option<Answer> {
        match call {
            Call::RaiseTo(counter) => {
                for _ in 2..counter {
                    let Ok(p) = self.arena.insert((0, None)) else {
                        return Some(Answer::NoPlace);
                    };
                    if self.arena.remove(p).is_err() {
                        return Some(Answer::Nothing);
                    }
                }
                Some(Answer::Done)
            }
            Call::Remove(at) => Some(match self.arena.remove(pointer(at.0, at.1)) {
                Ok(node) => told_node(node),
                Err(refusal) => Answer::Refused(refusal),
            }),
            Call::Invalidate(at) => Some(match self.arena.invalidate(pointer(at.0, at.1)) {
                Ok(p) => Answer::Given(numbers_of(p)),
                Err(refusal) => Answer::Refused(refusal),
            }),
            Call::Clear => Some(done(self.arena.clear())),
            Call::Compress => Some(done(self.arena.compress())),
            Call::CompressWith => Some(done(self.arena.compress_with(|_old, node, _new| node))),
            _ => None,
        }
    }

    // The answer of a call that reads, or asks for room.
    fn reading(&mut self, call: Call<'_>) -> Option<Answer> {
        match call {
            Call::Get(at) => Some(match self.arena.get(pointer(at.0, at.1)) {
                Some(node) => told_node(*node),
                None => Answer::Nothing,
            }),
            Call::Index(at) => {
                let p = pointer(at.0, at.1);
                if self.arena.contains(p) {
                    Some(told_node(self.arena[p]))
                } else {
                    Some(Answer::Nothing)
                }
            }
            Call::Generation => Some(Answer::Is(self.arena.generation().get() as u64)),
            Call::Len => Some(Answer::Is(self.arena.len() as u64)),
            Call::Capacity => Some(Answer::Is(self.arena.capacity() as u64)),
            Call::Reallocate(least) => Some(match self.arena.reallocate_min_capacity(least) {
                Ok(()) => Answer::Done,
                Err(_refusal) => Answer::NoPlace,
            }),
            Call::Walk => Some(walked(&self.arena)),
            _ => None,
        }
    }

    /// Renews it, of which Debug writes this answer.
    pub fn renewed(self, rt: &impl Abort, alloc: Global, text: &str) -> Nodes {
        let Nodes { arena } = self;
        let (arena, told) = match renew(arena, alloc) {
            Ok((arena, map)) => (arena, Ok(map)),
            Err((arena, refusal)) => (arena, Err(refusal)),
        };
        map_is_shown(alloc, &told, text).expect(rt, "the renewal");
        Nodes { arena }
    }

    /// The sum of the numbers of the nodes, which leave it.
    pub fn sum(self) -> u64 {
        let Nodes { arena } = self;
        let mut sum: u64 = 0;
        for (_p, (number, _link)) in into_arena(arena) {
            sum = sum.saturating_add(number);
        }
        sum
    }
}

impl Tabled for Nodes {
    fn answer(&mut self, call: Call<'_>) -> Option<Answer> {
        self.inserting(call)
            .or(self.ending(call))
            .or(self.reading(call))
    }

    fn shows(&mut self, alloc: Global, call: Call<'_>) -> Option<Result<(), Unlike>> {
        match call {
            Call::CompressRecast(text) => {
                Some(map_is_shown(alloc, &self.arena.compress_recast(alloc), text))
            }
            Call::Text(text) => Some(strict_is_shown(alloc, &self.arena, text)),
            Call::TextInside(text) => Some(arena_is_shown(alloc, self.arena.arena(), text)),
            _ => None,
        }
    }
}

fn map_is_shown<E: Debug>(
    alloc: Global,
    told: &Result<DirectArena<B, B>, E>,
    text: &str,
) -> Result<(), Unlike> {
    is_shown(alloc, told, text)
}

fn walked(nodes: &StrictNodes) -> Answer {
    let (mut by_iter, mut by_vals, mut valid) = (0u64, 0u64, 0u64);
    for (_p, node) in nodes.iter() {
        by_iter = by_iter.saturating_add(node.0);
    }
    for node in nodes.vals() {
        by_vals = by_vals.saturating_add(node.0);
    }
    for p in nodes.ptrs() {
        if nodes.contains(p) {
            valid = valid.saturating_add(1);
        }
    }
    Answer::Met(by_iter, by_vals, valid)
}

fn told_node(node: Node<B>) -> Answer {
    match node.1 {
        Some(p) => Answer::Node(node.0, Some(numbers_of(p))),
        None => Answer::Node(node.0, None),
    }
}

fn inserted(told: Result<B, ReallocationError>) -> Answer {
    match told {
        Ok(p) => Answer::Given(numbers_of(p)),
        Err(_refusal) => Answer::NoPlace,
    }
}

fn done(told: Result<(), StrictError>) -> Answer {
    match told {
        Ok(()) => Answer::Done,
        Err(refusal) => Answer::Refused(refusal),
    }
}
