//! Walks along a chain.

ghost use Rattle.std.specs.Prelude.{◌≡◌, ◌+◌, [], cond, is_some, map, None, IfOk, IsOkAnd, IsSome};
ghost use Rattle.std.specs.Option.{option_map, option_eq};
ghost use Rattle.triple_arena_ptr.specs.Pointers.{is_same};
ghost use Rattle.triple_arena_chain.specs.Chains.{nodes, begun_at, passed, Passes, IsRest};

use crate::chains::Chains;
use crate::laws::walks_along_chains;
use crate::link::Link;
use crate::steps::are_same;
use std::alloc::{AllocError, Global};
use std::marker::Model;
use triple_arena::{ArenaInsertTrait, CompactArenaTrait};
use triple_arena_base::Advancer;
use triple_arena_ptr::Ptr;

/// A place in a chain, or none, which goes on from entry to entry: to the end of an open chain, or
/// once round a ring.
///
/// Over chains that stay it answers the pointers from the one on that it began at, each once. The
/// chains may change between two steps: where its entry is gone, it answers none and stays, and it
/// never answers more pointers behind the first than there were entries when it began.
#[derive(Drop)]
pub struct ChainAdvancer<P: Ptr> {
    next: Option<P>,
    first: Option<P>,
    left: usize,
}

impl<P: Ptr> Model for ChainAdvancer<P> {
    ghost use Rattle.std.specs.Option.{option_map};
    ghost use Rattle.triple_arena_chain.specs.Chains.{ChainStand};

    ghost Value = { ChainStand };

    ghost view = { λ a. record {
      next = option_map P.numbers a.next;
      first = option_map P.numbers a.first;
      left = a.left;
    } };
}

impl<P: Ptr> ChainAdvancer<P> {
    // Passes an entry behind which this one comes.
    fn pass(&mut self, after: Option<P>)
        ensures { self.new ≡ passed self.old (option_map P.numbers after) }
    {
        let done = self.left == 0 || are_one(self.first, after);
        self.next = if done { None } else { after };
        self.left = self.left.saturating_sub(1);
    }
}

// Whether both are none, or one pointer.
fn are_one<P: Ptr>(a: Option<P>, b: Option<P>) -> bool
    ensures { result ≡ option_eq is_same (option_map P.numbers a) (option_map P.numbers b) }
{
    match (a, b) {
        (None, None) => true,
        (Some(p), Some(q)) => are_same(p, q),
        _ => false,
    }
}

impl<P: Ptr, T, A: CompactArenaTrait<P, Link<P, T>> + ArenaInsertTrait<P, Link<P, T>>> Advancer<
    Chains<P, T, A>,
> for ChainAdvancer<P> {
    type Item = P;

    ghost advances = { λ from chains answer to.
        Passes (nodes chains) from (option_map P.numbers answer) to };

    ghost left = { λ stand chains. cond (is_some stand.next) (stand.left + 1) 0 };

    fn advance(&mut self, chains: &Chains<P, T, A>) -> Option<P> {
        let p = self.next?;
        let _value = chains.get(p)?;
        self.pass(chains.after(p));
        Some(p)
    }

    fn empty() -> Self {
        ChainAdvancer {
            next: None,
            first: None,
            left: 0,
        }
    }
}

impl<P: Ptr, T, A: CompactArenaTrait<P, Link<P, T>> + ArenaInsertTrait<P, Link<P, T>>> Chains<
    P,
    T,
    A,
> {
    /// An advancer at a pointer, which goes on along its chain; where the pointer finds nothing, it
    /// answers none.
    pub fn walk(&self, p: P) -> ChainAdvancer<P>
        ensures { result ≡ begun_at (P.numbers p) self.now.len }
    {
        ChainAdvancer {
            next: Some(p),
            first: Some(p),
            left: self.len(),
        }
    }

    /// The pointers of a chain from one on, each once: to its end, or once round a ring. There is none
    /// where the pointer finds nothing, and then no memory is asked for.
    ///
    /// Refused where memory is.
    pub fn rest(&self, p: P, alloc: Global) -> Result<Vec<P>, AllocError>
        ensures rest { IsSome (nodes self.now (P.numbers p)) → IfOk result
            (λ all. IsRest (nodes self.now) (P.numbers p) (map P.numbers all.items)) }
        ensures nothing { nodes self.now (P.numbers p) ≡ None
            → IsOkAnd result (λ all. all.items ≡ []) }
    {
        // Neighbours lead to each other, and entries are counted.
        let _len = self.len();
        walks_along_chains::<T>();
        let mut all = Vec::new(alloc);
        if !self.contains(p) {
            return Ok(all);
        }
        let mut advancer = self.walk(p);
        'walk: while let Some(q) = advancer.advance(self) {
            all.push(q)?;
        }
        Ok(all)
    }
}
