//! A walk over the entries of all chains.

ghost use Rattle.std.specs.Prelude.{◌≡◌, length};
ghost use Rattle.std.specs.Iterator.{YieldsFirstBy, at_most};
ghost use Rattle.triple_arena_chain.specs.Room.{all_values};

use crate::chains::Chains;
use crate::link::Link;
use std::marker::Model;
use triple_arena::arena_iterators::Iter;
use triple_arena::{ArenaInsertTrait, CompactArenaTrait};
use triple_arena_ptr::Ptr;

/// The pointers and the values of the entries of all chains, in the order of their indexes.
#[derive(Drop)]
pub struct ChainsIter<'a, P: Ptr, T, A: CompactArenaTrait<P, Link<P, T>>> {
    links: Iter<'a, P, Link<P, T>, A>,
}

impl<'a, P: Ptr, T, A: CompactArenaTrait<P, Link<P, T>>> Model for ChainsIter<'a, P, T, A> {
    ghost use Rattle.std.specs.Prelude.{List, map};
    ghost use Rattle.triple_arena_ptr.specs.Pointers.{Pointer};

    // What is left.
    ghost Value = { List (Pointer × T) };

    ghost view = { λ i. map (λ e. (e.0, e.1.value)) i.links };
}

impl<'a, P: Ptr + 'a, T: 'a, A: CompactArenaTrait<P, Link<P, T>>> Iterator
    for ChainsIter<'a, P, T, A> {
    type Item = (P, &'a T);

    ghost next_gives = { YieldsFirstBy (λ item. (P.numbers item.0, item.1.now)) (λ rest. rest) };

    ghost remaining = { λ rest. at_most (length rest) };

    #[inline(always)]
    fn next(&mut self) -> Option<(P, &'a T)> {
        let (p, link) = self.links.next()?;
        Some((p, &link.value))
    }

    fn size_hint(&self) -> (usize, Option<usize>) {
        self.links.size_hint()
    }
}

impl<'a, P: Ptr + 'a, T: 'a, A: CompactArenaTrait<P, Link<P, T>>> ExactSizeIterator
    for ChainsIter<'a, P, T, A> {
    fn len(&self) -> usize {
        self.links.len()
    }
}

impl<P: Ptr, T, A: CompactArenaTrait<P, Link<P, T>> + ArenaInsertTrait<P, Link<P, T>>> Chains<
    P,
    T,
    A,
> {
    /// The pointers and the values of all entries, in the order of their indexes: a walk of the arena,
    /// which follows no chain.
    pub fn iter(&self) -> ChainsIter<'_, P, T, A>
        ensures { result ≡ all_values self.now }
    {
        ChainsIter {
            links: self.arena.iter(),
        }
    }
}
