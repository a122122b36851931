//! What a session keeps under a name.

ghost use Rattle.std.proofs.Common.{ap};
ghost use Rattle.std.specs.Fmt.{debug_option};
ghost use Rattle.triple_arena_base.specs.Held.{held_option, refill_option};
ghost use Rattle.triple_arena_base.specs.laws.HeldLaws.{option_held_refill, option_refill_held, option_refill_refill};
ghost use Rattle.triple_arena_session.specs.NodeText.{pair_text};

use std::fmt;
use triple_arena_base::{Recast, Recaster};

/// A datum, and the pointer of the entry that it links to, if it links to one. It holds its link.
#[derive(Clone, Copy, PartialEq, Eq)]
pub struct Node<X, P> {
    /// What the user of the session gave.
    pub datum: X,
    /// The pointer of the entry that it links to, which may have ended since.
    pub link: Option<P>,
}

/// Writes the pair of the datum and the link: `(20, None)`.
impl<X: fmt::Debug, P: fmt::Debug> fmt::Debug for Node<X, P> {
    ghost debug_output = { λ node. pair_text (X.debug_output node.datum)
        (debug_option P.debug_output node.link) };

    fn fmt<W: fmt::Write>(&self, f: &mut fmt::Formatter<W>) -> fmt::Result {
        (&self.datum, &self.link).fmt(f)
    }
}

/// Holds what its link holds; the datum stays.
impl<I, X, P: Recast<I>> Recast<I> for Node<X, P> {
    ghost held = { λ node. held_option P.held node.link };

    ghost refill = { λ node l. record node { link = refill_option P.refill node.link l } };

    fn recast<R: Recaster<Item = I>>(&mut self, recaster: &R) -> Result<(), I> {
        self.link.recast(recaster)
    }

    ghost held_refill = { λ node l h. option_held_refill P.held P.refill P.held_refill
        node.link l h };

    ghost refill_held = { λ node. ap (λ link. record node { link = link })
        (option_refill_held P.held P.refill P.refill_held node.link) };

    ghost refill_refill = { λ node l m h k. ap (λ link. record node { link = link })
        (option_refill_refill P.held P.refill P.refill_refill node.link l m h k) };
}
