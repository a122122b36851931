//! A value with a link, of which is counted how many there are.

ghost use Rattle.std.proofs.Common.{ap};
ghost use Rattle.triple_arena_base.specs.Held.{held_option, refill_option};
ghost use Rattle.triple_arena_base.specs.laws.HeldLaws.{option_held_refill, option_refill_held, option_refill_refill};

use std::alloc::{AllocError, Global};
use std::cell::Cell;
use triple_arena_base::{Recast, Recaster};
use triple_arena_refused_kit::ask;

/// A number and a link. Its clone makes a request for memory.
pub struct Counted<'a, P: Copy> {
    pub number: u64,
    pub link: Option<P>,
    alloc: Global,
    // How many there are.
    live: &'a Cell<u64>,
}

impl<'a, P: Copy> Counted<'a, P> {
    /// One more of those that are counted.
    pub fn new(number: u64, link: Option<P>, alloc: Global, live: &'a Cell<u64>) -> Counted<'a, P> {
        live.set(live.get().wrapping_add(1));
        Counted {
            number,
            link,
            alloc,
            live,
        }
    }
}

impl<P: Copy> Drop for Counted<'_, P> {
    fn drop(self) {
        let Counted {
            number: _number,
            link: _link,
            alloc: _alloc,
            live,
        } = self;
        live.set(live.get().wrapping_sub(1));
    }
}

impl<P: Copy> Clone for Counted<'_, P> {
    ghost use Rattle.std.specs.Prelude.{◌≡◌};

    ghost is_clone = { λ t u. u ≡ t };

    ghost is_infallible = { λ _. ⊥ };

    fn clone(&self) -> Result<Self, AllocError> {
        ask(self.alloc)?;
        self.live.set(self.live.get().wrapping_add(1));
        Ok(Counted {
            number: self.number,
            link: self.link,
            alloc: self.alloc,
            live: self.live,
        })
    }
}

/// Holds what its link holds; the rest stays.
impl<I, P: Recast<I> + Copy> Recast<I> for Counted<'_, P> {
    ghost held = { λ it. held_option P.held it.link };

    ghost refill = { λ it l. record it { link = refill_option P.refill it.link l } };

    fn recast<R: Recaster<Item = I>>(&mut self, recaster: &R) -> Result<(), I> {
        self.link.recast(recaster)
    }

    ghost held_refill = { λ it l h. option_held_refill P.held P.refill P.held_refill it.link l h };

    ghost refill_held = { λ it. ap (λ link. record it { link = link })
        (option_refill_held P.held P.refill P.refill_held it.link) };

    ghost refill_refill = { λ it l m h k. ap (λ link. record it { link = link })
        (option_refill_refill P.held P.refill P.refill_refill it.link l m h k) };
}
