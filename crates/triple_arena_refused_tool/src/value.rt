//! The value that arenas hold here.

ghost use Rattle.std.proofs.Common.{ap};
ghost use Rattle.triple_arena_base.specs.Held.{held_itself, refill_itself, held_option, refill_option};
ghost use Rattle.triple_arena_base.specs.laws.HeldLaws.{itself_held_refill, itself_refill_held, itself_refill_refill, option_held_refill, option_refill_held, option_refill_refill};

use crate::links::{Link, link_of, linked, shown_link};
use std::alloc::{AllocError, Global};
use triple_arena_base::{Recast, Recaster};
use triple_arena_ptr::{P0, Q2};
use triple_arena_refused_kit::ask;

/// A number, and what it points to in an arena of each of two types of pointers. Its clone makes a request for
/// memory.
#[derive(Drop)]
pub struct Value {
    pub number: u64,
    pub link: Option<P0>,
    pub net: Option<Q2>,
    alloc: Global,
}

/// A number and links, of which a value is made.
#[derive(Clone, Copy)]
pub struct Row {
    pub number: u64,
    pub link: Link,
    pub net: Link,
}

/// A number without links.
pub fn plain(number: u64) -> Row {
    Row {
        number,
        link: None,
        net: None,
    }
}

/// A number with a link.
pub fn with_link(number: u64, link: Link) -> Row {
    Row {
        number,
        link,
        net: None,
    }
}

impl Row {
    pub fn value(self, alloc: Global) -> Value {
        Value {
            number: self.number,
            link: linked(self.link),
            net: linked(self.net),
            alloc,
        }
    }

    /// The number of which its value is shown: its own, 100 times that of its link, and 1000000 times that of the other.
    /// Rows have smaller numbers.
    pub fn shown(self) -> u64 {
        let link = shown_link(self.link).wrapping_mul(100);
        let net = shown_link(self.net).wrapping_mul(1_000_000);
        self.number.wrapping_add(link).wrapping_add(net)
    }
}

impl Value {
    /// The number of which it is shown, as its row.
    pub fn shown(&self) -> u64 {
        let row = Row {
            number: self.number,
            link: link_of(self.link),
            net: link_of(self.net),
        };
        row.shown()
    }
}

impl Clone for Value {
    ghost use Rattle.std.specs.Prelude.{◌≡◌};

    ghost is_clone = { λ t u. u ≡ t };

    ghost is_infallible = { λ _. ⊥ };

    fn clone(&self) -> Result<Value, AllocError> {
        ask(self.alloc)?;
        Ok(Value {
            number: self.number,
            link: self.link,
            net: self.net,
            alloc: self.alloc,
        })
    }
}

/// Holds what its link holds; the rest stays.
impl Recast<P0> for Value {
    ghost held = { λ value. held_option held_itself value.link };

    ghost refill = { λ value l. record value { link = refill_option refill_itself value.link l } };

    fn recast<R: Recaster<Item = P0>>(&mut self, recaster: &R) -> Result<(), P0> {
        self.link.recast(recaster)
    }

    ghost held_refill = { λ value. option_held_refill held_itself refill_itself
        itself_held_refill value.link };

    ghost refill_held = { λ value. ap (λ link. record value { link = link })
        (option_refill_held held_itself refill_itself itself_refill_held value.link) };

    ghost refill_refill = { λ value l m h k. ap (λ link. record value { link = link })
        (option_refill_refill held_itself refill_itself itself_refill_refill value.link l m h k) };
}

/// Holds what its other link holds; the rest stays.
impl Recast<Q2> for Value {
    ghost held = { λ value. held_option held_itself value.net };

    ghost refill = { λ value l. record value { net = refill_option refill_itself value.net l } };

    fn recast<R: Recaster<Item = Q2>>(&mut self, recaster: &R) -> Result<(), Q2> {
        self.net.recast(recaster)
    }

    ghost held_refill = { λ value. option_held_refill held_itself refill_itself
        itself_held_refill value.net };

    ghost refill_held = { λ value. ap (λ net. record value { net = net })
        (option_refill_held held_itself refill_itself itself_refill_held value.net) };

    ghost refill_refill = { λ value l m h k. ap (λ net. record value { net = net })
        (option_refill_refill held_itself refill_itself itself_refill_refill value.net l m h k) };
}
