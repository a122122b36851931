//! All keys of a set.

ghost use Rattle.std.specs.Prelude.{◌≡◌, length, map, None, IsOk, IfOk};
ghost use Rattle.std.specs.Iterator.{YieldsFirstBy, at_most};
ghost use Rattle.triple_arena_surject.specs.Surject.{found_at, AreKeys};

use crate::member::{Member, Shared};
use crate::steps::{ring, set_of, size_of};
use crate::surject::SurjectArena;
use std::alloc::{AllocError, Global};
use std::marker::Model;
use triple_arena::{ArenaInsertTrait, ArenaTrait, CompactArenaTrait};
use triple_arena_chain::{Chains, Link};
use triple_arena_ptr::Ptr;

/// The pointers of the keys of a set, each once.
#[derive(Drop)]
pub struct SetPtrs<
    'a,
    P: Ptr,
    K,
    A: CompactArenaTrait<P, Link<P, Member<P, K>>> + ArenaInsertTrait<P, Link<P, Member<P, K>>>,
> {
    keys: &'a Chains<P, Member<P, K>, A>,
    next: Option<P>,
    // How many are left.
    left: usize,
}

impl<
    'a,
    P: Ptr,
    K,
    A: CompactArenaTrait<P, Link<P, Member<P, K>>> + ArenaInsertTrait<P, Link<P, Member<P, K>>>,
> Model for SetPtrs<'a, P, K, A> {
    ghost use Rattle.std.specs.Prelude.{List, ◌≡◌, length};
    ghost use Rattle.std.specs.Option.{option_map};
    ghost use Rattle.triple_arena_ptr.specs.Pointers.{Pointer};
    ghost use Rattle.triple_arena_chain.specs.Chains.{nodes};
    ghost use Rattle.triple_arena_surject.specs.Rings.{along};

    // What is left.
    ghost Value = { List Pointer };

    ghost view = { λ i. along (nodes i.keys.now) i.left (option_map P.numbers i.next) };

    ghost invariant = { λ i.
        length (along (nodes i.keys.now) i.left (option_map P.numbers i.next)) ≡ i.left };
}

impl<
    'a,
    P: Ptr,
    K,
    A: CompactArenaTrait<P, Link<P, Member<P, K>>> + ArenaInsertTrait<P, Link<P, Member<P, K>>>,
> Iterator for SetPtrs<'a, P, K, A> {
    type Item = P;

    ghost next_gives = { YieldsFirstBy P.numbers (λ rest. rest) };

    ghost remaining = { λ rest. at_most (length rest) };

    fn next(&mut self) -> Option<P> {
        if self.left == 0 {
            return None;
        }
        let p = self.next?;
        self.next = self.keys.after(p);
        self.left -= 1;
        Some(p)
    }

    fn size_hint(&self) -> (usize, Option<usize>) {
        (self.left, Some(self.left))
    }
}

impl<
    'a,
    P: Ptr,
    K,
    A: CompactArenaTrait<P, Link<P, Member<P, K>>> + ArenaInsertTrait<P, Link<P, Member<P, K>>>,
> ExactSizeIterator for SetPtrs<'a, P, K, A> {
    fn len(&self) -> usize {
        self.left
    }
}

impl<
    P: Ptr,
    K,
    V,
    A: CompactArenaTrait<P, Link<P, Member<P, K>>> + ArenaInsertTrait<P, Link<P, Member<P, K>>>,
    B: ArenaInsertTrait<P, Shared<V>>,
> SurjectArena<P, K, V, A, B> {
    /// The pointers of the keys of a pointer's set, each once, to walk; none where the pointer finds nothing. It takes
    /// no memory.
    pub fn set_ptrs(&self, p: P) -> SetPtrs<'_, P, K, A>
        ensures { AreKeys self.now (P.numbers p) result }
    {
        // Neighbours lead to each other.
        let _len = self.keys.len();
        match set_of(&self.keys, p) {
            Some(set) => SetPtrs {
                keys: &self.keys,
                next: Some(p),
                left: size_of(&self.sets, set),
            },
            None => SetPtrs {
                keys: &self.keys,
                next: None,
                left: 0,
            },
        }
    }

    /// The pointers of the keys of a pointer's set, each once; none where the pointer finds nothing.
    ///
    /// Refused where memory is, and never where the pointer finds nothing.
    pub fn key_set(&self, p: P, alloc: Global) -> Result<Vec<P>, AllocError>
        ensures keys { IfOk result
            (λ all. AreKeys self.now (P.numbers p) (map P.numbers all.items)) }
        ensures nothing { found_at self.now (P.numbers p) ≡ None → IsOk result }
    {
        match set_of(&self.keys, p) {
            Some(set) => {
                // Neighbours lead to each other.
                let _len = self.keys.len();
                let count = size_of(&self.sets, set);
                ring(&self.keys, p, count, alloc)
            }
            None => Ok(Vec::new(alloc)),
        }
    }
}
