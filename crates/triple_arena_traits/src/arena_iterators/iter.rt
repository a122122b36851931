//! Iterators over the entries of any compact arena.

ghost use Rattle.std.specs.Prelude.{◌≡◌, length};
ghost use Rattle.std.specs.Iterator.{YieldsFirstBy, at_most};
ghost use Rattle.triple_arena_traits.specs.Walks.{entries, keys, keys_of, values, values_of};

use crate::arena_trait::ArenaTrait;
use crate::compact_arena_trait::CompactArenaTrait;
use std::marker::{Model, PhantomData};
use triple_arena_base::Advancer;
use triple_arena_ptr::Ptr;

/// The pointers and the values of the entries of an arena, in the order of their indexes.
#[derive(Drop)]
pub struct Iter<'a, P: Ptr, T, A: CompactArenaTrait<P, T>> {
    arena: &'a A,
    advancer: A::PtrAdvancer,
    // How many are left.
    left: usize,
    of: PhantomData<(P, T)>,
}

impl<'a, P: Ptr, T, A: CompactArenaTrait<P, T>> Model for Iter<'a, P, T, A> {
    ghost use Rattle.std.specs.Prelude.{List, ◌≡◌, false, length};
    ghost use Rattle.triple_arena_ptr.specs.Pointers.{Pointer};
    ghost use Rattle.triple_arena_traits.specs.Walks.{entries_ahead};

    // What is left.
    ghost Value = { List (Pointer × T) };

    ghost view = { λ i. entries_ahead (A.stand i.advancer) (A.slots i.arena.now) };

    ghost invariant = { λ i. ((A.stand i.advancer).reverse ≡ false)
        × (i.left ≡ length (entries_ahead (A.stand i.advancer) (A.slots i.arena.now))) };
}

impl<'a, P: Ptr, T, A: CompactArenaTrait<P, T>> Iter<'a, P, T, A> {
    pub(crate) fn over(arena: &'a A) -> Self
        ensures { result ≡ entries (A.slots arena.now) }
    {
        Iter {
            arena,
            advancer: arena.advancer(),
            left: arena.len(),
            of: PhantomData,
        }
    }
}

impl<'a, P: Ptr, T: 'a, A: CompactArenaTrait<P, T>> Iterator for Iter<'a, P, T, A> {
    type Item = (P, &'a T);

    ghost next_gives = { YieldsFirstBy (λ item. (P.numbers item.0, item.1.now)) (λ rest. rest) };

    ghost remaining = { λ rest. at_most (length rest) };

    // Where this is inlined, as all below it, the compiler sees that the look-up finds what the step found, and each slot
    // is looked at once.
    #[inline(always)]
    fn next(&mut self) -> Option<(P, &'a T)> {
        let arena = self.arena;
        let p = self.advancer.advance(arena)?;
        self.left -= 1;
        Some((p, arena.get(p).unwrap()))
    }

    fn size_hint(&self) -> (usize, Option<usize>) {
        (self.left, Some(self.left))
    }
}

impl<'a, P: Ptr, T: 'a, A: CompactArenaTrait<P, T>> ExactSizeIterator for Iter<'a, P, T, A> {
    fn len(&self) -> usize {
        self.left
    }
}

/// The pointers of the entries of an arena, in the order of their indexes.
#[derive(Drop)]
pub struct Ptrs<'a, P: Ptr, T, A: CompactArenaTrait<P, T>> {
    arena: &'a A,
    advancer: A::PtrAdvancer,
    // How many are left.
    left: usize,
    of: PhantomData<(P, T)>,
}

impl<'a, P: Ptr, T, A: CompactArenaTrait<P, T>> Model for Ptrs<'a, P, T, A> {
    ghost use Rattle.std.specs.Prelude.{List, ◌≡◌, false, length};
    ghost use Rattle.triple_arena_ptr.specs.Pointers.{Pointer};
    ghost use Rattle.triple_arena_traits.specs.Walks.{keys_ahead};

    // What is left.
    ghost Value = { List Pointer };

    ghost view = { λ i. keys_ahead (A.stand i.advancer) (A.slots i.arena.now) };

    ghost invariant = { λ i. ((A.stand i.advancer).reverse ≡ false)
        × (i.left ≡ length (keys_ahead (A.stand i.advancer) (A.slots i.arena.now))) };
}

impl<'a, P: Ptr, T, A: CompactArenaTrait<P, T>> Ptrs<'a, P, T, A> {
    pub(crate) fn over(arena: &'a A) -> Self
        ensures { result ≡ keys (A.slots arena.now) }
    {
        Ptrs {
            arena,
            advancer: arena.advancer(),
            left: arena.len(),
            of: PhantomData,
        }
    }
}

impl<'a, P: Ptr, T, A: CompactArenaTrait<P, T>> Iterator for Ptrs<'a, P, T, A> {
    type Item = P;

    ghost next_gives = { YieldsFirstBy P.numbers (λ rest. rest) };

    ghost remaining = { λ rest. at_most (length rest) };

    #[inline(always)]
    fn next(&mut self) -> Option<P> {
        let p = self.advancer.advance(self.arena)?;
        self.left -= 1;
        Some(p)
    }

    fn size_hint(&self) -> (usize, Option<usize>) {
        (self.left, Some(self.left))
    }
}

impl<'a, P: Ptr, T: 'a, A: CompactArenaTrait<P, T>> ExactSizeIterator for Ptrs<'a, P, T, A> {
    fn len(&self) -> usize {
        self.left
    }
}

/// The values of the entries of an arena, in the order of their indexes.
#[derive(Drop)]
pub struct Vals<'a, P: Ptr, T, A: CompactArenaTrait<P, T>> {
    entries: Iter<'a, P, T, A>,
}

impl<'a, P: Ptr, T, A: CompactArenaTrait<P, T>> Model for Vals<'a, P, T, A> {
    ghost use Rattle.std.specs.Prelude.{List};
    ghost use Rattle.triple_arena_traits.specs.Walks.{values_of};

    // What is left.
    ghost Value = { List T };

    ghost view = { λ i. values_of i.entries };
}

impl<'a, P: Ptr, T, A: CompactArenaTrait<P, T>> Vals<'a, P, T, A> {
    pub(crate) fn over(arena: &'a A) -> Self
        ensures { result ≡ values (A.slots arena.now) }
    {
        Vals {
            entries: Iter::over(arena),
        }
    }
}

impl<'a, P: Ptr, T: 'a, A: CompactArenaTrait<P, T>> Iterator for Vals<'a, P, T, A> {
    type Item = &'a T;

    ghost next_gives = { YieldsFirstBy (λ value. value.now) (λ rest. rest) };

    ghost remaining = { λ rest. at_most (length rest) };

    #[inline(always)]
    fn next(&mut self) -> Option<&'a T> {
        let (_p, value) = self.entries.next()?;
        Some(value)
    }

    fn size_hint(&self) -> (usize, Option<usize>) {
        self.entries.size_hint()
    }
}

impl<'a, P: Ptr, T: 'a, A: CompactArenaTrait<P, T>> ExactSizeIterator for Vals<'a, P, T, A> {
    fn len(&self) -> usize {
        self.entries.len()
    }
}
