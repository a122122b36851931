//! Ranges of `NonZeroUsize` with both ends, which may be the greatest one.

ghost use Rattle.std.specs.Prelude.{◌≡◌};
ghost use Rattle.std.specs.Int.NonZero.{non_zero_usize_get};
ghost use Rattle.std.specs.Iterator.{YieldsFirstBy, YieldsLastBy, item_count};
ghost use Rattle.triple_arena_base.specs.NonZeroRange.{numbers_through};

use std::iter::FusedIterator;
use std::marker::Model;
use std::num::NonZeroUsize;

/// The numbers from `start` to `end_inclusive`, rising; none where `end_inclusive` is `None` or
/// below `start`.
///
/// They may reach `usize::MAX`: no sum wraps. What is answered is made an iterator by `into_iter`,
/// as a `for` does, and gives the numbers from either end.
pub fn nzusize_iter(
    start: NonZeroUsize,
    end_inclusive: Option<NonZeroUsize>,
) -> IntoNonZeroUsizeIterator
    ensures { result ≡ numbers_through start end_inclusive }
{
    let end_inclusive = match end_inclusive {
        Some(end) if start.get() <= end.get() => Some(end),
        _ => None,
    };
    IntoNonZeroUsizeIterator(NonZeroUsizeIterator {
        start,
        end_inclusive,
    })
}

/// What `nzusize_iter` answers, seen as the list of its numbers.
#[derive(Drop)]
pub struct IntoNonZeroUsizeIterator(NonZeroUsizeIterator);

impl Model for IntoNonZeroUsizeIterator {
    ghost use Rattle.std.specs.Prelude.{List, ℕ};

    ghost Value = { List ℕ };

    ghost view = { λ it. it.0 };
}

impl IntoIterator for IntoNonZeroUsizeIterator {
    type Item = NonZeroUsize;

    type IntoIter = NonZeroUsizeIterator;

    ghost into_iter_gives = { λ it r. r ≡ it };

    fn into_iter(self) -> NonZeroUsizeIterator {
        let IntoNonZeroUsizeIterator(it) = self;
        it
    }
}

/// The numbers of a range from either end, seen as the list of those that are left.
///
/// `next` takes the first of that list, `next_back` the last, and each answers `None` exactly where
/// the list is empty. So a walk from either end, or from both, ends.
#[derive(Drop)]
pub struct NonZeroUsizeIterator {
    start: NonZeroUsize,
    // `None` where nothing is left.
    end_inclusive: Option<NonZeroUsize>,
}

impl Model for NonZeroUsizeIterator {
    ghost use Rattle.std.specs.Prelude.{List, ℕ, IfSome, ◌≤◌};
    ghost use Rattle.std.specs.Int.NonZero.{non_zero_usize_get};
    ghost use Rattle.triple_arena_base.specs.NonZeroRange.{numbers_through};

    ghost Value = { List ℕ };

    ghost view = { λ it. numbers_through it.start it.end_inclusive };

    ghost invariant = { λ it. IfSome it.end_inclusive
        (λ end. non_zero_usize_get it.start ≤ non_zero_usize_get end) };
}

impl Iterator for NonZeroUsizeIterator {
    type Item = NonZeroUsize;

    ghost next_gives = { YieldsFirstBy non_zero_usize_get (λ rest. rest) };

    ghost remaining = { item_count (λ rest. rest) };

    fn next(&mut self) -> Option<NonZeroUsize> {
        let end = self.end_inclusive?;
        let first = self.start;
        if first.get() == end.get() {
            self.end_inclusive = None;
        } else {
            self.start = first.checked_add(1).unwrap();
        }
        Some(first)
    }
}

impl DoubleEndedIterator for NonZeroUsizeIterator {
    ghost next_back_gives = { YieldsLastBy non_zero_usize_get (λ rest. rest) };

    fn next_back(&mut self) -> Option<NonZeroUsize> {
        let last = self.end_inclusive?;
        if self.start.get() == last.get() {
            self.end_inclusive = None;
        } else {
            self.end_inclusive = NonZeroUsize::new(last.get() - 1);
        }
        Some(last)
    }
}

impl FusedIterator for NonZeroUsizeIterator {}
