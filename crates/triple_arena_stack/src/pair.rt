//! Two items of a slice, lent at once.
ghost use Rattle.std.specs.Prelude.{◌≡◌, ◌≢◌, ◌<◌, ◌+◌, ◌↔◌, length, slice_get, Some, IsSome, IfSome};
ghost use Rattle.std.specs.Borrow.{sem, LendsBoth, LendsBothIf, Array};
ghost use Rattle.triple_arena_stack.specs.Disjoint.{AreTwo, set_both};

/// The items at the places `i` and `j`, counted from 0, if they are two items of the slice.
///
/// The references are given in the order of the places that were asked for. Each write changes its
/// own item alone.
pub fn pair_if<T>(items: &mut [T], i: usize, j: usize) -> Option<(&mut T, &mut T)>
    ensures variant { IsSome result ↔ AreTwo (length items.old) (i + 1) (j + 1) }
    ensures value { IfSome result (λ pair. (Some pair.0.now ≡ slice_get items.old i)
        × (Some pair.1.now ≡ slice_get items.old j)) }
    ensures* writes_back { sem 𝓛 (LendsBothIf (Array T.row 0) T.row T.row items.entry result
        (set_both items.old i j) items.old) }
{
    let len = items.len();
    let are_two = i < len && j < len && i != j;
    if !are_two {
        return None;
    }
    Some(pair_of(items, i, j))
}

/// The items at the places `i` and `j`, counted from 0, which are two items of the slice.
///
/// As [`pair_if`], for a caller that knows that there are two: both places below the length, and
/// not the same.
pub fn pair_of<T>(items: &mut [T], i: usize, j: usize) -> (&mut T, &mut T)
    requires first_within { i < length items.old }
    requires second_within { j < length items.old }
    requires apart { i ≢ j }
    ensures first { Some result.0.now ≡ slice_get items.old i }
    ensures second { Some result.1.now ≡ slice_get items.old j }
    ensures* writes_back { sem 𝓛 (LendsBoth (Array T.row 0) T.row T.row items.entry result
        (set_both items.old i j)) }
{
    if i < j {
        let (front, back) = items.split_at_mut(j);
        (&mut front[i], &mut back[0])
    } else {
        let (front, back) = items.split_at_mut(i);
        (&mut back[0], &mut front[j])
    }
}
