//! Values that hold items, and the replacement of these by their images.

ghost use Rattle.std.specs.Prelude.{◌≡◌, List, Option, length};
ghost use Rattle.triple_arena_base.specs.Held.{recast_item, item_answer, recast_items, recast_answer};
ghost use Rattle.triple_arena_base.specs.HeldPairs.{held_both, refill_both};

/// A map of items, which need not have an image for each.
pub trait Recaster {
    /// What is mapped.
    type Item;

    /// The image of an item, or none.
    ghost image: { Self → Self.Item → Option Self.Item };

    /// Replaces the item by its image. Refuses exactly where it has none, with the item, which
    /// stays.
    fn recast_item(&self, item: &mut Self::Item) -> Result<(), Self::Item>
        ensures after { item.new ≡ recast_item (image self.now item.old) item.old }
        ensures answer { result ≡ item_answer (image self.now item.old) item.old };
}

/// A value that holds items of type `I`, in an order.
///
/// The list `held` is what it holds, and `refill` is the value with other items in their places.
/// Both are tied by three laws, so that generic code knows what stands after `recast`.
///
/// What the value holds is what `held` names, and nothing else: a pointer that it leaves out keeps
/// its old name where entries are renamed, and no clause of a library can find that: one of your own does
/// that says what is read through each pointer afterwards. A type that holds none says so
/// (`held_nothing`, `refill_nothing`).
pub trait Recast<I> {
    /// The items that the value holds, in its order.
    ghost held: { Self → List I };

    /// The value with other items in the places of those that it holds.
    ghost refill: { Self → List I → Self };

    /// Replaces the held items by their images, in order. Refuses with the first one that has no
    /// image: the items before it are replaced then, and it and all behind it stay.
    fn recast<R: Recaster<Item = I>>(&mut self, recaster: &R) -> Result<(), I>
        ensures after { self.new ≡ refill self.old
            (recast_items (R.image recaster.now) (held self.old)) }
        ensures answer { result ≡ recast_answer (R.image recaster.now) (held self.old) };

    /// A value that is filled with as many items as it holds then holds these.
    ghost held_refill: { (v : Self) (l : List I) → length l ≡ length (held v)
        → held (refill v l) ≡ l };

    /// A value that is filled with what it holds is unchanged.
    ghost refill_held: { (v : Self) → refill v (held v) ≡ v };

    /// Of two refills the last counts.
    ghost refill_refill: { (v : Self) (l m : List I) → length l ≡ length (held v)
        → length m ≡ length (held v)
        → refill (refill v l) m ≡ refill v m };
}

/// Recasts two parts of a value, such as the fields of a struct, in order: as one value that holds
/// what the first holds, and then what the second holds. Refuses with the first item that has no
/// image: what stands before it is replaced then, and the rest stays.
pub fn recast_both<I, A: Recast<I>, B: Recast<I>, R: Recaster<Item = I>>(
    first: &mut A,
    second: &mut B,
    recaster: &R,
) -> Result<(), I>
    ensures first { first.new ≡ (refill_both A.held A.refill B.held B.refill
        (first.old, second.old) (recast_items (R.image recaster.now)
        (held_both A.held A.refill B.held B.refill (first.old, second.old)))).0 }
    ensures second { second.new ≡ (refill_both A.held A.refill B.held B.refill
        (first.old, second.old) (recast_items (R.image recaster.now)
        (held_both A.held A.refill B.held B.refill (first.old, second.old)))).1 }
    ensures answer { result ≡ recast_answer (R.image recaster.now)
        (held_both A.held A.refill B.held B.refill (first.old, second.old)) }
{
    first.recast(recaster)?;
    second.recast(recaster)
}
