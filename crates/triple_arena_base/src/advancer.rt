//! Walks that borrow their collection for each step alone.

ghost use Rattle.std.specs.Prelude.{◌≡◌, ℕ, ◌<◌, Option, None, IsSome};

/// A place in a collection `C`, which goes on to the next item on each call.
///
/// The collection is borrowed for each call alone, so that it may change between two of them. Each
/// advancer says by `advances` what a call answers, and where it stands then. Over a collection that
/// stays a walk ends: each answered item takes one from `left`.
pub trait Advancer<C>: Drop {
    /// What is answered.
    type Item;

    /// What a call answers over a collection, and what the advancer is after it.
    ghost advances: { Self → C → Option Self.Item → Self → Type 0 };

    /// How many more calls answer an item at most, if the collection stays as it is.
    ghost left: { Self → C → ℕ };

    /// The next item, or none.
    fn advance(&mut self, collection: &C) -> Option<Self::Item>
        ensures steps { advances self.old collection.now result self.new }
        ensures fewer { IsSome result
            → left self.new collection.now < left self.old collection.now };

    /// A place nowhere: each call answers none and leaves it there, whatever the collection.
    fn empty() -> Self
        ensures { (collection : C) (answer : Option Self.Item) (next : Self)
            → advances result collection answer next → (answer ≡ None) × (next ≡ result) };
}
