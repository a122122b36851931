//! Values of the kit's maps, which hold pointers: names that lead to entries.

ghost use Rattle.std.specs.Prelude.{◌≡◌};
ghost use Rattle.std.specs.BTreeMap.{get, keys};
ghost use Rattle.std.specs.HashMap as hash;
ghost use Rattle.std.specs.Option.{option_map};
ghost use Rattle.triple_arena_base.specs.Held.{recast_items};

use std::collections::{BTreeMap, HashMap};
use std::hash::{BuildHasher, Hash};
use triple_arena_base::{Recast, Recaster};

/// Recasts the value of each key: names, say, that lead to entries, by the map of a compaction. The keys
/// stay. Of a map of pointers [`names_follow`](crate::renaming_laws::names_follow) tells where each name
/// leads then.
///
/// It never refuses: a value is recast up to the first item that it holds and that has no image, and no
/// answer tells of it. So a pointer whose entry is gone stays as it is, and may find another entry then.
pub fn recast_values<K: Ord + Drop, I: Drop, V: Recast<I> + Drop, R: Recaster<Item = I>>(
    names: &mut BTreeMap<K, V>,
    map: &R,
)
    ensures values { (name : K) → get K.cmp names.new name
        ≡ option_map (λ v. V.refill v (recast_items (R.image map.now) (V.held v)))
        (get K.cmp names.old name) }
    ensures keys { keys names.new ≡ keys names.old }
{
    names.retain(|_name, value| {
        let _answer = value.recast(map);
        true
    });
}

/// As [`recast_values`], of a `HashMap`.
pub fn recast_hash_values<
    K: Eq + Hash + Drop,
    I: Drop,
    V: Recast<I> + Drop,
    S: BuildHasher,
    R: Recaster<Item = I>,
>(names: &mut HashMap<K, V, S>, map: &R)
    ensures values { (name : K) → hash.get K.eq names.new name
        ≡ option_map (λ v. V.refill v (recast_items (R.image map.now) (V.held v)))
        (hash.get K.eq names.old name) }
    ensures keys { hash.keys names.new ≡ hash.keys names.old }
{
    names.retain(|_name, value| {
        let _answer = value.recast(map);
        true
    });
}
