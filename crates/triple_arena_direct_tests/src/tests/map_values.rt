//! Names in the kit's maps, which follow a compaction.

use crate::tests::compaction::{filled, map_of};
use std::alloc::{AllocError, Global};
use std::collections::{BTreeMap, HashMap};
use triple_arena_direct::{DirectArena, recast_hash_values, recast_values};
use triple_arena_ptr::P0;
use triple_arena_test_kit::{is_shown, pointer};

// The map of a compaction of three entries, of which the first is gone.
fn map_of_three(alloc: Global) -> Option<DirectArena<P0, P0>> {
    let nodes = [(10, None), (20, None), (30, None)];
    let mut nodes = filled(alloc, &nodes, &[1])?;
    map_of(&mut nodes, alloc, false)
}

// Names of the last, the first and the second entry.
fn named(alloc: Global) -> Result<BTreeMap<u64, P0>, AllocError> {
    let mut names = BTreeMap::new(alloc);
    for (name, index) in [(7, 3), (8, 1), (9, 2)] {
        names.insert(name, pointer(index, 2))?;
    }
    Ok(names)
}

fn named_by_hash(alloc: Global) -> Result<HashMap<u64, P0>, AllocError> {
    let mut names = HashMap::new(alloc);
    names.insert(7, pointer(3, 2))?;
    Ok(names)
}

// The name of the entry that is gone leads where it led.
#[test]
fn names_in_a_map_follow(rt: HostRuntime) {
    let alloc = rt.alloc();
    let map = map_of_three(alloc).expect(&rt, "memory for a map");
    let mut names = named(alloc).expect(&rt, "memory for names");
    recast_values(&mut names, &map);
    let text = "{7: P0[2](4), 8: P0[1](2), 9: P0[1](4)}";
    is_shown(alloc, &names, text).expect(&rt, "the names");
}

#[test]
fn a_name_in_a_hash_map_follows(rt: HostRuntime) {
    let alloc = rt.alloc();
    let map = map_of_three(alloc).expect(&rt, "memory for a map");
    let mut names = named_by_hash(alloc).expect(&rt, "memory for a name");
    recast_hash_values(&mut names, &map);
    is_shown(alloc, &names, "{7: P0[2](4)}").expect(&rt, "the name");
}
