//! Values that are counted, in chains, in sets of keys and in a cache: each is dropped once.

use crate::tests::chains::Answer::{Done, Entries, Is, Refused, Taken};
use crate::tests::chains::Call::{
    Compress, InsertAfter, InsertBefore, InsertNew, Remove, RemoveChain, Write,
};
use crate::tests::chains::{Row, follow};
use crate::tests::values::{Live, Value, new_value, no_values};
use std::alloc::Global;
use std::num::NonZeroUsize;
use std::process::Abort;
use triple_arena::{Arena, ArenaInsertTrait, ArenaSlot, CompactArenaTrait, NonZeroInxArray};
use triple_arena_chain::ChainError::NoEntry;
use triple_arena_chain::Link;
use triple_arena_chain_uses::Cache;
use triple_arena_ptr::{P0, Ptr};
use triple_arena_surject::{Member, Shared, SurjectArena, SurjectError};
use triple_arena_test_kit::is;

// Each call that ends, replaces or refuses a value, of a chain of three and one beside it: after each row there are as
// many values as entries, and in the end none.
const ENDED: &[Row] = &[
    (InsertNew(2), Done, 1),
    (InsertBefore(0, 1), Done, 2),
    (InsertAfter(0, 3), Done, 3),
    (InsertNew(4), Done, 4),
    (InsertAfter(9, 5), Refused(NoEntry), 4),
    (Write(1, 6), Is(true), 4),
    (Remove(1), Taken(6, 4), 3),
    (RemoveChain(0), Entries(2), 1),
    (Compress, Done, 1),
];

#[test]
fn each_value_of_chains_is_dropped_once(rt: HostRuntime) {
    follow(&rt, rt.alloc(), ENDED).expect(&rt, "their answers");
}

// Puts a new value under a key, and drops the one that it had: whether it had one.
fn keeps(cache: &mut Cache<Value>, key: u64, live: &Live) -> Option<bool> {
    match cache.put(key, new_value(live, key)) {
        Ok(had) => Some(had.is_some()),
        Err(_refusal) => None,
    }
}

// Puts into a new cache of two keys, which is let go then: a value under each, another under the first, and one under
// a third key. No call `drop(cache)` has a proof.
fn each_put(rt: &impl Abort, alloc: Global, live: &Live) {
    let most = NonZeroUsize::new(2).unwrap_or(NonZeroUsize::MIN);
    let mut cache: Cache<Value> = Cache::new(alloc, most).expect(rt, "memory");
    is(keeps(&mut cache, 1, live), Some(false)).expect(rt, "a new key");
    is(keeps(&mut cache, 2, live), Some(false)).expect(rt, "a new key");
    is(live.get(), 2).expect(rt, "the count");
    is(keeps(&mut cache, 1, live), Some(true)).expect(rt, "a key that it has");
    is(live.get(), 2).expect(rt, "the count");
    is(keeps(&mut cache, 3, live), Some(false)).expect(rt, "a new key");
    is(live.get(), 2).expect(rt, "the count");
}

#[test]
fn each_value_of_a_cache_is_dropped_once(rt: HostRuntime) {
    let live = no_values(&rt, rt.alloc());
    each_put(&rt, rt.alloc(), &live);
    is(live.get(), 0).expect(&rt, "the count");
}

// A key.
type Key = Link<P0, Member<P0, Value>>;

// Two places for keys.
type Keys = Arena<P0, Key, NonZeroInxArray<ArenaSlot<P0, Key>, 2>>;

type Sets = SurjectArena<P0, Value, Value, Keys, Arena<P0, Shared<Value>>>;

// What refuses a new set, where there is no place for its key, and another key of this set; and then a key and a value of
// no set.
fn refuses_each<
    A: CompactArenaTrait<P0, Key> + ArenaInsertTrait<P0, Key>,
    B: ArenaInsertTrait<P0, Shared<Value>>,
>(
    sets: &mut SurjectArena<P0, Value, Value, A, B>,
    p: P0,
    live: &Live,
) -> [Option<SurjectError>; 4] {
    let none = P0::invalid();
    [
        sets.insert(new_value(live, 3), new_value(live, 30)).err(),
        sets.insert_key(p, new_value(live, 3)).err(),
        sets.insert_key(none, new_value(live, 3)).err(),
        sets.replace_val(none, new_value(live, 30)).err(),
    ]
}

#[test]
fn keys_and_values_that_are_refused_are_dropped_once(rt: HostRuntime) {
    let live = no_values(&rt, rt.alloc());
    let mut sets: Sets = SurjectArena::new(rt.alloc());
    let p = sets
        .insert(new_value(&live, 1), new_value(&live, 10))
        .expect(&rt, "a place");
    sets.insert_key(p, new_value(&live, 2))
        .expect(&rt, "a place");
    is(live.get(), 3).expect(&rt, "the count");
    let (no_room, no_entry) = (Some(SurjectError::NoRoom), Some(SurjectError::NoEntry));
    let told = refuses_each(&mut sets, p, &live);
    is(told, [no_room, no_room, no_entry, no_entry]).expect(&rt, "the refusals");
    is(live.get(), 3).expect(&rt, "the count");
    drop(sets.remove(p));
    is(live.get(), 0).expect(&rt, "the count");
}
