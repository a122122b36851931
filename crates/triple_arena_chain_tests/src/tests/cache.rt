use lru::LruCache;
use rand_core::Rng;
use rand_pcg::Pcg64Mcg;
use std::num::NonZeroUsize;
use std::process::Abort;
use triple_arena_chain_uses::Cache;
use triple_arena_test_kit::is;

/// The calls of a cache, without clauses.
trait Caches {
    /// The value that a key had, where it is put under it.
    fn put_under(&mut self, rt: &impl Abort, key: u64, value: u64) -> Option<u64>;

    /// The value of a key, which is used then.
    fn used(&mut self, key: u64) -> Option<u64>;

    fn next_to_go(&self) -> Option<u64>;
}

impl Caches for Cache<u64> {
    fn put_under(&mut self, rt: &impl Abort, key: u64, value: u64) -> Option<u64> {
        self.put(key, value).expect(rt, "memory")
    }

    fn used(&mut self, key: u64) -> Option<u64> {
        let value = self.peek(key).copied();
        let had = self.promote(key);
        if had { value } else { None }
    }

    fn next_to_go(&self) -> Option<u64> {
        self.oldest()
    }
}

impl Caches for LruCache<u64, u64> {
    fn put_under(&mut self, rt: &impl Abort, key: u64, value: u64) -> Option<u64> {
        self.put(key, value).expect(rt, "memory")
    }

    fn used(&mut self, key: u64) -> Option<u64> {
        self.get(&key).copied()
    }

    fn next_to_go(&self) -> Option<u64> {
        self.peek_lru().map(|entry| *entry.0)
    }
}

// That the same random calls are answered alike by both.
fn check_alike<A: Caches, B: Caches>(rt: &impl Abort, ours: &mut A, theirs: &mut B, calls: u32) {
    let mut random = Pcg64Mcg::new(0xcafe_f00d_d15e_a5e5);
    for i in 0..calls {
        let word = random.next_u64();
        let key = (word >> 32) % 100;
        let answers = if word % 3 == 0 {
            let value = i as u64;
            (
                ours.put_under(rt, key, value),
                theirs.put_under(rt, key, value),
            )
        } else {
            (ours.used(key), theirs.used(key))
        };
        is(answers.0, answers.1).expect(rt, "the answers of both");
    }
    is(ours.next_to_go(), theirs.next_to_go()).expect(rt, "the key that goes next");
}

#[test]
fn a_cache_of_the_last_used_answers_as_the_kits(rt: HostRuntime) {
    let most = NonZeroUsize::new(30).unwrap_or(NonZeroUsize::MIN);
    let mut ours: Cache<u64> = Cache::new(rt.alloc(), most).expect(&rt, "memory");
    let mut theirs: LruCache<u64, u64> = LruCache::new(rt.alloc(), most).expect(&rt, "memory");
    check_alike(&rt, &mut ours, &mut theirs, 100_000);
    is(ours.len(), 30).expect(&rt, "as many keys as it keeps");
}

// How many keys a large cache keeps.
const KEPT: usize = 5_000;

// How many are put into it.
const PUT: u64 = 12_000;

// How many of these go again, the first.
const GONE: u64 = 7_000;

// Puts each key with its own number, and uses all of them then: whether each is kept or gone.
fn fills<C: Caches>(rt: &impl Abort, cache: &mut C) {
    for key in 0..PUT {
        is(cache.put_under(rt, key, key), None).expect(rt, "a new key");
    }
    is(cache.next_to_go(), Some(GONE)).expect(rt, "the key that goes next");
    for key in 0..PUT {
        let kept = if key < GONE { None } else { Some(key) };
        is(cache.used(key), kept).expect(rt, "the value of a key");
    }
}

#[test]
fn a_cache_keeps_five_thousand_keys(rt: HostRuntime) {
    let most = NonZeroUsize::new(KEPT).unwrap_or(NonZeroUsize::MIN);
    let mut cache: Cache<u64> = Cache::new(rt.alloc(), most).expect(&rt, "memory");
    fills(&rt, &mut cache);
    is(cache.len(), KEPT).expect(&rt, "as many keys as it keeps");
}
