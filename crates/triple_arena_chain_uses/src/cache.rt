//! A cache of the keys last used: what a user makes of chains.

ghost use Rattle.std.specs.Prelude.{◌≡◌, ℕ, ◌-◌, ◌≤◌, ◌<◌, ◌≢◌, ◌⊎◌, List, [], ◌∷◌, ◌++◌, length, take, cond, None, Some, IfOk, OnOk, OnErr, IfSome, IsSome, MatchOption, nat_eq, option_copied, is_some, true, false};
ghost use Rattle.std.specs.HashMap.{get, spare};
ghost use Rattle.std.specs.Int.NonZero.{non_zero_usize_get};
ghost use Rattle.std.specs.Map.{lookup, remove_entry};
ghost use Rattle.std.specs.Option.{option_map, option_and_then};
ghost use Rattle.std.specs.Result.{IfErr};
ghost use Rattle.triple_arena_chain_uses.specs.Cache.{used_first, exchanged};

use std::alloc::Global;
use std::collections::HashMap;
use std::marker::Model;
use std::num::NonZeroUsize;
use triple_arena_chain::{ChainError, Chains, P0, Place, Ptr};

/// Values under keys, of which it keeps those last used, and at most so many.
///
/// A key is used where it is put and where it is promoted. Clauses see its keys with their values in
/// the order of their last use, so that the last of them goes next.
///
/// All stand in one ring, behind the one entry that has no key: in front of that stands what goes
/// next.
#[derive(Drop)]
pub struct Cache<T> {
    places: HashMap<u64, P0>,
    uses: Chains<P0, Option<(u64, T)>>,
    bare: P0,
    most: usize,
}

impl<T> Model for Cache<T> {
    ghost use Rattle.std.specs.Prelude.{◌≡◌, List, None};
    ghost use Rattle.triple_arena_chain.specs.Pointers.{Pointer};
    ghost use Rattle.triple_arena_chain.specs.Chains.{nodes, after_at};
    ghost use Rattle.triple_arena_chain_uses.specs.Cache.{CacheState, uses_from, place_in, IsOrder};

    ghost Value = { CacheState T };

    ghost view = { λ c. record {
      entries = uses_from c.uses.len (nodes c.uses)
          (after_at (nodes c.uses) (⟦<P0 as Ptr>⟧.numbers c.bare));
      most = c.most;
    } };

    ghost invariant = { λ c. (order : List Pointer) × IsOrder (nodes c.uses) c.uses.len
        (⟦<P0 as Ptr>⟧.numbers c.bare) (place_in ⟦<P0 as Ptr>⟧.numbers c.places) c.most order
        × (c.uses.limit ≡ None) };
}

impl<T> Cache<T> {
    /// A cache without keys, which keeps this many at most.
    ///
    /// `NoMemory` where memory for the entry without a key is refused.
    pub fn new(alloc: Global, most: NonZeroUsize) -> Result<Self, ChainError>
    where
        T: Drop,
        ensures made { IfOk result (λ cache. cache
            ≡ record { entries = []; most = non_zero_usize_get most }) }
        ensures refusal { IfErr result (λ refusal. refusal ≡ ChainError.NoMemory) }
    {
        let mut uses = Chains::new(alloc);
        let bare = match uses.insert_new(None) {
            Ok(bare) => bare,
            Err(refusal) => return Err(refusal),
        };
        let ring = uses.join(bare, bare);
        // It had no neighbour, so it has itself for one now.
        ring.unwrap();
        // Neighbours lead to each other.
        let _len = uses.len();
        let places = HashMap::new(alloc);
        Ok(Cache {
            places,
            uses,
            bare,
            most: most.get(),
        })
    }

    /// How many keys it has.
    pub fn len(&self) -> usize
        ensures value { result ≡ length self.now.entries }
        ensures within { length self.now.entries ≤ self.now.most }
    {
        self.uses.len() - 1
    }

    /// The value of a key, which isn't used by that.
    pub fn peek(&self, key: u64) -> Option<&T>
        ensures { option_copied result ≡ lookup (nat_eq key) self.now.entries }
    {
        let place = self.places.get(&key);
        match place {
            Some(p) => {
                let pair = self.uses.get(*p);
                value_of(pair)
            }
            None => None,
        }
    }

    /// The key that goes next: the one whose last use is the longest ago.
    pub fn oldest(&self) -> Option<u64>
        ensures oldest { MatchOption result (self.now.entries ≡ [])
            (λ key. (newer : List (ℕ × T)) × (value : T)
            × (self.now.entries ≡ newer ++ (key, value) ∷ [])) }
        ensures goes { IfSome result (λ key. IsSome (lookup (nat_eq key) self.now.entries)
            × (remove_entry (nat_eq key) self.now.entries
            ≡ take (length self.now.entries - 1) self.now.entries)) }
    {
        let last = self.uses.before(self.bare);
        match last {
            Some(p) => {
                let pair = self.uses.get(p);
                key_of(pair)
            }
            None => None,
        }
    }

    /// Uses a key, and tells whether it has a value.
    pub fn promote(&mut self, key: u64) -> bool
    where
        T: Drop,
        ensures had { result ≡ is_some (lookup (nat_eq key) self.old.entries) }
        ensures used { self.new ≡ used_first key self.old }
    {
        let Some(_value) = self.peek(key) else {
            return false;
        };
        let turned = self.give_way(key, key, None);
        // Memory is refused to a new key alone.
        let _left = turned.unwrap();
        true
    }

    /// Puts a value under a key, which is used by that, and gives the one that it had. Where it had
    /// none, and there are as many keys as are kept, the one that goes next goes.
    ///
    /// `NoMemory`, and only where the key is new and memory for it is refused; then nothing changes, and
    /// the value is dropped. A full cache takes no memory in its arena, but may in its map, by whose
    /// clauses the place of a key that goes need not serve another.
    pub fn put(&mut self, key: u64, value: T) -> Result<Option<T>, ChainError>
    where
        T: Drop,
        ensures had { IfOk result (λ had. had ≡ lookup (nat_eq key) self.old.entries) }
        ensures put { OnOk result (self.new.entries ≡ (key, value)
            ∷ take (self.old.most - 1) (remove_entry (nat_eq key) self.old.entries)) }
        ensures most { self.new.most ≡ self.old.most }
        ensures fresh { OnErr result (lookup (nat_eq key) self.old.entries ≡ None) }
        ensures refusal { IfErr result (λ refusal. refusal ≡ ChainError.NoMemory) }
        ensures refused { OnErr result (self.new ≡ self.old) }
    {
        match self.renew(key, value) {
            Ok(was) => Ok(Some(was)),
            Err(value) => match self.put_new(key, value) {
                Ok(()) => Ok(None),
                Err(refusal) => Err(refusal),
            },
        }
    }

    // Puts another value under a key, and gives the one that it had; or gives back the value where the
    // key has none.
    fn renew(&mut self, key: u64, value: T) -> Result<T, T>
    where
        T: Drop,
        ensures had { IfOk result (λ was. lookup (nat_eq key) self.old.entries ≡ Some was) }
        ensures put { OnOk result (self.new.entries
            ≡ (key, value) ∷ remove_entry (nat_eq key) self.old.entries) }
        ensures fewer { OnOk result
            (length (remove_entry (nat_eq key) self.old.entries) < self.old.most) }
        ensures most { self.new.most ≡ self.old.most }
        ensures none { OnErr result (lookup (nat_eq key) self.old.entries ≡ None) }
        ensures given_back { IfErr result (λ given. given ≡ value) }
        ensures refused { OnErr result (self.new ≡ self.old) }
    {
        let Some(_value) = self.peek(key) else {
            return Err(value);
        };
        // No more keys than are kept.
        let _len = self.len();
        let turned = self.give_way(key, key, Some(value));
        // Memory is refused to a new key alone.
        let left = turned.unwrap();
        Ok(left.unwrap())
    }

    // Puts a value under a new key; where there are as many as are kept, the one that goes next goes.
    fn put_new(&mut self, key: u64, value: T) -> Result<(), ChainError>
    where
        T: Drop,
        requires { lookup (nat_eq key) self.old.entries ≡ None }
        ensures put { OnOk result (self.new.entries
            ≡ (key, value) ∷ take (self.old.most - 1) self.old.entries) }
        ensures most { self.new.most ≡ self.old.most }
        ensures refusal { IfErr result (λ refusal. refusal ≡ ChainError.NoMemory) }
        ensures refused { OnErr result (self.new ≡ self.old) }
    {
        if self.is_full() {
            self.replace_last(key, value)
        } else {
            self.add(key, value)
        }
    }

    // Whether it has as many keys as are kept.
    fn is_full(&self) -> bool
        ensures full { result ≡ true → length self.now.entries ≡ self.now.most }
        ensures room { result ≡ false → length self.now.entries < self.now.most }
        ensures some { 0 < self.now.most }
    {
        self.uses.len() > self.most
    }

    // Puts a value under a new key, where there is room for one.
    fn add(&mut self, key: u64, value: T) -> Result<(), ChainError>
    where
        T: Drop,
        requires fresh { lookup (nat_eq key) self.old.entries ≡ None }
        requires room { length self.old.entries < self.old.most }
        ensures put { OnOk result (self.new.entries
            ≡ (key, value) ∷ take (self.old.most - 1) self.old.entries) }
        ensures most { self.new.most ≡ self.old.most }
        ensures refusal { IfErr result (λ refusal. refusal ≡ ChainError.NoMemory) }
        ensures refused { OnErr result (self.new ≡ self.old) }
    {
        if self.places.reserve(1).is_err() {
            return Err(ChainError::NoMemory);
        }
        match self
            .uses
            .insert(Place::After(self.bare), Some((key, value)))
        {
            Ok(q) => {
                let placed: Result<_, _> = self.places.insert(key, q);
                let _was_at = placed.unwrap();
                Ok(())
            }
            Err(refusal) => Err(refusal),
        }
    }

    // Puts a value under a new key in the place of the key that goes next, where as many are there as
    // are kept.
    fn replace_last(&mut self, key: u64, value: T) -> Result<(), ChainError>
    where
        T: Drop,
        requires fresh { lookup (nat_eq key) self.old.entries ≡ None }
        requires full { length self.old.entries ≡ self.old.most }
        requires some { 0 < self.old.most }
        ensures put { OnOk result (self.new.entries
            ≡ (key, value) ∷ take (self.old.most - 1) self.old.entries) }
        ensures most { self.new.most ≡ self.old.most }
        ensures refusal { IfErr result (λ refusal. refusal ≡ ChainError.NoMemory) }
        ensures refused { OnErr result (self.new ≡ self.old) }
    {
        let oldest = self.oldest();
        let gone = oldest.unwrap();
        match self.give_way(gone, key, Some(value)) {
            Ok(_left) => Ok(()),
            Err(refusal) => Err(refusal),
        }
    }

    // A key goes, and one comes to stand first, the same or a new one: with this value, or where none is
    // given, with that of the key that goes. Gives the value that goes with the key, if it does.
    fn give_way(&mut self, gone: u64, key: u64, value: Option<T>) -> Result<Option<T>, ChainError>
    where
        T: Drop,
        requires there { IsSome (lookup (nat_eq gone) self.old.entries) }
        requires fresh { (key ≡ gone) ⊎ (lookup (nat_eq key) self.old.entries ≡ None) }
        ensures put { IfOk result (λ left. (had : T)
            × (lookup (nat_eq gone) self.old.entries ≡ Some had) × (left ≡ (exchanged value had).1)
            × (self.new.entries
            ≡ (key, (exchanged value had).0) ∷ remove_entry (nat_eq gone) self.old.entries)) }
        ensures most { self.new.most ≡ self.old.most }
        ensures refusal { IfErr result
            (λ refusal. (refusal ≡ ChainError.NoMemory) × (key ≢ gone)) }
        ensures refused { OnErr result (self.new ≡ self.old) }
    {
        if !have_place(&mut self.places, gone, key) {
            return Err(ChainError::NoMemory);
        }
        // No more entries than fit.
        let _len = self.uses.len();
        let place = self.places.get(&gone);
        let at = place.unwrap();
        let p = *at;
        let taken = self.uses.remove(p);
        let told = taken.unwrap();
        let pair = told.allow();
        let had = pair.unwrap();
        let (first, left) = exchange(value, had.1);
        let put = self
            .uses
            .insert(Place::After(self.bare), Some((key, first)));
        let q = put.unwrap();
        give_place(&mut self.places, gone, key, q);
        Ok(left)
    }
}

// Of a value that is given, or not, and one that was had: which stays, and which is left over, if one is.
fn exchange<T>(given: Option<T>, had: T) -> (T, Option<T>)
    ensures { result ≡ exchanged given had }
{
    match given {
        Some(value) => (value, Some(had)),
        None => (had, None),
    }
}

// Whether there is memory for the place of a key, which may be the one that goes.
fn have_place(places: &mut HashMap<u64, P0>, gone: u64, key: u64) -> bool
    ensures same { (k : ℕ) → get nat_eq places.new k ≡ get nat_eq places.old k }
    ensures room { result ≡ true → (key ≡ gone) ⊎ (0 < spare places.new) }
    ensures refused { result ≡ false → key ≢ gone }
{
    key == gone || places.reserve(1).is_ok()
}

// A key's place goes, and another key, or the same, has this one.
fn give_place(places: &mut HashMap<u64, P0>, gone: u64, key: u64, place: P0)
    requires there { IsSome (get nat_eq places.old gone) }
    requires room { (key ≡ gone) ⊎ (0 < spare places.old) }
    ensures { (k : ℕ) → get nat_eq places.new k ≡ cond (nat_eq key k) (Some place)
        (cond (nat_eq gone k) None (get nat_eq places.old k)) }
{
    if key != gone {
        let _gone = places.remove(&gone);
    }
    let placed: Result<_, _> = places.insert(key, place);
    let _was_at = placed.unwrap();
}

// The value of what is read under a pointer, if it has a key.
fn value_of<T>(pair: Option<&Option<(u64, T)>>) -> Option<&T>
    ensures { option_copied result
        ≡ option_map (λ pair. pair.1) (option_and_then (λ pair. pair) (option_copied pair.entry)) }
{
    match pair {
        Some(Some((_key, value))) => Some(value),
        _ => None,
    }
}

// Its key, if it has one.
fn key_of<T>(pair: Option<&Option<(u64, T)>>) -> Option<u64>
    ensures { result
        ≡ option_map (λ pair. pair.0) (option_and_then (λ pair. pair) (option_copied pair.entry)) }
{
    match pair {
        Some(Some((key, _value))) => Some(*key),
        _ => None,
    }
}
