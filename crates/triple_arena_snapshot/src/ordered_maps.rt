//! Maps whose keys are in order, as bytes.

ghost use Rattle.std.specs.Prelude.{◌≡◌, ◌++◌, ◌∷◌, [], true, List, OnOk};
ghost use Rattle.std.specs.List.{flat_map, AllByRecursion};
ghost use Rattle.std.specs.BTreeMap.{keys};
ghost use Rattle.triple_arena_snapshot.specs.Coding.{Gives};
ghost use Rattle.triple_arena_snapshot.specs.Codings.{pair_bytes};
ghost use Rattle.triple_arena_snapshot.specs.MapCodings.{is_above, entries_behind};
ghost use Rattle.triple_arena_snapshot.specs.Maps.{entries, contents};

use crate::codec::Codec;
use crate::fault::{DecodeError, Fault};
use crate::keys::KeyCodec;
use crate::shapes::shape_over_both;
use std::alloc::Global;
use std::collections::BTreeMap;
use triple_arena_base::AllocError;

/// How many entries there are, in eight bytes, and each key with its value, in the order of the keys.
impl<K: KeyCodec + Drop, V: Codec + Drop> Codec for BTreeMap<K, V> {
    ghost Content = { List (K.Key × V.Content) };

    ghost content = { λ m. contents K.key V.content m.entries };

    ghost coding = { entries K.order K.keyed V.coding };

    ghost shape = { 45 ∷ K.shape ++ V.shape };

    ghost asks = { true };

    fn shape_at(at: usize) -> Result<u8, usize> {
        shape_over_both::<K, V>(45, at)
    }

    fn encode(&self, out: &mut Vec<u8>) -> Result<(), AllocError> {
        self.len().encode(out)?;
        encode_entries(self, out)
    }

    fn decode(alloc: Global, bytes: &[u8]) -> Result<(Self, &[u8]), DecodeError> {
        let (count, rest) = u64::decode(alloc, bytes)?;
        decode_entries(alloc, count, rest)
    }
}

// Writes each key and its value, in order.
fn encode_entries<K: KeyCodec, V: Codec>(
    map: &BTreeMap<K, V>,
    out: &mut Vec<u8>,
) -> Result<(), AllocError>
    ensures written { OnOk result (out.new.items ≡ out.old.items
        ++ flat_map (pair_bytes K.keyed.encoding V.coding.encoding) (contents K.key V.content map.now.entries)) }
    ensures fits { OnOk result (AllByRecursion (λ e. K.keyed.fits e.0 × V.coding.fits e.1)
        (contents K.key V.content map.now.entries)) }
{
    for (key, value) in map.iter() {
        key.encode_key(out)?;
        value.encode(out)?;
    }
    Ok(())
}

// So many entries, and the bytes behind them. Room is made entry by entry, each from bytes that are there.
fn decode_entries<K: KeyCodec + Drop, V: Codec + Drop>(
    alloc: Global,
    count: u64,
    bytes: &[u8],
) -> Result<(BTreeMap<K, V>, &[u8]), DecodeError>
    ensures { Gives (λ x. (contents K.key V.content x.0.entries, x.1.now)) result
        (entries_behind K.order K.keyed.decoding V.coding.decoding [] count bytes.now) }
{
    let mut map = BTreeMap::new(alloc);
    let mut rest = bytes;
    for _ in 0..count {
        let (key, behind) = K::decode_key(alloc, rest)?;
        if !is_above(&map, &key) {
            return Err(DecodeError::Malformed(Fault::Order, rest.len()));
        }
        let (value, after) = V::decode(alloc, behind)?;
        map.insert(key, value)?;
        rest = after;
    }
    Ok((map, rest))
}

// Whether the key is above each of the map's: whether it is above the last.
fn is_above<K: Ord, V>(map: &BTreeMap<K, V>, key: &K) -> bool
    ensures { result ≡ is_above K.cmp (keys map.now) key.now }
{
    match map.keys().next_back() {
        Some(last) => last.cmp(key).is_lt(),
        None => true,
    }
}
