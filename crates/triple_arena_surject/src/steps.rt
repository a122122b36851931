//! Steps on the keys, and on the values of sets. Of rings they know nothing.

ghost use Rattle.std.specs.Prelude.{◌≡◌, ◌≢◌, ◌≤◌, ◌<◌, ◌↔◌, ◌+◌, ℕ, not, List, [], ◌∷◌, map, None, Some, Err, IsOk, IsSome, IfOk, OnOk, OnErr, MatchOption};
ghost use Rattle.std.specs.Option.{option_map};
ghost use Rattle.std.specs.Result.{IfErr};
ghost use Rattle.triple_arena_base.specs.Invalidation.{allowed_option, is_success_option};
ghost use Rattle.triple_arena_ptr.specs.Pointers.{Pointer, is_same};
ghost use Rattle.triple_arena_ptr.specs.Numbers.{greatest_index};
ghost use Rattle.triple_arena_stack.specs.Capacity.{IsFullAtLimit, CanGrow};
ghost use Rattle.triple_arena.specs.Ending.{told};
ghost use Rattle.triple_arena.specs.Entries.{look_up, entry_count};
ghost use Rattle.triple_arena.specs.Histories.{insertion, Continues};
ghost use Rattle.triple_arena_chain.specs.Chains.{nodes, value_at, after_at, before_at, IsCut, IsJoined, KeepsSize};
ghost use Rattle.triple_arena_chain.specs.Room.{HasOneMore, DependsOnRoom};
ghost use Rattle.triple_arena_surject.specs.Rings.{counts, label, with_set, with_keys, CountsLess, IsRound, IsRingOfOne, IsSpliced};

use crate::member::{Member, Shared};
use std::alloc::{AllocError, Global};
use triple_arena::{ArenaInsertTrait, ArenaTrait, CompactArenaTrait};
use triple_arena_base::{InvalidationOption, ReallocationError};
use triple_arena_chain::{ChainError, Chains, Link};
use triple_arena_ptr::{Ptr, PtrInx};

// Whether two pointers are one.
pub(crate) fn are_same<P: Ptr>(p: P, q: P) -> bool
    ensures { result ≡ is_same (P.numbers p) (P.numbers q) }
{
    p == q
}

// An answer, by whether the counter wrapped.
pub(crate) fn telling<X>(wrapped: bool, x: X) -> InvalidationOption<X>
    ensures value { allowed_option result ≡ x }
    ensures told { result ≡ told wrapped (allowed_option result) }
    ensures wrap { not (is_success_option result) ≡ wrapped }
{
    if wrapped {
        InvalidationOption::GenerationOverflow(x)
    } else {
        InvalidationOption::Success(x)
    }
}

// The pointer of the set of a key; none where the key's pointer finds nothing.
pub(crate) fn set_of<
    P: Ptr,
    K,
    A: CompactArenaTrait<P, Link<P, Member<P, K>>> + ArenaInsertTrait<P, Link<P, Member<P, K>>>,
>(keys: &Chains<P, Member<P, K>, A>, p: P) -> Option<P>
    ensures { option_map P.numbers result ≡ label P.numbers (nodes keys.now) (P.numbers p) }
{
    let member = keys.get(p)?;
    Some(member.set)
}

// How many keys a set counts, or 0 where its pointer finds none.
pub(crate) fn size_of<P: Ptr, V, B: ArenaInsertTrait<P, Shared<V>>>(sets: &B, c: P) -> usize
    ensures { IsSome (look_up (B.slots sets.now) (P.numbers c))
        → counts (B.slots sets.now) (P.numbers c) ≡ Some result }
{
    match sets.get(c) {
        Some(shared) => shared.keys,
        None => 0,
    }
}

// Puts a value in, with one key.
pub(crate) fn put<P: Ptr, V: Drop, B: ArenaInsertTrait<P, Shared<V>>>(
    sets: &mut B,
    value: V,
) -> Result<P, ReallocationError>
    ensures free { IfOk result (λ c. look_up (B.slots sets.old) (P.numbers c) ≡ None) }
    ensures found { IfOk result (λ c. look_up (B.slots sets.new) (P.numbers c) ≡ Some record {
      value = value;
      keys = 1;
    }) }
    ensures others { IfOk result (λ c. (d : Pointer) → d ≢ P.numbers c
        → look_up (B.slots sets.new) d ≡ look_up (B.slots sets.old) d) }
    ensures refused { OnErr result (sets.new ≡ sets.old) }
    ensures beyond { (result ≡ Err ReallocationError.BeyondMaxCapacity) ↔ IsFullAtLimit
        (B.capacity sets.old) (B.limit sets.old) (entry_count (B.slots sets.old)) }
    ensures len { OnOk result
        (entry_count (B.slots sets.new) ≡ entry_count (B.slots sets.old) + 1) }
    ensures capacity { OnOk result (B.capacity sets.old ≤ B.capacity sets.new) }
    ensures limit { OnOk result (B.limit sets.new ≡ B.limit sets.old) }
    ensures grown { OnOk result (B.capacity sets.new ≡ B.capacity (B.grown sets.old)) }
    ensures with_memory { CanGrow B.has_memory (B.capacity sets.old) (B.limit sets.old)
        (greatest_index P.Inx.greatest) → IsOk result }
    ensures indexed { OnOk result (entry_count (B.slots sets.old) ≡ B.capacity sets.old
        → B.capacity sets.old < greatest_index P.Inx.greatest) }
    ensures had_place { entry_count (B.slots sets.old) < B.capacity sets.old
        → IsOk result × (B.capacity sets.new ≡ B.capacity sets.old) }
{
    sets.insert(Shared { value, keys: 1 })
}

// Takes a value out, with the count of its keys. Where the pointer finds none, the slots stay.
pub(crate) fn take<P: Ptr, V, B: ArenaInsertTrait<P, Shared<V>>>(
    sets: &mut B,
    c: P,
) -> Option<Shared<V>>
    ensures answer { result ≡ look_up (B.slots sets.old) (P.numbers c) }
    ensures gone { look_up (B.slots sets.new) (P.numbers c) ≡ None }
    ensures others { (d : Pointer) → d ≢ P.numbers c
        → look_up (B.slots sets.new) d ≡ look_up (B.slots sets.old) d }
    ensures len { IsSome result
        → entry_count (B.slots sets.new) + 1 ≡ entry_count (B.slots sets.old) }
    ensures kept { result ≡ None → B.slots sets.new ≡ B.slots sets.old }
    ensures capacity { B.capacity sets.new ≡ B.capacity sets.old }
    ensures limit { B.limit sets.new ≡ B.limit sets.old }
{
    sets.remove(c).allow()
}

// Has a set count so many keys; nothing changes where its pointer finds nothing.
pub(crate) fn count_keys<P: Ptr, V, B: ArenaInsertTrait<P, Shared<V>>>(
    sets: &mut B,
    c: P,
    keys: usize,
)
    ensures there { look_up (B.slots sets.new) (P.numbers c)
        ≡ option_map (with_keys keys) (look_up (B.slots sets.old) (P.numbers c)) }
    ensures others { (d : Pointer) → d ≢ P.numbers c
        → look_up (B.slots sets.new) d ≡ look_up (B.slots sets.old) d }
    ensures len { entry_count (B.slots sets.new) ≡ entry_count (B.slots sets.old) }
    ensures capacity { B.capacity sets.new ≡ B.capacity sets.old }
    ensures limit { B.limit sets.new ≡ B.limit sets.old }
{
    let Some(shared) = sets.get_mut(c) else {
        return;
    };
    shared.keys = keys;
}

// Has a set count one key less; with its last key it goes, and its value comes back.
pub(crate) fn count_less<P: Ptr, V, B: ArenaInsertTrait<P, Shared<V>>>(
    sets: &mut B,
    c: P,
) -> Option<V>
    requires counted { (n : ℕ) × (counts (B.slots sets.old) (P.numbers c) ≡ Some (n + 1)) }
    ensures less { CountsLess (look_up (B.slots sets.old) (P.numbers c))
        (look_up (B.slots sets.new) (P.numbers c)) result }
    ensures others { (d : Pointer) → d ≢ P.numbers c
        → look_up (B.slots sets.new) d ≡ look_up (B.slots sets.old) d }
    ensures len { MatchOption result
        (entry_count (B.slots sets.new) ≡ entry_count (B.slots sets.old))
        (λ _. entry_count (B.slots sets.new) + 1 ≡ entry_count (B.slots sets.old)) }
    ensures capacity { B.capacity sets.new ≡ B.capacity sets.old }
    ensures limit { B.limit sets.new ≡ B.limit sets.old }
{
    let count = size_of(sets, c);
    if count == 1 {
        let taken = take(sets, c);
        let out = taken.unwrap();
        Some(out.value)
    } else {
        count_keys(sets, c, count - 1);
        None
    }
}

// Has the key of a pointer be of another set; nothing changes where it finds nothing.
pub(crate) fn put_set<
    P: Ptr,
    K,
    A: CompactArenaTrait<P, Link<P, Member<P, K>>> + ArenaInsertTrait<P, Link<P, Member<P, K>>>,
>(keys: &mut Chains<P, Member<P, K>, A>, p: P, set: P)
    ensures there { value_at (nodes keys.new) (P.numbers p)
        ≡ option_map (with_set set) (value_at (nodes keys.old) (P.numbers p)) }
    ensures others { (q : Pointer) → q ≢ P.numbers p
        → value_at (nodes keys.new) q ≡ value_at (nodes keys.old) q }
    ensures afters { (q : Pointer) → after_at (nodes keys.new) q ≡ after_at (nodes keys.old) q }
    ensures len { keys.new.len ≡ keys.old.len }
    ensures capacity { keys.new.capacity ≡ keys.old.capacity }
    ensures limit { keys.new.limit ≡ keys.old.limit }
    ensures history { Continues A.fits keys.old.arena [] keys.new.arena }
{
    let Some(member) = keys.get_mut(p) else {
        return;
    };
    member.set = set;
}

// Cuts a chain behind an entry, which is there.
pub(crate) fn cut<
    P: Ptr,
    K,
    A: CompactArenaTrait<P, Link<P, Member<P, K>>> + ArenaInsertTrait<P, Link<P, Member<P, K>>>,
>(keys: &mut Chains<P, Member<P, K>, A>, p: P)
    requires there { IsSome (nodes keys.old (P.numbers p)) }
    ensures cut { IsCut (nodes keys.old)
        (Some (P.numbers p)) (after_at (nodes keys.old) (P.numbers p)) (nodes keys.new) }
    ensures len { keys.new.len ≡ keys.old.len }
    ensures capacity { keys.new.capacity ≡ keys.old.capacity }
    ensures limit { keys.new.limit ≡ keys.old.limit }
    ensures history { Continues A.fits keys.old.arena [] keys.new.arena }
{
    let _cut = keys.cut_after(p);
}

// Has one chain go on with another, where both are open there.
pub(crate) fn join<
    P: Ptr,
    K,
    A: CompactArenaTrait<P, Link<P, Member<P, K>>> + ArenaInsertTrait<P, Link<P, Member<P, K>>>,
>(keys: &mut Chains<P, Member<P, K>, A>, last: P, first: P)
    requires last_there { IsSome (nodes keys.old (P.numbers last)) }
    requires first_there { IsSome (nodes keys.old (P.numbers first)) }
    requires open_after { after_at (nodes keys.old) (P.numbers last) ≡ None }
    requires open_before { before_at (nodes keys.old) (P.numbers first) ≡ None }
    ensures joined { IsJoined (nodes keys.old)
        (P.numbers last) (P.numbers first) (nodes keys.new) }
    ensures size { KeepsSize keys.old keys.new }
    ensures history { Continues A.fits keys.old.arena [] keys.new.arena }
{
    let _joined = keys.join(last, first);
}

// A key alone in a ring.
pub(crate) fn put_alone<
    P: Ptr,
    K: Drop,
    A: CompactArenaTrait<P, Link<P, Member<P, K>>> + ArenaInsertTrait<P, Link<P, Member<P, K>>>,
>(keys: &mut Chains<P, Member<P, K>, A>, member: Member<P, K>) -> Result<P, ChainError>
    ensures alone { IfOk result
        (λ q. IsRingOfOne (nodes keys.old) (P.numbers q) member (nodes keys.new)) }
    ensures size { OnOk result (HasOneMore A.capacity A.grown keys.old keys.new) }
    ensures refused { OnErr result (keys.new ≡ keys.old) }
    ensures room { DependsOnRoom A.has_memory (greatest_index P.Inx.greatest) keys.old result }
    ensures history { IfOk result
        (λ p. Continues A.fits keys.old.arena (insertion (P.numbers p) ∷ []) keys.new.arena) }
{
    match keys.insert_new(member) {
        Ok(p) => {
            join(keys, p, p);
            Ok(p)
        }
        Err(refusal) => Err(refusal),
    }
}

// Makes one ring of two, each of which leads on at one of these pointers.
pub(crate) fn splice<
    P: Ptr,
    K,
    A: CompactArenaTrait<P, Link<P, Member<P, K>>> + ArenaInsertTrait<P, Link<P, Member<P, K>>>,
>(keys: &mut Chains<P, Member<P, K>, A>, p: P, q: P)
    requires apart { P.numbers p ≢ P.numbers q }
    requires next { IsSome (after_at (nodes keys.old) (P.numbers p)) }
    requires then { IsSome (after_at (nodes keys.old) (P.numbers q)) }
    ensures spliced { IsSpliced (nodes keys.old) (P.numbers p) (P.numbers q) (nodes keys.new) }
    ensures len { keys.new.len ≡ keys.old.len }
    ensures capacity { keys.new.capacity ≡ keys.old.capacity }
    ensures limit { keys.new.limit ≡ keys.old.limit }
    ensures history { Continues A.fits keys.old.arena [] keys.new.arena }
{
    // Neighbours lead to each other.
    let _len = keys.len();
    let after_p = keys.after(p);
    let next = after_p.unwrap();
    let after_q = keys.after(q);
    let then = after_q.unwrap();
    cut(keys, p);
    cut(keys, q);
    join(keys, p, then);
    join(keys, q, next);
}

// Has all keys of a ring, which are so many, be of another set.
pub(crate) fn relabel<
    P: Ptr,
    K,
    A: CompactArenaTrait<P, Link<P, Member<P, K>>> + ArenaInsertTrait<P, Link<P, Member<P, K>>>,
>(keys: &mut Chains<P, Member<P, K>, A>, from: P, count: usize, set: P)
    requires round { (c : Pointer) × (rest : List Pointer)
        × IsRound P.numbers (nodes keys.old) c count (P.numbers from) rest }
    ensures moved { (q : Pointer) → label P.numbers (nodes keys.old) q
        ≡ label P.numbers (nodes keys.old) (P.numbers from)
        → value_at (nodes keys.new) q
        ≡ option_map (with_set set) (value_at (nodes keys.old) q) }
    ensures others { (q : Pointer) → label P.numbers (nodes keys.old) q
        ≢ label P.numbers (nodes keys.old) (P.numbers from)
        → value_at (nodes keys.new) q ≡ value_at (nodes keys.old) q }
    ensures afters { (q : Pointer) → after_at (nodes keys.new) q ≡ after_at (nodes keys.old) q }
    ensures len { keys.new.len ≡ keys.old.len }
    ensures capacity { keys.new.capacity ≡ keys.old.capacity }
    ensures limit { keys.new.limit ≡ keys.old.limit }
    ensures history { Continues A.fits keys.old.arena [] keys.new.arena }
{
    // Neighbours lead to each other.
    let _len = keys.len();
    let mut at = from;
    'round: for turn in 0..count {
        put_set(keys, at, set);
        let after = keys.after(at);
        at = after.unwrap();
    }
}

// The pointers of a ring of so many, from one on.
pub(crate) fn ring<
    P: Ptr,
    K,
    A: CompactArenaTrait<P, Link<P, Member<P, K>>> + ArenaInsertTrait<P, Link<P, Member<P, K>>>,
>(
    keys: &Chains<P, Member<P, K>, A>,
    from: P,
    count: usize,
    alloc: Global,
) -> Result<Vec<P>, AllocError>
    requires round { (c : Pointer) × (rest : List Pointer)
        × IsRound P.numbers (nodes keys.now) c count (P.numbers from) rest }
    ensures { IfOk result (λ all. (c : Pointer) × (rest : List Pointer)
        × IsRound P.numbers (nodes keys.now) c count (P.numbers from) rest
        × (map P.numbers all.items ≡ P.numbers from ∷ rest)) }
{
    // Neighbours lead to each other.
    let _len = keys.len();
    let mut all = Vec::new(alloc);
    let mut at = from;
    'walk: for turn in 0..count {
        all.push(at)?;
        let after = keys.after(at);
        at = after.unwrap();
    }
    Ok(all)
}
