//! Walks over any compact arena: its entries counted, collected, changed, renewed and taken out.

ghost use Rattle.std.specs.Prelude.{◌≡◌, ◌↔◌, ◌<◌, ◌+◌, ◌%◌, ◌^◌, ℕ, false, All, Contains, IfOk, IsSome, map};
ghost use Rattle.std.specs.List.{range_with_len};
ghost use Rattle.triple_arena_ptr.specs.Pointers.{Pointer};
ghost use Rattle.triple_arena.specs.Entries.{entry_in, look_up, entry_count};
ghost use Rattle.triple_arena.specs.Ending.{told};
ghost use Rattle.triple_arena.specs.FreeList.{IsRising};
ghost use Rattle.triple_arena.specs.Walks.{entries, keys};

use std::alloc::{AllocError, Global};
use triple_arena::CompactArenaTrait;
use triple_arena::laws::{compression_keeps_order, forward_walk, walk_in_order};
use triple_arena_base::{Advancer, InvalidationOption};
use triple_arena_ptr::Ptr;

/// How many entries a walk meets.
pub fn count<P: Ptr, T, A: CompactArenaTrait<P, T>>(arena: &A) -> usize
    ensures { result ≡ entry_count (A.slots arena.now) }
{
    // No more entries than a `usize` counts.
    let _len = arena.len();
    let mut advancer = arena.advancer();
    let mut count = 0;
    'walk: while let Some(_p) = advancer.advance(arena) {
        count += 1;
    }
    count
}

/// All pointers, in the order of their indexes: just those that find an entry.
///
/// Refused where memory is.
pub fn pointers<P: Ptr, T, A: CompactArenaTrait<P, T>>(
    arena: &A,
    alloc: Global,
) -> Result<Vec<P>, AllocError>
    ensures keys { IfOk result (λ all. map P.numbers all.items ≡ keys (A.slots arena.now)) }
    ensures rising { IfOk result (λ all. IsRising 1 (map (λ p. p.0) (map P.numbers all.items))) }
    ensures live { IfOk result (λ all. (p : Pointer) → IsSome (look_up (A.slots arena.now) p)
        ↔ Contains (map P.numbers all.items) p) }
{
    walk_in_order::<T>();
    let mut all = Vec::new(alloc);
    'walk: for p in arena.ptrs() {
        all.push(p)?;
    }
    Ok(all)
}

/// Adds one to each value, by an advancer: the arena is borrowed for each step alone.
pub fn add_one<P: Ptr, A: CompactArenaTrait<P, u64>>(arena: &mut A)
    ensures { entries (A.slots arena.new)
        ≡ map (λ e. (e.0, (e.1 + 1) % 2 ^ 64)) (entries (A.slots arena.old)) }
{
    let mut advancer = arena.advancer();
    'walk: while let Some(p) = advancer.advance(arena) {
        if let Some(value) = arena.get_mut(p) {
            *value = value.wrapping_add(1);
        }
    }
}

/// Adds `n` to each value, by a closure.
pub fn add<P: Ptr, A: CompactArenaTrait<P, u64>>(arena: &mut A, n: u64)
    ensures { entries (A.slots arena.new)
        ≡ map (λ e. (e.0, (e.1 + n) % 2 ^ 64)) (entries (A.slots arena.old)) }
{
    arena.for_each_mut(|_p, value| *value = value.wrapping_add(n));
}

/// Gives each entry a new pointer where the arena counts generations, in the order of the indexes,
/// and collects those that the entries then have: an advancer goes on while the arena changes.
///
/// Refused where memory is; then the entries up to some index have new pointers.
pub fn renew_all<P: Ptr, T, A: CompactArenaTrait<P, T>>(
    arena: &mut A,
    alloc: Global,
) -> Result<Vec<P>, AllocError>
    ensures rising { IfOk result (λ all. IsRising 1 (map (λ p. (P.numbers p).0) all.items)) }
    ensures all { IfOk result (λ all. (i : ℕ) → IsSome (entry_in (A.slots arena.old) i)
        → Contains (map (λ p. (P.numbers p).0) all.items) i) }
    ensures valid { IfOk result (λ all.
        All (λ p. IsSome (look_up (A.slots arena.new) (P.numbers p))) all.items) }
{
    forward_walk::<T>();
    let mut all = Vec::new(alloc);
    let mut advancer = arena.advancer();
    'walk: while let Some(p) = advancer.advance(arena) {
        all.push(arena.invalidate(p).unwrap().allow())?;
    }
    Ok(all)
}

/// Takes out every entry, one by one, by an advancer. It tells of no wrap of the counter.
pub fn remove_all<P: Ptr, T: Drop, A: CompactArenaTrait<P, T>>(arena: &mut A)
    ensures { entry_count (A.slots arena.new) ≡ 0 }
{
    let mut advancer = arena.advancer();
    'walk: while let Some(p) = advancer.advance(arena) {
        drop(arena.remove(p));
    }
}

/// Takes out every entry, one by one, by a drain.
pub fn take_all<P: Ptr, T: Drop, A: CompactArenaTrait<P, T>>(arena: &mut A)
    ensures { entry_count (A.slots arena.new) ≡ 0 }
{
    'walk: for taken in arena.drain() {
        drop(taken);
    }
}

/// Takes three steps of a drain, and lets it go: the arena is empty then.
pub fn drain_three<P: Ptr, T: Drop, A: CompactArenaTrait<P, T>>(arena: &mut A)
    ensures { entry_count (A.slots arena.new) ≡ 0 }
{
    let mut drain = arena.drain();
    drop(drain.next());
    drop(drain.next());
    drop(drain.next());
}

/// Closes the gaps between the entries: they stand at the indexes from 1 to their number, in the
/// order that they had, each with its value. Limit and capacity stay. Tells of a wrap as a
/// compression does.
pub fn close_gaps<P: Ptr, T, A: CompactArenaTrait<P, T>>(arena: &mut A) -> InvalidationOption<()>
    ensures answer { result ≡ told (A.compression_wraps arena.old false) tt }
    ensures indexes { map (λ p. p.0) (keys (A.slots arena.new))
        ≡ range_with_len 1 (entry_count (A.slots arena.old)) }
    ensures order { (p q : Pointer) → IsSome (look_up (A.slots arena.old) p)
        → IsSome (look_up (A.slots arena.old) q) → p.0 < q.0
        → (A.rank arena.old false p).0 < (A.rank arena.old false q).0 }
    ensures found { (p : Pointer) → IsSome (look_up (A.slots arena.old) p)
        → look_up (A.slots arena.new) (A.rank arena.old false p) ≡ look_up (A.slots arena.old) p }
    ensures limit { A.limit arena.new ≡ A.limit arena.old }
    ensures capacity { A.capacity arena.new ≡ A.capacity arena.old }
{
    compression_keeps_order::<P, T, A>();
    arena.compress(false)
}
