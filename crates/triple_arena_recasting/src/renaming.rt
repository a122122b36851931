//! Compaction that tells the new pointers, and that renames those which the values hold.

ghost use Rattle.std.specs.Prelude.{◌≡◌, ◌≤◌, ◌⊎◌, ◌∷◌, ◌++◌, false, [], map, length, None, Some, IsSome, IsOk, OnOk, OnErr, IfOk};
ghost use Rattle.std.specs.Option.{option_map};
ghost use Rattle.std.specs.Result.{IfErr};
ghost use Rattle.triple_arena_base.specs.Held.{held_all};
ghost use Rattle.triple_arena_base.specs.Invalidation.{allowed_option};
ghost use Rattle.triple_arena_ptr.specs.Pointers.{Pointer};
ghost use Rattle.triple_arena_ptr.specs.Numbers.{greatest_index};
ghost use Rattle.triple_arena_stack.specs.StackKind.{new_room, new_limit};
ghost use Rattle.triple_arena_direct_arena.specs.DirectState.{direct_capacity};
ghost use Rattle.triple_arena_traits.specs.Entries.{look_up, entry_count};
ghost use Rattle.triple_arena_traits.specs.FreeList.{last_index};
ghost use Rattle.triple_arena_traits.specs.Ending.{told};
ghost use Rattle.triple_arena_traits.specs.Histories.{History, compression, begun_with, CountsUp, Continues};
ghost use Rattle.triple_arena_traits.specs.Walks.{keys, values};
ghost use Rattle.triple_arena_recasting.specs.Compacted.{TellsMap, KeepsSize, IsCompactedKeeping, IsCompactedRenaming};
ghost use Rattle.triple_arena_recasting.specs.Renaming.{MapsPointers, first_unresolved, IsRenamed, RefusesMemory, Refuses, IsUnresolved, MapHasMemory};

use std::alloc::Global;
use std::convert::Infallible;
use std::marker::PhantomData;
use triple_arena_base::{
    Advancer, CloneFromError, CompactError, InvalidationOption, ReallocationError, Recast, Recaster,
};
use triple_arena_direct_arena::{DirectArena, DirectSlot};
use triple_arena_ptr::{Ptr, PtrGen, PtrInx};
use triple_arena_stack::NonZeroInxGenericStack;
use triple_arena_traits::last_index::last_index;
use triple_arena_traits::{ArenaCloneFromWith, ArenaTrait, CompactArenaTrait, recast_entries};

/// Compresses the arena, and gives the map from each old pointer of an entry to its new one: a
/// recaster, by which the pointers to these entries that are kept elsewhere can follow. It has no
/// other pointer, and the answer tells of a wrap exactly where the compression wraps.
///
/// Refused only where there is an entry, and memory for the map is refused; then nothing changes.
pub fn compress_recaster<P: Ptr, T, A: CompactArenaTrait<P, T>>(
    this: &mut A,
    alloc: Global,
    reset_generation: bool,
) -> Result<InvalidationOption<DirectArena<P, P>>, ReallocationError>
    // Done: the map leads from the old pointers to the new ones. The arena is compacted, and no value
    // changes.
    ensures map { IfOk result (TellsMap P.numbers (A.rank this.old reset_generation) (A.slots this.old)
        (A.compression_wraps this.old reset_generation)) }
    ensures compacted { OnOk result (IsCompactedKeeping A.slots A.fits
        (A.compresses this.old reset_generation) (A.rank this.old reset_generation)
        P.Gen.generations (A.compression_wraps this.old reset_generation) reset_generation
        this.old this.new) }

    // Refused: nothing has changed, and the error tells why.
    ensures refused { OnErr result (this.new ≡ this.old) }
    ensures refusal { IfErr result (RefusesMemory (entry_count (A.slots this.old))) }

    // In each case entries are as many as before, and limit and capacity stay.
    ensures size { KeepsSize A.slots A.limit A.capacity this.old this.new }
{
    let mut all = own_map(this, alloc)?;
    let answer = this.compress(reset_generation);
    put_pointers(&mut all, this);
    Ok(answer.map(|()| all))
}

/// Compresses the arena, renames each pointer that a value of it holds to the one that its entry
/// has then, and gives the map from old pointers to new ones, as [`compress_recaster`] does.
///
/// Memory for the map is asked for first: `Reallocation` only where there is an entry. Then
/// `Unresolved` exactly where a value holds a pointer that finds no entry, with the first one, in
/// the order of the indexes and of holding. In both cases nothing has changed.
pub fn compress_recast<P: Ptr, T: Recast<P>, A: CompactArenaTrait<P, T>>(
    this: &mut A,
    alloc: Global,
    reset_generation: bool,
) -> Result<InvalidationOption<DirectArena<P, P>>, CompactError<P>>
    // Done: the map leads from the old pointers to the new ones. The arena is compacted, and each
    // pointer that its values hold is renamed. Each of these found an entry.
    ensures map { IfOk result (TellsMap P.numbers (A.rank this.old reset_generation) (A.slots this.old)
        (A.compression_wraps this.old reset_generation)) }
    ensures compacted { OnOk result (IsCompactedRenaming A.slots A.fits
        (A.compresses this.old reset_generation) (A.rank this.old reset_generation)
        P.Gen.generations (A.compression_wraps this.old reset_generation) reset_generation
        P.numbers T.held T.refill this.old this.new) }
    ensures resolved { OnOk result (first_unresolved P.numbers (A.slots this.old)
        (held_all T.held (values (A.slots this.old))) ≡ None) }

    // Refused: nothing has changed, and the error tells why.
    ensures refused { OnErr result (this.new ≡ this.old) }
    ensures refusal { IfErr result (Refuses (entry_count (A.slots this.old))
        (first_unresolved P.numbers (A.slots this.old)
        (held_all T.held (values (A.slots this.old))))) }

    // In each case entries are as many as before, and limit and capacity stay.
    ensures size { KeepsSize A.slots A.limit A.capacity this.old this.new }
{
    let mut images = resolved_map(this, alloc)?;
    let answer = compress_renaming(this, &mut images, reset_generation);
    Ok(answer.map(|()| images))
}

/// As [`compress_recast`], and renames each pointer that `holder` holds, too: a value or an arena
/// beside this one, which points into it.
///
/// The holder is asked before anything changes. Memory for the map comes first: `Reallocation` only
/// where there is an entry. Then `Unresolved` exactly where a value or the holder holds a pointer that
/// finds no entry, with the first one: those of the values come first, in the order of the indexes
/// and of holding, and then the holder's. In both cases nothing has changed, in the arena or in the
/// holder.
///
/// What the holder holds is what its [`Recast`] names: a pointer that its `held` leaves out keeps its
/// old name, and no clause can find that.
///
/// Of more holders than one see [`unresolved`].
pub fn compress_recast_with<P: Ptr, T: Recast<P>, A: CompactArenaTrait<P, T>, H: Recast<P>>(
    this: &mut A,
    holder: &mut H,
    alloc: Global,
    reset_generation: bool,
) -> Result<InvalidationOption<DirectArena<P, P>>, CompactError<P>>
    // Done: the map leads from the old pointers to the new ones. The arena is compacted, and each
    // pointer that its values or the holder hold is renamed. Each of these found an entry.
    ensures map { IfOk result (TellsMap P.numbers (A.rank this.old reset_generation) (A.slots this.old)
        (A.compression_wraps this.old reset_generation)) }
    ensures compacted { OnOk result (IsCompactedRenaming A.slots A.fits
        (A.compresses this.old reset_generation) (A.rank this.old reset_generation)
        P.Gen.generations (A.compression_wraps this.old reset_generation) reset_generation
        P.numbers T.held T.refill this.old this.new) }
    ensures renamed { OnOk result (IsRenamed P.numbers (A.rank this.old reset_generation)
        H.held H.refill holder.old holder.new) }
    ensures resolved { OnOk result (first_unresolved P.numbers (A.slots this.old)
        (held_all T.held (values (A.slots this.old)) ++ H.held holder.old) ≡ None) }

    // Refused: nothing has changed, and the error tells why.
    ensures refused { OnErr result ((this.new ≡ this.old) × (holder.new ≡ holder.old)) }
    ensures refusal { IfErr result (Refuses (entry_count (A.slots this.old))
        (first_unresolved P.numbers (A.slots this.old)
        (held_all T.held (values (A.slots this.old)) ++ H.held holder.old))) }

    // In each case entries are as many as before, and limit and capacity stay.
    ensures size { KeepsSize A.slots A.limit A.capacity this.old this.new }
{
    let mut pointers = resolved_with(this, holder, alloc)?;
    let answer = compress_renaming(this, &mut pointers, reset_generation);
    // Each pointer of the holder has an image: it had one in the map of the old pointers.
    let _renamed = holder.recast(&pointers);
    Ok(answer.map(|()| pointers))
}

/// The first pointer, in the order of holding, that `holder` holds and that finds no entry in `this`;
/// none exactly where each finds one. Nothing changes, and it takes no memory.
///
/// The holder is a `&mut` since only [`Recast::recast`] goes through what a value holds; each pointer
/// is replaced by itself.
///
/// By it any number of holders follow one compaction, or none does: first it is asked of each, then
/// the arena is compressed, by [`compress_recast`], or [`compress_recaster`] where its values hold none
/// of its pointers, and then `holder.recast(&map)` of each succeeds, and renames its pointers once
/// ([`holders_follow`](crate::renaming_laws::holders_follow)).
pub fn unresolved<P: Ptr, T, A: ArenaTrait<P, T>, H: Recast<P>>(
    this: &A,
    holder: &mut H,
) -> Option<P>
    ensures first { result ≡ first_unresolved P.numbers (A.slots this.now) (H.held holder.old) }
    ensures unchanged { holder.new ≡ holder.old }
{
    let found = Found {
        arena: this,
        of: PhantomData,
    };
    holder.recast(&found).err()
}

// The pointers that find an entry in an arena, each as its own image.
#[derive(Drop)]
struct Found<'a, P: Ptr, T, A: ArenaTrait<P, T>> {
    arena: &'a A,
    of: PhantomData<(P, T)>,
}

impl<'a, P: Ptr, T, A: ArenaTrait<P, T>> Recaster for Found<'a, P, T, A> {
    type Item = P;

    ghost image = { λ found p. option_map (λ _. p)
        (look_up (A.slots found.arena.now) (P.numbers p)) };

    fn recast_item(&self, item: &mut P) -> Result<(), P> {
        if self.arena.contains(*item) {
            Ok(())
        } else {
            Err(*item)
        }
    }
}

// Compresses the arena, and renames each pointer that a value of it holds, where each finds an entry.
// It is given the map of the pointers to themselves, and leaves in it the map to the new ones.
pub(crate) fn compress_renaming<P: Ptr, T: Recast<P>, A: CompactArenaTrait<P, T>>(
    this: &mut A,
    images: &mut DirectArena<P, P>,
    reset_generation: bool,
) -> InvalidationOption<()>
    requires own { keys images.old.slots ≡ keys (A.slots this.old) }
    requires resolved { first_unresolved P.numbers (A.slots this.old)
        (held_all T.held (values (A.slots this.old))) ≡ None }

    // The map has the new pointers, the arena is compacted, and the answer tells of a wrap.
    ensures answer { result ≡ told (A.compression_wraps this.old reset_generation) tt }
    ensures maps { MapsPointers P.numbers (A.rank this.old reset_generation)
        (A.slots this.old) images.new.slots }
    ensures compacted { IsCompactedRenaming A.slots A.fits
        (A.compresses this.old reset_generation) (A.rank this.old reset_generation)
        P.Gen.generations (A.compression_wraps this.old reset_generation) reset_generation
        P.numbers T.held T.refill this.old this.new }

    // Entries are as many as before, and limit and capacity stay.
    ensures size { KeepsSize A.slots A.limit A.capacity this.old this.new }
{
    let answer = this.compress(reset_generation);
    put_pointers(images, this);
    // Each held pointer has an image: it had one in the map of the old pointers.
    let _renamed = recast_entries(this, images);
    answer
}

// The map of each pointer of an arena to itself, if each that a value or the holder holds finds an
// entry. As of `own_map`, memory is not refused where it is there.
fn resolved_with<
    P: Ptr,
    T: Recast<P>,
    A: CompactArenaTrait<P, T>,
    H: Recast<P>,
    K: NonZeroInxGenericStack<DirectSlot<P, P>> + Drop,
>(this: &mut A, holder: &mut H, alloc: Global) -> Result<DirectArena<P, P, K>, CompactError<P>>
    // Done: the map is of the arena's pointers, and each that is held finds an entry.
    ensures keys { IfOk result (λ all. keys all.slots ≡ keys (A.slots this.old)) }
    ensures resolved { OnOk result (first_unresolved P.numbers (A.slots this.old)
        (held_all T.held (values (A.slots this.old)) ++ H.held holder.old) ≡ None) }

    // Refused: the error tells why, and memory isn't refused where it is there.
    ensures refusal { new_limit K.kind ≡ None
        → IfErr result (Refuses (entry_count (A.slots this.old))
        (first_unresolved P.numbers (A.slots this.old)
        (held_all T.held (values (A.slots this.old)) ++ H.held holder.old))) }
    ensures with_memory { MapHasMemory K.kind K.has_memory (last_index (A.slots this.old))
        → IfErr result IsUnresolved }

    // In each case nothing has changed.
    ensures unchanged { this.new ≡ this.old }
    ensures holder_unchanged { holder.new ≡ holder.old }
{
    let all = resolved_map(this, alloc)?;
    match holder.recast(&all) {
        Ok(()) => Ok(all),
        Err(p) => Err(CompactError::Unresolved(p)),
    }
}

// The map of each pointer of an arena to itself, if each that a value holds finds an entry. As of
// `own_map`, memory is not refused where it is there.
pub(crate) fn resolved_map<
    P: Ptr,
    T: Recast<P>,
    A: CompactArenaTrait<P, T>,
    K: NonZeroInxGenericStack<DirectSlot<P, P>> + Drop,
>(this: &mut A, alloc: Global) -> Result<DirectArena<P, P, K>, CompactError<P>>
    // Done: the map is of the arena's pointers, each as its own image, and each that is held finds
    // an entry.
    ensures keys { IfOk result (λ all. keys all.slots ≡ keys (A.slots this.old)) }
    ensures own { IfOk result (λ all. (p : P) → look_up all.slots (P.numbers p)
        ≡ option_map (λ _. p) (look_up (A.slots this.old) (P.numbers p))) }
    ensures resolved { OnOk result (first_unresolved P.numbers (A.slots this.old)
        (held_all T.held (values (A.slots this.old))) ≡ None) }

    // Refused: the error tells why, and memory isn't refused where it is there.
    ensures refusal { new_limit K.kind ≡ None
        → IfErr result (Refuses (entry_count (A.slots this.old))
        (first_unresolved P.numbers (A.slots this.old)
        (held_all T.held (values (A.slots this.old))))) }
    ensures with_memory { MapHasMemory K.kind K.has_memory (last_index (A.slots this.old))
        → IfErr result IsUnresolved }

    // In each case nothing has changed.
    ensures unchanged { this.new ≡ this.old }
{
    let all = own_map(this, alloc)?;
    match recast_entries(this, &all) {
        Ok(()) => Ok(all),
        Err(p) => Err(CompactError::Unresolved(p)),
    }
}

// The map of each pointer of an arena to itself, over any stack. It isn't refused where the stack
// tells that memory is there, so that it can't give up without asking.
fn own_map<
    P: Ptr,
    T,
    A: CompactArenaTrait<P, T>,
    K: NonZeroInxGenericStack<DirectSlot<P, P>> + Drop,
>(this: &A, alloc: Global) -> Result<DirectArena<P, P, K>, ReallocationError>
    ensures keys { IfOk result (λ all. keys all.slots ≡ keys (A.slots this.now)) }
    ensures own { IfOk result (λ all. (p : P) → look_up all.slots (P.numbers p)
        ≡ option_map (λ _. p) (look_up (A.slots this.now) (P.numbers p))) }
    ensures refusal { new_limit K.kind ≡ None
        → IfErr result (RefusesMemory (entry_count (A.slots this.now))) }
    ensures with_memory { MapHasMemory K.kind K.has_memory (last_index (A.slots this.now))
        → IsOk result }
{
    let mut all = empty_map(alloc, last_index(this));
    match all.clone_from_with(this, |p, _value| Ok::<P, Infallible>(p)) {
        Ok(()) => Ok(all),
        Err(CloneFromError::Reallocation(refusal)) => Err(refusal),
    }
}

// The most entries of a map that is asked for as it is.
const SMALL_MAP: usize = 1024;

// An empty map, for entries up to this index. A larger one has room for a power of two of them, where memory
// is there: so the memory that one map gives back serves the next, which may be for a few entries more.
fn empty_map<P: Ptr, K: NonZeroInxGenericStack<DirectSlot<P, P>> + Drop>(
    alloc: Global,
    last: usize,
) -> DirectArena<P, P, K>
    requires { last ≤ greatest_index P.Inx.greatest }
    ensures slots { result.slots ≡ [] }
    ensures limit { result.limit ≡ new_limit K.kind }
    ensures room { (result.room ≡ new_room K.kind) ⊎ (last ≤ direct_capacity result) }
{
    let mut all = DirectArena::new(alloc);
    if SMALL_MAP < last && last <= usize::MAX / 2 {
        let room = last.next_power_of_two();
        let _larger = all.reallocate_min_capacity(room.min(P::Inx::max_index().get()));
    }
    all
}

// Puts the pointers of an arena into the entries of another, in order.
fn put_pointers<P: Ptr, U, A: CompactArenaTrait<P, U>>(target: &mut DirectArena<P, P>, arena: &A)
    requires { length (keys target.old.slots) ≡ length (keys (A.slots arena.now)) }
    ensures keys { keys target.new.slots ≡ keys target.old.slots }
    ensures values { map P.numbers (values target.new.slots) ≡ keys (A.slots arena.now) }
{
    let mut from = target.advancer();
    let mut to = arena.advancer();
    'pairs: while let Some(p) = from.advance(target) {
        let pointer = to.advance(arena).unwrap();
        let value = target.get_mut(p).unwrap();
        *value = pointer;
    }
}
