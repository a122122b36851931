//! What holds of direct arenas: laws over several calls.

ghost use Rattle.std.specs.Prelude.{◌≡◌, ◌≤◌, ℕ, List, Option, Some, None, Ok};
ghost use Rattle.std.specs.List.{FoldsTo};
ghost use Rattle.triple_arena_ptr.specs.Pointers.{Pointer};
ghost use Rattle.triple_arena_traits.specs.Entries.{entry_in, KeepsEntries};
ghost use Rattle.triple_arena_traits.specs.ArenaState.{ArenaState, IsWellFormed};
ghost use Rattle.triple_arena_traits.specs.Insertion.{next_pointer, inserted};
ghost use Rattle.triple_arena_traits.specs.Ending.{removed};
ghost use Rattle.triple_arena_traits.specs.FreeList.{last_index};
ghost use Rattle.triple_arena_traits.specs.Walks.{entries};
ghost use Rattle.triple_arena_traits.specs.Copying.{Copies};
ghost use Rattle.triple_arena_traits.specs.DirectInsertion.{IsVacant};
ghost use Rattle.triple_arena_direct_arena.specs.DirectState.{DirectState, direct_capacity, SlotsFit, direct_shortened, direct_with_limit};
ghost use Rattle.triple_arena_direct_arena.specs.Mirrors.{Change, IsMirror, Makes, Follows};
ghost use Rattle.triple_arena_direct_arena.specs.Mirrors.Change.{comes, goes};

use triple_arena_ptr::Ptr;

/// A limit that is set back: once a limit is set, the old one can be set again, and then the old
/// capacity is there again. All else is as it was, but for the free slots at the end that went.
pub fn limit_set_back<T>()
    ensures succeeds { (s t : DirectState T) (x most : ℕ) → SlotsFit s → s.limit ≡ Some most
        → t ≡ direct_with_limit (direct_shortened s x) x → last_index t.slots ≤ most }
    ensures same_capacity { (s t : DirectState T) (x most : ℕ) → s.limit ≡ Some most
        → t ≡ direct_with_limit (direct_shortened s x) x
        → direct_capacity (direct_with_limit (direct_shortened t most) most) ≡ direct_capacity s }
    ensures state { (s t : DirectState T) (x most : ℕ) → SlotsFit s → s.limit ≡ Some most
        → t ≡ direct_with_limit (direct_shortened s x) x
        → direct_with_limit (direct_shortened t most) most ≡ direct_shortened s x }
{}

/// A mirror keeps the pointers: a direct arena that is given each insertion and each removal of
/// another arena has exactly that one's pointers, if it had them before. While its capacity reaches
/// the index, there is a place for the insertion, and neither change makes its capacity another.
pub fn mirror_keeps_pointers<T, U>()
    ensures kept { (slots : List (Option (ℕ × T))) (mirror : DirectState U)
        (changes : List Change) (after : List (Option (ℕ × T))) (followed : DirectState U)
        → IsMirror slots mirror.slots
        → FoldsTo Makes slots changes after → FoldsTo Follows mirror changes followed
        → IsMirror after followed.slots }
    ensures has_place { (slots : List (Option (ℕ × T))) (mirror : DirectState U) (i : ℕ)
        → IsMirror slots mirror.slots → entry_in slots i ≡ None → i ≤ direct_capacity mirror
        → IsVacant mirror.slots (direct_capacity mirror) i }
    ensures same_capacity { (mirror : DirectState U) (changes : List Change)
        (followed : DirectState U) → FoldsTo Follows mirror changes followed
        → direct_capacity followed ≡ direct_capacity mirror }
    ensures insertion { (s : ArenaState T) (value : T) → IsWellFormed s
        → Makes s.slots (comes (next_pointer s)) (inserted s value).slots }
    ensures removal { (raise : ℕ → ℕ) (s : ArenaState T) (i : ℕ)
        → Makes s.slots (goes i) (removed raise s i).slots }
{}

/// A clone that wasn't refused has exactly the pointers of its source (`pointers`). So it is a mirror:
/// given each insertion and each removal of the source from then on, it goes on to have exactly the
/// source's pointers (`mirrors`).
pub fn clone_has_the_pointers<P: Ptr, T, U, E, M: FnMut(P, &T) -> Result<U, E>>()
    ensures pointers { (f : M) (source : List (Option (ℕ × T))) (copy clone : List (Option (ℕ × U)))
        → Copies P.numbers M.step f (entries source) (Ok tt) copy → KeepsEntries copy clone
        → IsMirror source clone }
    ensures mirrors { (f : M) (source : List (Option (ℕ × T))) (copy : List (Option (ℕ × U)))
        (mirror : DirectState U) (changes : List Change) (after : List (Option (ℕ × T)))
        (followed : DirectState U)
        → Copies P.numbers M.step f (entries source) (Ok tt) copy
        → KeepsEntries copy mirror.slots
        → FoldsTo Makes source changes after → FoldsTo Follows mirror changes followed
        → IsMirror after followed.slots }
{}
