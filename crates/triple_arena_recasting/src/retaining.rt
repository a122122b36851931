//! Entries that a closure keeps.

ghost use Rattle.std.specs.Prelude.{◌≡◌, not, cond, false, List, map, IsSome};
ghost use Rattle.triple_arena_base.specs.Invalidation.{is_success_option};
ghost use Rattle.triple_arena_ptr.specs.Pointers.{Pointer};
ghost use Rattle.triple_arena_traits.specs.Entries.{look_up};
ghost use Rattle.triple_arena_traits.specs.Histories.{removal, CountsUp, Continues};
ghost use Rattle.triple_arena_traits.specs.Walks.{entries};
ghost use Rattle.triple_arena_recasting.specs.Retaining.{StaysOrGoes, Retains};

use triple_arena_base::{Advancer, InvalidationOption};
use triple_arena_ptr::{Ptr, PtrGen};
use triple_arena_traits::answers::told;
use triple_arena_traits::{ArenaTrait, CompactArenaTrait};

/// Calls `keep` at each entry, in the order of the indexes: at its pointer, and at its value, for
/// writing. Where it answers `false`, the entry is taken out, as by `remove`; the others keep their
/// pointers, with the values that the calls left.
///
/// `GenerationOverflow` exactly where one of these removals wrapped the counter. Limit and capacity stay,
/// and it takes no memory.
pub fn retain<P: Ptr, T: Drop, A: CompactArenaTrait<P, T>, F: FnMut(P, &mut T) -> bool>(
    this: &mut A,
    mut keep: F,
) -> InvalidationOption<()>
    requires callable { F.IsAlwaysCallable keep }
    ensures retained { (last : F) × Retains
        P.numbers F.step A.with_value A.removes A.ending_wraps keep this.old
        (entries (A.slots this.old)) (not (is_success_option result)) last this.new }
    ensures limit { A.limit this.new ≡ A.limit this.old }
    ensures capacity { A.capacity this.new ≡ A.capacity this.old }
    ensures history { CountsUp P.Gen.generations (not (is_success_option result))
        → (gone : List Pointer) × Continues A.fits this.old (map removal gone) this.new }
{
    let mut wrapped = false;
    let mut advancer = this.advancer();
    'walk: while let Some(p) = advancer.advance(this) {
        if let Some(value) = this.get_mut(p) {
            let kept = keep(p, value);
            wrapped |= end_unless(this, p, kept);
        }
    }
    told(wrapped, ())
}

// Takes out the entry under a valid pointer, unless it is kept, and tells whether that wrapped the counter.
fn end_unless<P: Ptr, T: Drop, A: CompactArenaTrait<P, T>>(this: &mut A, p: P, kept: bool) -> bool
    requires live { IsSome (look_up (A.slots this.old) (P.numbers p)) }

    // The entry stays, or is removed, as told; limit and capacity stay.
    ensures done { StaysOrGoes A.removes kept this.old (P.numbers p).0 this.new }
    ensures wrapped { result ≡ cond kept false (A.ending_wraps this.old) }
    ensures limit { A.limit this.new ≡ A.limit this.old }
    ensures capacity { A.capacity this.new ≡ A.capacity this.old }

    // Without a wrap, where generations count, a history goes on by removals.
    ensures history { CountsUp P.Gen.generations result
        → (gone : List Pointer) × Continues A.fits this.old (map removal gone) this.new }
{
    if kept {
        return false;
    }
    let answer = this.remove(p);
    let wrapped = answer.is_overflow();
    drop(answer);
    wrapped
}
