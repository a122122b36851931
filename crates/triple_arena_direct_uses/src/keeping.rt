//! Entries of any compact arena that are kept where a rule says so.

ghost use Rattle.std.specs.Prelude.{◌≡◌, nat_le};
ghost use Rattle.triple_arena_ptr.specs.Pointers.{Pointer};
ghost use Rattle.triple_arena.specs.Entries.{look_up};
ghost use Rattle.triple_arena_direct.specs.laws.RetainLaws.{kept_if};

use triple_arena::CompactArenaTrait;
use triple_arena_direct::retain;
use triple_arena_ptr::Ptr;

/// Keeps the values from `least` on, each under its pointer; what is below goes, even if the counter wraps.
pub fn keep_from<P: Ptr, A: CompactArenaTrait<P, u64>>(arena: &mut A, least: u64)
    ensures { (q : Pointer) → look_up (A.slots arena.new) q
        ≡ kept_if (λ p v. nat_le least v) (λ p v. v) q (look_up (A.slots arena.old) q) }
{
    let _answer = retain(arena, |_p, value| least <= *value);
}
