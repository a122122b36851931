//! Pointers of any type, compared.

ghost use Rattle.std.specs.Prelude.{◌≡◌, ◌↔◌, IsTrue};

use triple_arena_ptr::Ptr;
use triple_arena_ptr::laws::pointers_agree;

/// Whether two pointers are the same, as they are exactly where both their numbers are.
pub fn are_same<P: Ptr>(p: P, q: P) -> bool
    ensures { IsTrue result ↔ (P.numbers p ≡ P.numbers q) }
{
    pointers_agree::<P>();
    p == q
}
