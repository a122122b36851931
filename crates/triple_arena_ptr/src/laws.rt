//! What holds of the pointers and indexes of every type: laws over several calls.

ghost use Rattle.std.specs.Prelude.{◌≡◌, ◌≤◌, ◌↔◌, IsTrue, IsSome, IfSome};
ghost use Rattle.std.specs.Int.NonZero.{non_zero_usize_get};
ghost use Rattle.std.specs.Ordering.{nat_cmp, then_cmp, on};
ghost use Rattle.triple_arena_ptr.specs.Numbers.{greatest_index};

use crate::generation::PtrGen;
use crate::inx::PtrInx;
use crate::ptr::Ptr;
use std::cmp::Ordering;
use std::num::NonZeroUsize;

/// Equality, order and hash of pointers agree: `==` holds exactly of a pointer and itself, so does
/// the answer `Equal`, and equal pointers are hashed alike. A pointer is its two numbers, and
/// pointers go by that of the index first, and then by that of the generation.
pub fn pointers_agree<P: Ptr>()
    ensures equality { (p q : P) → IsTrue (P.eq p q) ↔ (p ≡ q) }
    ensures order { (p q : P) → (P.cmp p q ≡ Ordering.Equal) ↔ (p ≡ q) }
    ensures hash { (p q : P) → IsTrue (P.eq p q) → P.hash_input p ≡ P.hash_input q }
    ensures numbers { (p q : P) → (P.numbers p ≡ P.numbers q) ↔ (p ≡ q) }
    ensures by_index_first { (p q : P) → P.cmp p q ≡ then_cmp
        (on (λ r. (P.numbers r).0) nat_cmp) (on (λ r. (P.numbers r).1) nat_cmp) p q }
{}

/// Index conversions are inverse: the index again, from its number; none exactly past `max_index`.
pub fn index_through_number<I: PtrInx>(inx: I) -> Option<I>
    ensures same { IfSome result (λ i. i ≡ inx) }
    ensures some { IsSome result ↔ (I.number inx ≤ greatest_index I.greatest) }
{
    I::try_from_usize(I::try_into_usize(inx)?)
}

/// Index conversions are inverse: the number again, from its index; none exactly past `max_index`.
pub fn number_through_index<I: PtrInx>(number: NonZeroUsize) -> Option<NonZeroUsize>
    ensures same { IfSome result (λ n. n ≡ number) }
    ensures some { IsSome result ↔ (non_zero_usize_get number ≤ greatest_index I.greatest) }
{
    I::try_into_usize(I::try_from_usize(number)?)
}
