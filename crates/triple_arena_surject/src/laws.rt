//! What unions cost.

ghost use Rattle.std.specs.Prelude.{ℕ, ◌*◌, ◌^◌, ◌≤◌, List};
ghost use Rattle.triple_arena_ptr.specs.Pointers.{Pointer};
ghost use Rattle.triple_arena_surject.specs.Surject.{SurjectState, HasKeys};
ghost use Rattle.triple_arena_surject.specs.Unions.{AreUnions, last_of, IsRenamedOften};

/// A union gives a key's set another name only where it takes that set into one with as many keys or more. So
/// whatever unions are made of whatever sets, a key whose set gets another name k times is in the end of a set of
/// 2 to the k keys at least; and since no set has more keys than there are, of n keys each is renamed at most as
/// often as n can be halved, and all of them together n times as often at most.
pub fn unions_double_sets<A, B, K, V>()
    ensures { (s : SurjectState A B K V) (ts : List (SurjectState A B K V)) (r : Pointer) (k n m : ℕ)
        → AreUnions s ts → IsRenamedOften s ts r k → HasKeys s r n → HasKeys (last_of s ts) r m
        → n * 2 ^ k ≤ m }
{}
