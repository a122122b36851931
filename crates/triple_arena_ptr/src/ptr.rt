//! Pointers: an index and a generation.

ghost use Rattle.std.specs.Prelude.{◌≡◌, List, ℕ, [], ◌∷◌, ◌&&◌};
ghost use Rattle.std.specs.Ordering.{then_cmp, on};
ghost use Rattle.triple_arena_ptr.specs.Pointers.{Pointer};

use crate::generation::PtrGen;
use crate::inx::PtrInx;
use std::fmt::Debug;
use std::hash::Hash;
use triple_arena_base::Recast;

/// A pointer to an entry of an arena: an index and a generation, and no more.
///
/// Contracts speak of its `index_of` and `generation_of`, and of its `numbers`, those of the two.
/// Two pointers are equal exactly where both are, and pointers go by their indexes first and then
/// by their generations. A pointer holds itself, and is recast as a whole.
///
/// # A pointer type of one's own
///
/// A [`NamedPtr`](crate::NamedPtr) with a name of one's own is one. Of another form, a type meets this
/// trait as `P0` does: its fields are plain numbers that are never 0, and the index stands first, so that
/// the derived order goes by it; its model is the pair of the numbers before them, so that each such
/// pair is a pointer.
pub trait Ptr: Debug
    + Hash
    + Clone
    + Copy
    + PartialEq
    + Eq
    + PartialOrd
    + Ord
    + Recast<Self>
    + 'static {
    /// The type of indexes.
    type Inx: PtrInx;

    /// The type of generations.
    type Gen: PtrGen;

    /// The index.
    ghost index_of: { Self → Self.Inx };

    /// The generation.
    ghost generation_of: { Self → Self.Gen };

    /// The pointer as two numbers: that of its index and that of its generation.
    ghost numbers: { Self → Pointer };

    /// The name of the type in texts.
    ghost type_name: { List ℕ };

    /// The name of the type in texts.
    fn name() -> &'static str
        ensures { result.now ≡ type_name };

    /// The pointer of the greatest index of the type and the generation 1.
    ///
    /// Where generations count, no arena gives it to an entry unless its counter was set to 1; an entry
    /// can have it too where its pointer was given, by the caller or by the source of a copy.
    /// Where they don't and the index type is small, an entry can have it: in an arena of `P5`, the
    /// one at the index 255.
    fn invalid() -> Self
        ensures { numbers result ≡ (Self.Inx.greatest, 1) };

    /// The index.
    fn inx(self) -> Self::Inx
        ensures { result ≡ index_of self };

    /// The generation.
    fn generation(self) -> Self::Gen
        ensures { result ≡ generation_of self };

    /// The pointer of an index and a generation.
    fn _from_raw(inx: Self::Inx, generation: Self::Gen) -> Self
        ensures index { index_of result ≡ inx }
        ensures generation { generation_of result ≡ generation };

    /// The numbers of a pointer are that of its index and that of its generation.
    ghost numbers_of: { (p : Self) → numbers p
        ≡ (Self.Inx.number (index_of p), Self.Gen.number (generation_of p)) };

    /// A pointer is its index and its generation.
    ghost distinct: { (p q : Self) → index_of p ≡ index_of q → generation_of p ≡ generation_of q
        → p ≡ q };

    /// Pointers are equal exactly where their indexes and generations are.
    ghost equates: { (p q : Self) → Self.eq p q ≡ (Self.Inx.eq (index_of p) (index_of q)
        && Self.Gen.eq (generation_of p) (generation_of q)) };

    /// Pointers go by their indexes first, and then by their generations.
    ghost orders: { (p q : Self) → Self.cmp p q
        ≡ then_cmp (on index_of Self.Inx.cmp) (on generation_of Self.Gen.cmp) p q };

    /// A pointer holds itself.
    ghost holds_itself: { (p : Self) → Self.held p ≡ p ∷ [] };

    /// A pointer is replaced as a whole.
    ghost refills: { (p q : Self) → Self.refill p (q ∷ []) ≡ q };

    /// A clone is the pointer itself.
    ghost clones: { (p q : Self) → Self.is_clone p q → q ≡ p };

    /// A clone takes no memory.
    ghost clones_always: { (p : Self) → Self.is_infallible p };
}
