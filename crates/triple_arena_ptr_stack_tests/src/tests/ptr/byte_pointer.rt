//! A pointer type of one's own, as the documentation of `NamedPtr` has it.

ghost use Rattle.std.specs.Prelude.{codes};

use triple_arena_ptr::{NamedPtr, PtrName};

/// The name of `B`.
#[derive(Hash, Clone, Copy, PartialEq, Eq, PartialOrd, Ord)]
pub struct BName;

impl PtrName for BName {
    ghost type_name = { codes "B" };

    fn name() -> &'static str {
        "B"
    }
}

/// A byte index and a byte generation.
pub type B = NamedPtr<BName, u8, u8>;
