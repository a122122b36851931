//! A pointer type of one's own, made of a name and of two widths.

ghost use Rattle.std.specs.Prelude.{◌≡◌, suc, codes, Some, None, IfOk};
ghost use Rattle.triple_arena.specs.Entries.{look_up};

use triple_arena::{Arena, ReallocationError};
use triple_arena_ptr::{NamedPtr, PtrName};

/// The name of a `Badge`.
#[derive(Hash, Clone, Copy, PartialEq, Eq, PartialOrd, Ord)]
pub struct BadgeName;

impl PtrName for BadgeName {
    ghost type_name = { codes "Badge" };

    fn name() -> &'static str {
        "Badge"
    }
}

/// The badge of a visitor: an index and a generation of 16 bits each.
pub type Badge = NamedPtr<BadgeName, u16, u16>;

/// Admits a visitor, who is found under the badge that is given.
pub fn admit(visitors: &mut Arena<Badge, u64>, visitor: u64) -> Result<Badge, ReallocationError>
    ensures found { IfOk result (λ badge.
        look_up visitors.new.slots (suc badge.0, suc badge.1) ≡ Some visitor) }
{
    visitors.insert(visitor)
}

/// Takes a badge back, if it is one that was given: it finds nobody then.
pub fn take_back(visitors: &mut Arena<Badge, u64>, badge: Badge) -> Option<u64>
    ensures visitor { result ≡ look_up visitors.old.slots (suc badge.0, suc badge.1) }
    ensures gone { look_up visitors.new.slots (suc badge.0, suc badge.1) ≡ None }
{
    visitors.remove(badge).allow() // even if the counter wraps
}
