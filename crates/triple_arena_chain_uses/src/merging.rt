//! Two lists that become one.

ghost use Rattle.std.specs.Prelude.{◌≡◌, ◌≢◌, ◌↔◌, ◌⊎◌, List, [], ◌∷◌, ◌++◌, Contains, None, Err, OnOk, OnErr};
ghost use Rattle.std.specs.Result.{IfErr};
ghost use Rattle.triple_arena_chain.specs.Chains.{nodes, value_at, values_at, IsRun, Lists, KeepsApart};
ghost use Rattle.triple_arena_chain.specs.Pointers.{Pointer};

use triple_arena_chain::laws::ends_as_lists;
use triple_arena_chain::prelude::{ArenaInsertTrait, CompactArenaTrait, Ptr};
use triple_arena_chain::{ChainError, Chains, Link};

/// Has one list go on with another: pointers that list the two, where the other doesn't have the last of
/// the one, list the numbers of both then.
///
/// `NoEntry` exactly where one of the pointers finds nothing, else `Taken` exactly where the one has an
/// entry after it, or the other one before it; then nothing changes.
pub fn append<P: Ptr, A: CompactArenaTrait<P, Link<P, u64>> + ArenaInsertTrait<P, Link<P, u64>>>(
    lists: &mut Chains<P, u64, A>,
    last: P,
    first: P,
) -> Result<(), ChainError>
    ensures listed { OnOk result ((ps qs : List Pointer)
        → IsRun (nodes lists.old) (ps ++ P.numbers last ∷ []) None
        → IsRun (nodes lists.old) (P.numbers first ∷ qs) None
        → ((r : Pointer) → Contains (P.numbers first ∷ qs) r → P.numbers last ≢ r)
        → Lists (nodes lists.new) (ps ++ P.numbers last ∷ P.numbers first ∷ qs) None
        (values_at (nodes lists.old) ps ++ value_at (nodes lists.old) (P.numbers last)
        ∷ value_at (nodes lists.old) (P.numbers first) ∷ values_at (nodes lists.old) qs)) }

    // Refused: nothing has changed. A pointer found nothing, or a list went on there already.
    ensures refused { OnErr result (lists.new ≡ lists.old) }
    ensures no_entry { (result ≡ Err ChainError.NoEntry)
        ↔ ((nodes lists.old (P.numbers last) ≡ None)
        ⊎ (nodes lists.old (P.numbers first) ≡ None)) }
    ensures refusal { IfErr result
        (KeepsApart (nodes lists.old) (P.numbers last) (P.numbers first)) }
    ensures taken { (result ≡ Err ChainError.Taken)
        ↔ KeepsApart (nodes lists.old) (P.numbers last) (P.numbers first) ChainError.Taken }
{
    // How lists of pointers follow a join.
    ends_as_lists::<u64>();
    lists.join(last, first)
}
