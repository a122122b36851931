//! Waiting lists, many of them in one arena.

ghost use Rattle.std.specs.Prelude.{◌≡◌, ◌↔◌, [], ◌∷◌, None, Some, Err, IsSome, IfOk, OnOk, OnErr};
ghost use Rattle.std.specs.Option.{option_map};
ghost use Rattle.std.specs.Result.{IfErr};
ghost use Rattle.triple_arena_chain.specs.Chains.{nodes, value_at, after_at, IsInserted};
ghost use Rattle.triple_arena_chain.specs.Ending.{told};
ghost use Rattle.triple_arena_chain.specs.Histories.{removal, CountsUp, Continues};
ghost use Rattle.triple_arena_chain.specs.Invalidation.{allowed_option};
ghost use Rattle.triple_arena_chain.specs.Numbers.{greatest_index};
ghost use Rattle.triple_arena_chain.specs.Room.{DependsOnRoom};

use triple_arena_chain::prelude::{
    ArenaInsertTrait, ArenaTrait, CompactArenaTrait, Ptr, PtrGen, PtrInx,
};
use triple_arena_chain::{ChainError, Chains, InvalidationOption, Link};

/// Puts a number at the end of the list whose last entry is told, or begins a list where none is, and
/// gives the pointer of its entry, which is the last of that list then.
///
/// `NoEntry` exactly where the pointer told finds nothing, `Taken` exactly where an entry stands after
/// it; else as room and memory have it (`DependsOnRoom`). Then nothing changes.
pub fn enqueue<P: Ptr, A: CompactArenaTrait<P, Link<P, u64>> + ArenaInsertTrait<P, Link<P, u64>>>(
    lists: &mut Chains<P, u64, A>,
    last: Option<P>,
    number: u64,
) -> Result<P, ChainError>
    // Done: the number stands last in its list.
    ensures found { IfOk result (λ q. value_at (nodes lists.new) (P.numbers q) ≡ Some number) }
    ensures last { IfOk result (λ q. after_at (nodes lists.new) (P.numbers q) ≡ None) }
    ensures inserted { IfOk result (λ q. IsInserted (nodes lists.old)
        (option_map P.numbers last) None (P.numbers q) number (nodes lists.new)) }

    // Refused: nothing has changed. What was told isn't a last entry, or room or memory was refused.
    ensures refused { OnErr result (lists.new ≡ lists.old) }
    ensures no_entry { (p : P) → last ≡ Some p → nodes lists.old (P.numbers p) ≡ None
        → result ≡ Err ChainError.NoEntry }
    ensures taken { (p : P) → last ≡ Some p → IsSome (after_at (nodes lists.old) (P.numbers p))
        → result ≡ Err ChainError.Taken }
    ensures begins { last ≡ None
        → DependsOnRoom A.has_memory (greatest_index P.Inx.greatest) lists.old result }
    ensures goes_on { (p : P) → last ≡ Some p → IsSome (nodes lists.old (P.numbers p))
        → after_at (nodes lists.old) (P.numbers p) ≡ None
        → DependsOnRoom A.has_memory (greatest_index P.Inx.greatest) lists.old result }
{
    match last {
        Some(p) => lists.push_back(p, number),
        None => lists.insert_new(number),
    }
}

/// Takes a number out of its list, and gives it, and tells a wrap exactly where the counter of the arena
/// wraps. Where it doesn't, the number's pointer has ended (`ended`), and finds no later number.
///
/// `NoEntry` exactly where the pointer finds nothing; then nothing changes.
pub fn serve<P: Ptr, A: CompactArenaTrait<P, Link<P, u64>> + ArenaInsertTrait<P, Link<P, u64>>>(
    lists: &mut Chains<P, u64, A>,
    p: P,
) -> Result<InvalidationOption<u64>, ChainError>
    // Done: the number comes back, told with a wrap if there was one, and its entry is gone.
    ensures number { IfOk result
        (λ answer. value_at (nodes lists.old) (P.numbers p) ≡ Some (allowed_option answer)) }
    ensures answer { IfOk result (λ answer. answer
        ≡ told (A.ending_wraps lists.old.arena) (allowed_option answer)) }
    ensures gone { OnOk result (nodes lists.new (P.numbers p) ≡ None) }
    ensures ended { OnOk result (CountsUp P.Gen.generations (A.ending_wraps lists.old.arena)
        → Continues A.fits lists.old.arena (removal (P.numbers p) ∷ []) lists.new.arena) }

    // Refused: nothing has changed, and the pointer found nothing.
    ensures refused { OnErr result (lists.new ≡ lists.old) }
    ensures no_entry { (result ≡ Err ChainError.NoEntry)
        ↔ (nodes lists.old (P.numbers p) ≡ None) }
    ensures refusal { IfErr result (λ refusal. refusal ≡ ChainError.NoEntry) }
{
    lists.remove(p)
}
