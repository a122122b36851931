//! Lists of tasks on the heap: a struct that names its chains once, so that what calls it names none.

ghost use Rattle.std.specs.Prelude.{◌≡◌, None, Some, Err, IsSome, IfOk, OnErr};
ghost use Rattle.std.specs.Option.{option_map};
ghost use Rattle.triple_arena_chain.specs.Chains.{value_at, after_at, IsInserted};
ghost use Rattle.triple_arena_chain.specs.Entries.{look_up};
ghost use Rattle.triple_arena_chain.specs.Pointers.{Pointer};

use crate::waiting::enqueue;
use std::alloc::Global;
use std::marker::Model;
use triple_arena_chain::{ChainError, Chains, P0, Ptr};

/// Lists of tasks, which are numbers, each under a pointer.
#[derive(Drop)]
pub struct Tasks {
    lists: Chains<P0, u64>,
}

impl Model for Tasks {
    ghost use Rattle.std.specs.Prelude.{ℕ, List, Option};
    ghost use Rattle.triple_arena_chain.specs.Chains.{Node};

    // By index, the generation and the node of the task that stands there, or nothing.
    ghost Value = { List (Option (ℕ × Node ℕ)) };

    ghost view = { λ tasks. tasks.lists.slots };
}

impl Tasks {
    /// No lists. It takes no memory.
    pub fn new(alloc: Global) -> Self
        ensures { (q : Pointer) → look_up result q ≡ None }
    {
        Tasks {
            lists: Chains::new(alloc),
        }
    }

    /// A task behind the last one of a list, or the first of a new list where none is told.
    ///
    /// `NoEntry` exactly where the pointer told finds nothing, `Taken` exactly where a task stands after
    /// it; else where memory is refused, of which no clause tells, as these lists don't show their room.
    /// Then nothing changes.
    pub fn add(&mut self, last: Option<P0>, task: u64) -> Result<P0, ChainError>
        ensures added { IfOk result (λ p. IsInserted (look_up self.old)
            (option_map ⟦<P0 as Ptr>⟧.numbers last) None (⟦<P0 as Ptr>⟧.numbers p) task
            (look_up self.new)) }

        // Refused: nothing has changed. What was told isn't a last task, or memory was refused.
        ensures refused { OnErr result (self.new ≡ self.old) }
        ensures no_entry { (p : P0) → last ≡ Some p
            → look_up self.old (⟦<P0 as Ptr>⟧.numbers p) ≡ None
            → result ≡ Err ChainError.NoEntry }
        ensures taken { (p : P0) → last ≡ Some p
            → IsSome (after_at (look_up self.old) (⟦<P0 as Ptr>⟧.numbers p))
            → result ≡ Err ChainError.Taken }
    {
        enqueue(&mut self.lists, last, task)
    }
}

/// Two tasks, one behind the other, on a list of their own, which the second one's pointer ends.
///
/// Refused where memory is; where it is refused to the second one, the first stands alone.
pub fn add_two(tasks: &mut Tasks, first: u64, second: u64) -> Result<P0, ChainError>
    ensures found { IfOk result
        (λ q. value_at (look_up tasks.new) (⟦<P0 as Ptr>⟧.numbers q) ≡ Some second) }
{
    let p = tasks.add(None, first)?;
    tasks.add(Some(p), second)
}
