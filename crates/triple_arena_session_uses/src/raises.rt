//! The raises that are left to the counter of a strict session.

ghost use Rattle.std.specs.Prelude.{◌≡◌, ◌+◌, ◌↔◌, true, false};
ghost use Rattle.triple_arena_ptr.specs.Numbers.{counting_to};
ghost use Rattle.triple_arena_stack.specs.StackKind.StackKind.{heap};
ghost use Rattle.triple_arena_session.specs.Reply.TheVariants.{Exhausted};
ghost use Rattle.triple_arena_session.specs.StrictStore.{tells_exhausted, used, is_spent};
ghost use Rattle.triple_arena_session.specs.KindRun.{greatest};
ghost use Rattle.triple_arena_session.specs.Shown.{shown};
ghost use Rattle.triple_arena_session.specs.StrictSession.{IsStrictSessionStep, strictly_shown};

use crate::HeapSlots;
use triple_arena_ptr::P0;
use triple_arena_session::laws::{strict_session_steps_as_store, strict_store_is_exact};
use triple_arena_session::{Command, Reply, StrictSession};

/// Runs a command in a strict session, as its `step` does, and gives its reply. It is `Exhausted` exactly where the
/// command needs a raise of the counter and none is left, and then nothing that the session shows
/// changes.
///
/// Of the raises that are left, a command that needs one and succeeds uses one, and no other does
/// (`counted`). Those that are left then lead from the counter just to the greatest generation
/// (`exact`).
pub fn step_counted(session: &mut StrictSession<P0, u64>, command: Command<u64>) -> Reply<u64>
    ensures step { IsStrictSessionStep heap (λ _. ⊥) (counting_to greatest)
        session.old command result session.new }
    ensures spent { (result ≡ Exhausted)
        ↔ (is_spent (strictly_shown greatest session.old) command ≡ true) }
    ensures unchanged { result ≡ Exhausted
        → strictly_shown greatest session.new ≡ strictly_shown greatest session.old }
    ensures counted { tells_exhausted result ≡ false
        → (strictly_shown greatest session.new).left + used (shown session.old) command result
        ≡ (strictly_shown greatest session.old).left }
    ensures exact { session.new.arena.counter + (strictly_shown greatest session.new).left ≡ greatest }
{
    strict_store_is_exact::<u64>();
    strict_session_steps_as_store::<P0, u64, HeapSlots>();
    session.step(command)
}
