//! What a sound session replies: what stands under a name, what has a place, and what may come.

ghost use Rattle.std.specs.Prelude.{◌≡◌, ◌+◌, ◌↔◌, Ok, None, Some, false, IfOk, IfSome, OnOk, OnErr};
ghost use Rattle.triple_arena_session.specs.NameStore.{row, row_count, next_name, give_row, MayReply};
ghost use Rattle.triple_arena_session.specs.ReplyText.{tells_of_wrap};
ghost use Rattle.triple_arena_session.specs.StoreRuns.{without_wrap};
ghost use Rattle.triple_arena_session.specs.Reply.TheVariants.{Given};
ghost use Rattle.triple_arena_session.specs.Kind.TheVariants.{Heap};
ghost use Rattle.triple_arena_session.specs.KindRun.{IsStepOfKind};
ghost use Rattle.triple_arena_session.specs.Shown.{shown, IsSound};

use triple_arena_base::AllocError;
use triple_arena_ptr::P0;
use triple_arena_session::laws::{names_are_new, store_is_exact};
use triple_arena_session::{Command, Reply, Session};

/// What stands under a name in a sound session: a number, and the name that it links to, or none.
/// `None` exactly where the name was never given, or has ended. The session is sound, and shows
/// what it showed.
pub fn find(session: &mut Session<P0, u64>, name: usize) -> Option<(u64, Option<usize>)>
    requires sound { IsSound session.old }
    ensures row { result ≡ row (shown session.old) name }
    ensures stays { shown session.new ≡ shown session.old }
    ensures sound { IsSound session.new }
{
    store_is_exact::<u64>();
    match session.step(Command::Get(name)) {
        Reply::Found(number, link) => Some((number, link)),
        _ => None,
    }
}

/// Enters a number that links to nothing in a sound session, where there is a place for it, and
/// gives its name, which is the next one and has the number then; all other rows stay. `Ok(None)` exactly where as many
/// names have rows as the capacity says. Refused where there is no memory for its name. Where no name is given, nothing
/// changes. The session is sound then.
pub fn enter_within(
    session: &mut Session<P0, u64>,
    number: u64,
) -> Result<Option<usize>, AllocError>
    requires sound { IsSound session.old }
    ensures full { (result ≡ Ok None)
        ↔ (row_count (shown session.old) ≡ (shown session.old).capacity) }
    ensures next { IfOk result (λ given. IfSome given (λ name.
        name ≡ next_name (shown session.old))) }
    ensures entered { IfOk result (λ given. IfSome given (λ name.
        (Given name false, shown session.new) ≡ give_row (shown session.old) (number, None))) }
    ensures row { IfOk result (λ given. IfSome given (λ name.
        row (shown session.new) name ≡ Some (number, None))) }
    ensures later { IfOk result (λ given. IfSome given (λ name.
        next_name (shown session.new) ≡ name + 1)) }
    ensures stays { IfOk result (λ given. given ≡ None → shown session.new ≡ shown session.old) }
    ensures refused { OnErr result (IsSound session.new × (shown session.new ≡ shown session.old)) }
    ensures sound { OnOk result (IsSound session.new) }
{
    store_is_exact::<u64>();
    names_are_new::<u64>();
    match session.step(Command::InsertWithin(number, None)) {
        Reply::Given(name, false) => Ok(Some(name)),
        Reply::Full => Ok(None),
        _ => Err(AllocError),
    }
}

/// Runs a command in a sound session, as its `step` does, and gives its reply. But for its bool, which tells of a wrap,
/// this is the answer of the store that the session shows, or `NoMemory` where the command asks for
/// memory, and no other. The session stays sound, unless the reply tells of a wrap.
pub fn reply_that_may_come(session: &mut Session<P0, u64>, command: Command<u64>) -> Reply<u64>
    requires sound { IsSound session.old }
    ensures step { IsStepOfKind Heap session.old command result session.new }
    ensures sound { tells_of_wrap result ≡ false → IsSound session.new }
    ensures may { MayReply (shown session.old) command (without_wrap result) }
{
    store_is_exact::<u64>();
    session.step(command)
}
