use super::new_sessions::new_session;
use triple_arena_session::{Command, Reply};
use triple_arena_session_uses::any_session::step_in_any;
use triple_arena_test_kit::is;

#[test]
fn a_command_runs_in_any_session(rt: HostRuntime) {
    let mut session = new_session(&rt, rt.alloc(), 0);
    let given = step_in_any(&mut session, Command::Insert(7, None));
    is(given, Reply::Given(1, false)).expect(&rt, "an entry");
}
