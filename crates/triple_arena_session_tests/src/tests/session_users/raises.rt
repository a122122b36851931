use super::new_sessions::new_strict_session;
use triple_arena_session::{Command, Reply};
use triple_arena_session_uses::raises::step_counted;
use triple_arena_test_kit::is;

#[test]
fn a_new_session_has_raises_left(rt: HostRuntime) {
    let mut session = new_strict_session(rt.alloc());
    let given = step_counted(&mut session, Command::Insert(7, None));
    let removed = step_counted(&mut session, Command::Remove(1));
    let replies = (Reply::Given(1, false), Reply::Removed(7, None, false));
    is((given, removed), replies).expect(&rt, "the replies");
}
