use super::new_sessions::{new_strict_session, replies};
use triple_arena_session::{Command, Reply, Session};
use triple_arena_session_uses::audit::audited;
use triple_arena_session_uses::raises::step_counted;
use triple_arena_session_uses::strict_audit::audited_strictly;
use triple_arena_test_kit::is;

#[test]
fn a_cleared_session_is_audited(rt: HostRuntime) {
    let mut session = Session::with_new_arena(rt.alloc());
    let entered = session.step(Command::Insert(7, None));
    is(entered, Reply::Given(1, false)).expect(&rt, "an entry");
    let cleared = session.step(Command::Clear);
    assert!(rt; cleared == Reply::Cleared(false));
    let told = audited(
        &mut session,
        &[Command::Insert(8, None), Command::Invalidate(2)],
    );
    replies(&rt, rt.alloc(), told, "given 2\ngiven 3\n");
}

#[test]
fn a_strict_session_is_audited(rt: HostRuntime) {
    let mut session = new_strict_session(rt.alloc());
    let entered = step_counted(&mut session, Command::Insert(7, None));
    is(entered, Reply::Given(1, false)).expect(&rt, "an entry");
    let commands = [Command::Insert(8, None), Command::Invalidate(1)];
    let told = audited_strictly(&mut session, &commands);
    replies(&rt, rt.alloc(), told, "given 2\ngiven 3\n");
}
