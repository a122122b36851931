use super::new_sessions::{new_session, new_strict_session, replies};
use triple_arena_session::Command;
use triple_arena_session_uses::at_any_time::{shown_at_any_time, strictly_shown_at_any_time};

#[test]
fn each_command_of_a_run_is_answered(rt: HostRuntime) {
    let commands = [
        Command::Insert(7, None),
        Command::Remove(1),
        Command::Get(1),
    ];
    let lines = "given 1\nremoved 7 -\nnothing\n";
    let mut session = new_session(&rt, rt.alloc(), 0);
    let told = shown_at_any_time(&mut session, &commands);
    replies(&rt, rt.alloc(), told, lines);
    let mut session = new_strict_session(rt.alloc());
    let told = strictly_shown_at_any_time(&mut session, &commands);
    replies(&rt, rt.alloc(), told, lines);
}
