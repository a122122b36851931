use super::new_sessions::{new_session, new_strict_session, replies};
use triple_arena_session::Command;
use triple_arena_session_uses::compactions::{
    answers_in_two_runs, answers_to_eleven, unseen_at_any_time,
};

/// The second entry moves to the place of the first.
#[test]
fn an_entry_is_found_where_a_compaction_moved_it(rt: HostRuntime) {
    let commands = [
        Command::Insert(7, None),
        Command::Insert(8, None),
        Command::Remove(1),
        Command::Compact,
        Command::Get(2),
    ];
    let mut session = new_session(&rt, rt.alloc(), 0);
    let told = unseen_at_any_time(&mut session, &commands);
    let lines = "given 1\ngiven 2\nremoved 7 -\ncompacted\nfound 8 -\n";
    replies(&rt, rt.alloc(), told, lines);
}

/// The link of the second entry is to a name that has ended, until the second run takes it away.
#[test]
fn a_run_follows_another(rt: HostRuntime) {
    let first = [
        Command::Insert(1, None),
        Command::Insert(2, Some(1)),
        Command::Remove(1),
        Command::Compact,
    ];
    let others = [Command::Set(2, 2, None), Command::Compact, Command::Get(2)];
    let mut session = new_strict_session(rt.alloc());
    let told = answers_in_two_runs(&mut session, &first, &others);
    let (told, more) = told.expect(&rt, "memory");
    let lines = "given 1\ngiven 2\nremoved 1 -\nunresolved\n";
    replies(&rt, rt.alloc(), Ok(told), lines);
    replies(&rt, rt.alloc(), Ok(more), "done\ncompacted\nfound 2 -\n");
}

#[test]
fn eleven_commands_are_answered(rt: HostRuntime) {
    let lines =
        "given 1\ngiven 2\nremoved 1 -\ngiven 3\nunresolved\ndone\ncompacted\nfound 3 2\nnothing\ngiven 4\ncount 3\n";
    replies(&rt, rt.alloc(), answers_to_eleven(rt.alloc()), lines);
}
