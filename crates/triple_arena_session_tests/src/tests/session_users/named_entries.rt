use super::new_sessions::{new_session, new_strict_session, replies};
use triple_arena_session::Command;
use triple_arena_session_uses::first_session::answers;
use triple_arena_session_uses::named_entries::{
    answers_after_a_text, enter, run_to_malformed, runs_to_its_end, strict_answers,
};
use triple_arena_test_kit::is;

#[test]
fn names_find_what_they_name(rt: HostRuntime) {
    let commands = [
        Command::Insert(10, None),
        Command::Insert(20, Some(1)),
        Command::Insert(30, Some(2)),
        Command::Remove(1),
        Command::Compact,
        Command::Set(2, 20, None),
        Command::Compact,
        Command::Get(3),
    ];
    let lines =
        "given 1\ngiven 2\ngiven 3\nremoved 10 -\nunresolved\ndone\ncompacted\nfound 30 2\n";
    replies(&rt, rt.alloc(), answers(rt.alloc(), &commands), lines);
    replies(
        &rt,
        rt.alloc(),
        strict_answers(rt.alloc(), &commands),
        lines,
    );
}

#[test]
fn each_number_gets_the_next_name(rt: HostRuntime) {
    let mut session = new_session(&rt, rt.alloc(), 0);
    let first = enter(&mut session, 7).expect(&rt, "memory");
    let second = enter(&mut session, 7).expect(&rt, "memory");
    is([first, second], [1, 2]).expect(&rt, "names of two numbers");
}

#[test]
fn a_text_follows_one_with_a_malformed_line(rt: HostRuntime) {
    let mut session = new_session(&rt, rt.alloc(), 0);
    let mut output = Vec::new(rt.alloc());
    let text = "insert 1 -\ninsert 2\nlen\n".as_bytes();
    let line = run_to_malformed(&mut session, rt.alloc(), text, &mut output);
    let line = line.expect(&rt, "a malformed line");
    let none = run_to_malformed(&mut session, rt.alloc(), "get 1\n".as_bytes(), &mut output);
    is((line, none), (2, None)).expect(&rt, "malformed lines");
    let wanted = "given 1\nfound 1 -\n".as_bytes();
    is(output.as_slice(), wanted).expect(&rt, "the replies");
}

#[test]
fn a_text_follows_another_in_a_strict_session(rt: HostRuntime) {
    let mut session = new_strict_session(rt.alloc());
    let mut output = Vec::new(rt.alloc());
    let text = "insert 1 -\ninsert 2\n".as_bytes();
    let stops = runs_to_its_end(&mut session, rt.alloc(), text, &mut output);
    let ends = runs_to_its_end(&mut session, rt.alloc(), "get 1\n".as_bytes(), &mut output);
    is((stops, ends), (false, true)).expect(&rt, "whether they ran to their ends");
    let wanted = "given 1\nfound 1 -\n".as_bytes();
    is(output.as_slice(), wanted).expect(&rt, "the replies");
}

#[test]
fn commands_follow_a_text_in_a_strict_session(rt: HostRuntime) {
    let mut session = new_strict_session(rt.alloc());
    let mut output = Vec::new(rt.alloc());
    let mut text = "insert 1 -\ninsert 2\n".as_bytes();
    let commands = [Command::Insert(3, Some(1)), Command::Get(2)];
    let told = answers_after_a_text(&mut session, rt.alloc(), &mut text, &mut output, &commands);
    replies(&rt, rt.alloc(), told, "given 2\nfound 3 1\n");
    is(output.as_slice(), "given 1\n".as_bytes()).expect(&rt, "the replies to the text");
}
