//! The texts of replies.

use std::alloc::Global;
use std::process::Abort;
use triple_arena_session::{Reply, write_reply};
use triple_arena_test_kit::is;

// Expects this to be a reply's text, and its line to be the same and a line break.
fn is_written(rt: &impl Abort, alloc: Global, reply: &Reply<u64>, text: &str) {
    let mut line = Vec::new(alloc);
    is(write_reply(&mut line, reply), Ok(())).expect(rt, text);
    is(line.pop(), Some(b'\n')).expect(rt, text);
    is(line.as_slice(), text.as_bytes()).expect(rt, text);
    let shown = format!(in alloc; "{reply}").expect(rt, "memory");
    is(shown.as_str(), text).expect(rt, "the text of a reply");
}

/// The last is the longest. ` wrapped` stands at the end just where the reply tells of a wrap.
#[test]
fn writes_each_reply(rt: HostRuntime) {
    let rows: &[(Reply<u64>, &str)] = &[
        (Reply::Given(1, false), "given 1"),
        (Reply::Given(20, true), "given 20 wrapped"),
        (Reply::Full, "full"),
        (Reply::BeyondMaxCapacity, "beyond max capacity"),
        (Reply::NoMemory, "no memory"),
        (Reply::Found(10, None), "found 10 -"),
        (Reply::Found(0, Some(7)), "found 0 7"),
        (
            Reply::Found(u64::MAX, Some(usize::MAX)),
            "found 18446744073709551615 18446744073709551615",
        ),
        (Reply::Nothing, "nothing"),
        (Reply::Done, "done"),
        (Reply::Removed(10, None, false), "removed 10 -"),
        (Reply::Removed(10, Some(2), true), "removed 10 2 wrapped"),
        (Reply::Removed(10, None, true), "removed 10 - wrapped"),
        (Reply::Invalid, "invalid"),
        (Reply::Cleared(false), "cleared"),
        (Reply::Cleared(true), "cleared wrapped"),
        (Reply::Compacted(false), "compacted"),
        (Reply::Compacted(true), "compacted wrapped"),
        (Reply::Unresolved, "unresolved"),
        (Reply::BadName, "bad name"),
        (Reply::Count(255), "count 255"),
        (Reply::Exhausted, "exhausted"),
        (
            Reply::Removed(u64::MAX, Some(usize::MAX), true),
            "removed 18446744073709551615 18446744073709551615 wrapped",
        ),
    ];
    for (reply, text) in rows {
        is_written(&rt, rt.alloc(), reply, *text);
        let tells = (*text, reply.tells_of_wrap());
        is(tells, (*text, text.ends_with("wrapped"))).expect(&rt, "whether it tells of a wrap");
    }
}

/// One of them is longer than the line of any other reply.
#[test]
fn writes_a_text_as_it_stands(rt: HostRuntime) {
    let long = "0123456789012345678901234567890123456789012345678901234567890123456789 wrapped";
    for text in ["", "{}", long] {
        let shown = String::from_str(rt.alloc(), text).expect(&rt, "memory");
        is_written(&rt, rt.alloc(), &Reply::Line(shown), text);
    }
}
