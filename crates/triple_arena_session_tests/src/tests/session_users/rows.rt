use super::new_sessions::new_session;
use triple_arena_session::{Command, Reply};
use triple_arena_session_uses::rows::{enter_within, find, reply_that_may_come};
use triple_arena_test_kit::is;

/// There is a place for one.
#[test]
fn a_row_is_found_and_a_second_has_no_place(rt: HostRuntime) {
    let mut session = new_session(&rt, rt.alloc(), 1);
    let first = enter_within(&mut session, 7).expect(&rt, "memory");
    let second = enter_within(&mut session, 8).expect(&rt, "memory");
    is((first, second), (Some(1), None)).expect(&rt, "names of two numbers");
    let found = find(&mut session, 1);
    let nothing = find(&mut session, 2);
    is((found, nothing), (Some((7, None)), None)).expect(&rt, "what stands under two names");
    let count = reply_that_may_come(&mut session, Command::Len);
    is(count, Reply::Count(1)).expect(&rt, "how many rows there are");
}
