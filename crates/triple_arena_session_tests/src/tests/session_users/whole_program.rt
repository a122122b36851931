use triple_arena_session_uses::whole_program::written_over_the_heap;
use triple_arena_test_kit::is;

#[test]
fn a_text_runs_over_the_heap(rt: HostRuntime) {
    let args = Ok(Vec::new(rt.alloc()));
    let written = written_over_the_heap(args, rt.alloc(), "insert 1 -\nget 1\n".as_bytes());
    let written = written.expect(&rt, "memory");
    let wanted = "given 1\nfound 1 -\n".as_bytes();
    is(written.as_slice(), wanted).expect(&rt, "the replies");
}
