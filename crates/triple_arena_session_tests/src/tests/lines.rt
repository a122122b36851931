//! Replies as the lines that are written of them.

use std::alloc::Global;
use std::process::Abort;
use triple_arena_base::AllocError;
use triple_arena_session::{Reply, write_reply};
use triple_arena_test_kit::is;

/// Expects the replies of a run to have these lines.
pub fn are_replies(
    rt: &impl Abort,
    alloc: Global,
    name: &str,
    told: Result<Vec<Reply<u64>>, AllocError>,
    lines: &str,
) {
    let mut written = Vec::new(alloc);
    for reply in &told.expect(rt, name) {
        write_reply(&mut written, reply).expect(rt, "memory");
    }
    is(written.as_slice(), lines.as_bytes()).expect(rt, name);
}
