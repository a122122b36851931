//! Makes each call of sessions that may be refused memory, where the machine refuses one request.
//! It is a tool of the gate, and promises nothing.
//!
//! Standard input has a number and a word, which say which request is refused, and which calls are
//! made (`make_asked`). The call that asked leaves what it must, and succeeds when it is made again,
//! and all others succeed at once; a run or a text may go on past a command that was refused. Which
//! call it was, or what is wrong, is written.
#![tactic(auto)]

mod programs;
mod runs;
mod sessions;

use std::alloc::Global;
use triple_arena_refused_kit::{Calls, Report, make_asked};

/// Calls of sessions.
struct OfSessions;

impl Calls for OfSessions {
    fn words(&self) -> &'static [&'static str] {
        &["sessions", "runs", "programs"]
    }

    fn make(&self, alloc: Global, word: &str, report: &mut Report) {
        match word {
            "sessions" => sessions::try_each(alloc, report),
            "runs" => runs::try_each(alloc, report),
            _ => programs::try_each(alloc, report),
        }
    }
}

fn main(rt: HostRuntime) -> anyhow::Result<()> {
    let report = make_asked(rt.alloc(), &mut rt.stdin(), &OfSessions)?;
    println!(rt; "{report}")?;
    Ok(())
}
