//! Saves and loads, where the machine refuses one request for memory. It is a tool of the gate, and
//! promises nothing.
//!
//! Standard input has a number and a word, which say which request is refused, and which calls are
//! made (`make_asked`). The call that asked has written no byte, or made nothing, and succeeds when
//! it is made again, and all others succeed at once. Which call it was, or what is wrong, is written.
#![tactic(auto)]

mod files;
mod kinds;

use std::alloc::Global;
use triple_arena_refused_kit::{Calls, Report, make_asked};

/// Saves and loads.
struct OfSnapshots;

impl Calls for OfSnapshots {
    fn words(&self) -> &'static [&'static str] {
        &["saves", "loads"]
    }

    fn make(&self, alloc: Global, word: &str, report: &mut Report) {
        match word {
            "saves" => kinds::save_each(alloc, report),
            _ => kinds::load_each(alloc, report),
        }
    }
}

fn main(rt: HostRuntime) -> anyhow::Result<()> {
    let report = make_asked(rt.alloc(), &mut rt.stdin(), &OfSnapshots)?;
    println!(rt; "{report}")?;
    Ok(())
}
