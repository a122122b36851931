//! Makes each call of stacks and arenas that may be refused memory, on something small, where the
//! machine refuses one request. It is a tool of the gate, and promises nothing.
//!
//! Standard input has a number and a word, which say which request is refused, and which calls are
//! made (`make_asked`). The call that asked leaves what it must, and succeeds when it is made again,
//! and all others succeed at once. Which call it was, or what is wrong, is written.
//!
//! What names an arena with its types stands in a few functions alone, as such a function takes seconds
//! to prove: an arena lies in a struct without type parameters, and all else calls that.
#![tactic(auto)]

mod arenas;
mod calls;
mod circuit;
mod compacting;
mod compactions;
mod copies;
mod copying;
mod counted;
mod counted_copies;
mod direct;
mod holders;
mod limited;
mod links;
mod on_heap;
mod over_stack;
mod stacks;
mod state;
mod strict;
mod told;
mod value;

use std::alloc::Global;
use triple_arena_refused_kit::{Calls, Report, make_asked};

/// Calls of stacks and arenas.
struct OfArenas;

impl Calls for OfArenas {
    fn words(&self) -> &'static [&'static str] {
        &[
            "stacks",
            "arenas",
            "copies",
            "counted",
            "compactions",
            "holders",
        ]
    }

    fn make(&self, alloc: Global, word: &str, report: &mut Report) {
        match word {
            "stacks" => stacks::try_each(alloc, report),
            "arenas" => arenas::try_each(alloc, report),
            "copies" => copies::try_each(alloc, report),
            "counted" => counted_copies::try_each(alloc, report),
            "compactions" => compactions::try_each(alloc, report),
            _ => holders::try_each(alloc, report),
        }
    }
}

fn main(rt: HostRuntime) -> anyhow::Result<()> {
    let report = make_asked(rt.alloc(), &mut rt.stdin(), &OfArenas)?;
    println!(rt; "{report}")?;
    Ok(())
}
