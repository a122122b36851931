//! An arena at the keyboard: reads calls of arenas, one a line, and writes each line again with what the call answered.
//! What stands behind ` ->` in a line is not read, so that what was written can be run again.
#![tactic(auto)]

mod arena_calls;
mod calls;
mod entries;
mod families;
mod held;
mod help;
mod lines;
mod shelf;
mod state;
mod transcript;

use std::process::ExitCode;
use transcript::run;

fn main(rt: HostRuntime) -> ExitCode {
    let mut number = 0;
    match run(&rt, rt.alloc(), &mut number) {
        Ok(()) => ExitCode::from(0),
        Err(stop) => {
            let _ = eprintln!(rt; "line {number}: {stop}");
            ExitCode::from(stop.status())
        }
    }
}
