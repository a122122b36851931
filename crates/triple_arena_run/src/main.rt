//! Reads commands from standard input, and prints one reply a line.
#![tactic(auto)]

use std::process::ExitCode;
use std::{env, io};
use triple_arena_session::{run_program, status};

fn main(rt: HostRuntime) -> ExitCode {
    let mut input = rt.reader();
    let outcome = run_program(read_args(&rt), rt.alloc(), &mut input, io::writer(&rt)).0;
    let _ = rt.eprint(outcome);
    ExitCode::from(status(outcome))
}

// The arguments after the program's name.
fn read_args(rt: &HostRuntime) -> io::Result<Vec<String>> {
    Ok(Vec::from_iter(rt.alloc(), env::args(rt)?.skip(1))?)
}
