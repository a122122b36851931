//! Tests of commands, replies, sessions, their users and the program, by public calls alone.
#![tactic(auto)]

#[cfg(test)]
mod tests;
