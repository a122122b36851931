//! Tests of values as bytes by public calls, and a struct that is written and read.
#![tactic(auto)]

#[cfg(test)]
mod tests;
