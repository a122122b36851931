//! Tests of chains and of sets of keys by their public calls.
#![tactic(auto)]

#[cfg(test)]
mod tests;
