//! Tests of the users by their public calls.
#![tactic(auto)]

#[cfg(test)]
mod tests;
