//! Tests of refusals and answers, of pointers and of stacks, by public calls.
#![tactic(auto)]

#[cfg(test)]
mod tests;
