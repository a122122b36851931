//! Tests of direct arenas, of compaction with recasting, and of strict arenas, by public calls.
#![tactic(auto)]

#[cfg(test)]
mod tests;
