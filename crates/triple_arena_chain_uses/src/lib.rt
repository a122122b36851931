//! Users of chains and of sets of keys, to copy from: a cache of the keys last used, waiting lists and lists of tasks, lists
//! that become one, and nets of a circuit.
#![tactic(auto)]

pub mod cache;
pub mod merging;
pub mod nets;
pub mod tasks;
pub mod waiting;

pub use cache::Cache;
