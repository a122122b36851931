//! Strict arenas. A function that makes a call of one takes some five seconds to prove, whatever it calls: so a few functions
//! make the calls of tables, and tests name no strict arena.

mod nodes;
mod nodes_tests;
mod numbers;
mod numbers_tests;
mod other_types;
