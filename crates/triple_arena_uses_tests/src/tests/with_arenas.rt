//! What no clause of the users says: that their calls succeed where memory is there, and worked examples.

mod circuit;
mod entity_table;
mod exchange;
mod first_arena;
mod gates;
mod graph;
mod guest_book;
mod holders;
mod into_values;
mod labels;
mod leases;
mod links;
mod netlist;
mod office;
mod ports;
mod side_table;
mod tables;
mod waiting;

// Index and generation of a pointer.
type Numbers = (usize, u64);
