//! Users of strict arenas and of compaction with recasting, a file each, to copy from.
#![tactic(auto)]

pub mod beside_two;
pub mod circuit;
pub mod elements;
pub mod exchange;
pub mod first_compaction;
pub mod holders;
pub mod keeping;
pub mod labels;
pub mod leases;
pub mod moving_notes;
pub mod names_beside_two;
pub mod netlist;
pub mod office;
pub mod side_table;
pub mod ticket;

pub use circuit::Circuit;
pub use leases::{Lease, Leases};
pub use netlist::Netlist;
pub use side_table::NotedEntities;
pub use ticket::Ticket;
