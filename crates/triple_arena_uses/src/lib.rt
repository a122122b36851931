//! Users of pointers, stacks and arenas, a file each, to copy from.
#![tactic(auto)]

pub mod badge;
pub mod beside;
pub mod counting_stack;
pub mod entity_table;
pub mod first_arena;
pub mod first_history;
pub mod gates;
pub mod graph;
pub mod guest_book;
pub mod into_values;
pub mod links;
pub mod moving;
pub mod ports;
pub mod roster;
pub mod same_pointers;
pub mod snapshots;
pub mod undo;
pub mod waiting;
pub mod walks;
pub mod wrong_steps;

pub use counting_stack::CountingStack;
pub use entity_table::{Entity, EntityTable};
pub use graph::{Graph, Node};
pub use guest_book::GuestBook;
pub use links::Link;
pub use ports::Port;
