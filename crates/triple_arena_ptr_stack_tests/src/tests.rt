//! Tests of the three crates that stand below the traits of arenas.

mod base;
mod ptr;
mod stack;
