//! What no clause of the pointers says: their texts at worked examples and their hashes; worked
//! examples of the rest; and callers that stand on the contract alone.

mod byte_pointer;
mod callers;
mod comparisons;
mod generations;
mod indexes;
mod pairs;
mod pointers;
mod recasts;
mod texts;
