//! What no clause of the users says: that their calls succeed where memory is there, and worked examples.

mod with_arenas;
mod without_arenas;
