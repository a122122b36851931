//! What no clause of these arenas says: that their calls succeed, also at large sizes, worked examples,
//! texts, and loops.

mod compaction;
mod direct;
mod extending;
mod map_values;
mod shown;
mod strict;
mod tables;
mod texts;
