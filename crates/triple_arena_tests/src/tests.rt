//! What no clause of the arenas says, and no transcript of the shell: that their calls succeed, also at large sizes,
//! callers with clauses, loops and texts, and what becomes of values.

mod arenas;
mod calls;
mod copies;
mod drops;
mod entries;
mod loops;
mod pointer_types;
mod sizes;
mod texts;
