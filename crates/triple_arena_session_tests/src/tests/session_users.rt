//! What no clause of the users of sessions says: that their calls succeed where memory is there, and worked examples.

mod any_session;
mod at_any_time;
mod audit;
mod begun_sessions;
mod compactions;
mod named_entries;
mod new_sessions;
mod raises;
mod rows;
mod whole_program;
