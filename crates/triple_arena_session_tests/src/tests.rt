//! What no clause of commands, of sessions and of their users says.

mod command_texts;
mod lines;
mod session_users;
mod sessions;
