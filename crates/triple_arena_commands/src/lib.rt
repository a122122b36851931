//! Commands that speak of entries by name, their replies, the text of both, and the store of names that
//! they mean. It is an inner crate behind `triple_arena_session`, apart so that it is proved beside the arenas.
#![tactic(auto)]

mod arguments;
mod command;
mod input;
pub mod laws;
mod name_table;
mod output;
mod reply;
mod reply_line;
mod splitting;
mod text_error;
mod words;

pub use arguments::{Kind, Outcome, asked_mode, parse_args, parse_mode, status};
pub use command::{Command, parse_command};
pub use input::read_text;
pub use name_table::NameTable;
pub use output::{flush_after, write_reply, write_reply_in};
pub use reply::Reply;
pub use reply_line::LINE_ROOM;
pub use splitting::split_first;
pub use text_error::TextError;
