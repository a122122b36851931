//! The texts of replies, and the words of arguments.

mod arguments;
mod replies;
