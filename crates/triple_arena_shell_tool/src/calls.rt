//! The words of a line, what its call is answered by, and the calls that stand in a trait of arenas.

mod answer;
mod changes;
mod insertions;
mod numbered;
mod pairs;
mod reads;
mod stop;
mod walks;
mod words;

pub use answer::{Answer, shown};
pub use changes::change;
pub use insertions::insert;
pub use numbered::Numbered;
pub use pairs::exchange;
pub use reads::read;
pub use stop::Stop;
pub use walks::walk;
pub use words::{Value, generation, given, size};
