//! What no clause of chains and of sets of keys says: that their calls succeed where memory is there, a cache beside
//! the kit's, sets beside a plain model, sizes, drops, and texts.

mod cache;
mod calls;
mod chains;
mod drops;
mod model;
mod pointers;
mod sets;
mod sizes;
mod texts;
mod values;
mod waiting;
