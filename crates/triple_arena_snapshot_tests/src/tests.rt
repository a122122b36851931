//! Values as bytes: each type once, a struct of its user's, bad bytes, and files; and files that are
//! written and read: a byte at a time, with failures, over each stack, of many random states, and of
//! thousands of entries.

mod arenas;
mod bad_files;
mod bytes;
mod circuits;
mod coupons;
mod devices;
mod files;
mod flip_flop;
mod more_types;
mod on_disk;
mod random;
mod round_trips;
mod set_points;
mod sizes;
mod streams;
mod texts;
mod tickets;
