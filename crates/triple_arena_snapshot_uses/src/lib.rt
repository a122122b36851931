//! Users of arenas that are saved and loaded, a file each, to copy from.
#![tactic(auto)]

pub mod circuit;
pub mod coupons;
pub mod on_disk;
pub mod set_points;
pub mod tickets;

pub use circuit::{Cell, Circuit, Net};
pub use coupons::Coupons;
pub use set_points::{PLACES, SetPoints, load_set_points};
