//! Values as bytes, and read back: numbers, pointers, what is made of them, and arenas, strict ones too. It is a door.
#![tactic(auto)]

mod arena_slots;
mod arenas;
mod arrays;
mod boxes;
mod checksum;
mod codec;
mod containers;
mod direct_arenas;
mod entries;
mod fault;
mod file;
mod floats;
mod free_lists;
mod generations;
mod keys;
pub mod laws;
mod loading;
mod non_zero;
mod numbers;
mod ordered_maps;
mod pointers;
mod saving;
mod shapes;
mod signed;
mod stacks;
mod strict_arenas;
mod tuples;

pub use arenas::{decode_arena, encode_arena};
pub use checksum::crc32c;
pub use codec::{Codec, from_bytes, to_bytes};
pub use direct_arenas::{decode_direct_arena, encode_direct_arena};
pub use fault::{DecodeError, Fault, LoadError, SaveError};
pub use file::{from_file_bytes, to_file_bytes};
pub use generations::GenerationCodec;
pub use keys::KeyCodec;
pub use loading::{load, load_arena, load_direct_arena};
pub use saving::{save, save_arena, save_direct_arena};
pub use shapes::{shape_alone, shape_over, shape_over_both};
pub use strict_arenas::{decode_strict_arena, load_strict_arena, save_strict_arena};
