//! Pointers into an arena: an index, and a generation that tells apart the entries of one index. It is a
//! door.
#![tactic(auto)]

mod generation;
mod hex;
mod inx;
pub mod laws;
mod named_ptr;
mod non_zero;
mod p0;
mod p1;
mod p2;
mod p3;
mod p4;
mod p5;
mod plain;
mod ptr;
mod ptr_kind;
mod ptr_no_gen;
mod q2;
mod small_ptr;
mod text;

pub use generation::PtrGen;
pub use inx::PtrInx;
pub use named_ptr::{NamedPtr, PtrName};
pub use non_zero::{
    non_zero_u8, non_zero_u16, non_zero_u32, non_zero_u64, non_zero_u128, non_zero_usize,
};
pub use p0::P0;
pub use p1::P1;
pub use p2::P2;
pub use p3::P3;
pub use p4::P4;
pub use p5::P5;
pub use plain::Plain;
pub use ptr::Ptr;
pub use ptr_kind::PtrKind;
pub use ptr_no_gen::PtrNoGen;
pub use q2::Q2;
pub use small_ptr::SmallPtr;
pub use text::fmt_pointer;
