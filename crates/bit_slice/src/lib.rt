//! Names, and lists of at most 1023 bits: owned, borrowed from any bit to any bit, and written one
//! after another.
#![tactic(auto)]

mod bytes;
mod hex;
pub mod laws;
mod name;
mod slice;
mod string;
mod writer;

pub use hex::HexTextError;
pub use name::{Name, is_name};
pub use slice::BitSlice;
pub use string::BitString;
pub use writer::{BitWriter, Full};
