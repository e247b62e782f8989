//! Cyclic redundancy checks of whole messages.
#![tactic(auto)]

mod crc;
mod tables;

pub use crc::{crc32, crc32c};
