//! `make N`: the main job on a message that is made from a number.
#![tactic(auto)]

mod lines;
mod making;
mod proving;
mod written;

pub use making::make;
