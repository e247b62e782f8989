//! The line of a bag, as commands print it, and what a file with that line holds.
#![tactic(auto)]

pub mod laws;
