//! The built-in dictionary is the one that the public lines declare.
#![tactic(auto)]

pub mod laws;
