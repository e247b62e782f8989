//! The core form of a schema's constructors, in which no name is left to look up: definitions, and laws of them.
#![tactic(auto)]

pub mod laws;
