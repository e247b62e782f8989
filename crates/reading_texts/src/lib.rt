//! That what is read has a text: the value that a good tree spells in an accepted schema can be written.
#![tactic(auto)]

pub mod laws;
