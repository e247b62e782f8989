//! What holds of building: two good trees with one reading are equal, and the plain builder gives each tree.
#![tactic(auto)]

pub mod laws;
