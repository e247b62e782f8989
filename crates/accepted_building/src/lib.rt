//! What holds of building in every accepted schema.
#![tactic(auto)]

pub mod laws;
