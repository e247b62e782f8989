//! What holds of pruning in every accepted schema.
#![tactic(auto)]

pub mod laws;
