//! What holds of pruning.
#![tactic(auto)]

pub mod laws;
