//! What holds of proofs.
#![tactic(auto)]

pub mod laws;
