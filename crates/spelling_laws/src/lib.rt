//! What holds of spelling: the plain reader is exact, and each root has one reading or is stuck at one place.
#![tactic(auto)]

pub mod laws;
