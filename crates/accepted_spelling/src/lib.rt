//! What holds of spelling in every accepted schema: the plain reader is exact, and each root has one reading or is
//! stuck at
//! one place.
#![tactic(auto)]

pub mod laws;
