//! What holds of dictionaries whose labels stand in any form: each reading in mode Lax has a tree in mode Whole.
#![tactic(auto)]

pub mod laws;
