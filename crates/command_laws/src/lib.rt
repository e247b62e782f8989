//! Laws over the outcomes of commands: what one command prints is what another reads.
#![tactic(auto)]

pub mod laws;
