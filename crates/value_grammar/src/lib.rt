//! What a text of a value means: its grammar, its limits, and its first refusal.
#![tactic(auto)]

mod cause;
pub mod laws;

pub use cause::Cause;
