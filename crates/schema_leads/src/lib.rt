//! What the bits of a constructor begin with: its tag, and its leads; and which constructors are told apart by them.
#![tactic(auto)]

pub mod laws;
