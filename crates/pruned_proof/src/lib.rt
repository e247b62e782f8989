//! Merkle proofs of chosen paths.
#![tactic(auto)]

mod cutting;
mod error;
mod holding;
mod proving;
mod walking;
mod wanted;

pub use error::ProveError;
pub use proving::{Proved, prove};
