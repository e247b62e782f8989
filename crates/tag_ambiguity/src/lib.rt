//! Whether the constructors of each type of a TL-B schema are told apart before one of them is entered: by their tags, by
//! what their first fields begin with, or by their parameters.
#![tactic(auto)]

mod accepted;
mod error;
mod inputs;
mod judge;

pub use accepted::{Accepted, leads, separate};
pub use error::TagError;
