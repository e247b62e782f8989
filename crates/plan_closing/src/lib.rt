//! Closed types of the types of a plan: numbers and closed types put for variables.
#![tactic(auto)]

mod build;
mod close;
mod count;
mod error;

pub use close::close_type;
pub use error::CloseError;
