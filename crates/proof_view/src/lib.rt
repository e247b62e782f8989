//! Reads a Merkle proof, and tells what a value with hidden parts lets one know.
#![tactic(auto)]

mod error;
mod sealed;
mod stored;
mod viewing;

pub use error::ViewError;
pub use path_knowledge::{Knowledge, knows};
pub use viewing::{Viewed, view};
