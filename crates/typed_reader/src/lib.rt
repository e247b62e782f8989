//! Reads a cell at a closed type of a schema.
#![tactic(auto)]

mod error;
mod found;
pub mod laws;
mod parts;
mod reader;
mod root;

pub use cell_nodes::Mode;
pub use error::ReadError;
pub use field_plan::{Cause, FieldPath, Holder, Place};
pub use root::read;
