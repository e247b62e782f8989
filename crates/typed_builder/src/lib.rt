//! Values of TL-B types built into cells, by the plan of an accepted schema.
#![tactic(auto)]

mod builder;
mod dicts;
mod error;
mod forms;
mod records;
mod root;
mod types;

pub use error::BuildError;
pub use field_plan::{Holder, Place};
pub use root::build;
