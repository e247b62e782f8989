//! Dictionaries in cells.
#![tactic(auto)]

mod edges;
mod entries;
mod found;
pub mod laws;
mod placing;
mod planting;
mod walking;
mod writing;

pub use found::{Walk, WalkCause, WalkError};
pub use planting::{PlantError, are_entries, plant};
pub use walking::walk;
pub use writing::write_label;
