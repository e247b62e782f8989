//! What a path names in a value, and what a value with hidden parts lets one know of it.
#![tactic(auto)]

mod knowing;
mod naming;
mod step;

pub use knowing::knows;
pub use naming::names;
pub use pruning::Knowledge;
