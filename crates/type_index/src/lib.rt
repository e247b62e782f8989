//! The declared types of a schema by their names, in an order in which a look-up halves what is left.
#![tactic(auto)]

mod index;

pub use index::{TypeEntry, TypeIndex};
