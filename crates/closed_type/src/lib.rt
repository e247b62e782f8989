//! Types without variables, as data.
#![tactic(auto)]

mod copy;
mod count;
mod tree;

pub use bit_slice::Name;
pub use count::MOST_NODES;
pub use tree::{ClosedArg, ClosedType};
