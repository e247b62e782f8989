//! Values of TL-B types as data, and the paths that name their parts.
#![tactic(auto)]

mod copy;
mod measure;
mod path;
mod step;
mod value;

pub use bit_slice::Name;
pub use cell_nodes::Hidden;
pub use path::{Path, Step};
pub use value::{Dict, Number, Record, RestPart, Value};
