//! Places in a declaration of a schema: what refusals of a schema and stops of a reading name.
#![tactic(auto)]

mod part;
mod path;

pub use part::Part;
pub use path::FieldPath;
