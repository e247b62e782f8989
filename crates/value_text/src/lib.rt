//! The text of a value.
#![tactic(auto)]

mod cells;
pub mod laws;
mod lexeme;
mod marks;
mod path;
mod point;
mod printer;
mod scan;
mod spot;

pub use lexeme::{Form, Lexeme, Sign};
pub use path::{PathError, parse_path};
pub use printer::print;
pub use scan::lexeme_at;
