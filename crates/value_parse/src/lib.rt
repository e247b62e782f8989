//! The value that a text writes, or the text's first refusal.
#![tactic(auto)]

mod cells;
mod error;
mod give;
mod limit;
mod records;
mod state;
mod steps;
mod text;

pub use error::TextError;
pub use text::parse;
pub use value_text::{PathError, parse_path, print};
