//! The rules on kinds at one declaration: its heading, its items and outputs, and its implicit fields.
#![tactic(auto)]

mod declarations;
mod endings;
mod error;
mod first;
mod headings;
mod judge;
mod numbers;
mod records;
mod row;
mod scope;

pub use declarations::judge_constructor;
pub use error::{Cause, Fault};
pub use headings::judge_heading;
