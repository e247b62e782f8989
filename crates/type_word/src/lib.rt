//! From the words for types on a command line to closed types. The language is that of the TON documentation on TL-B;
//! what a word may not hold, and the order of refusals, are fixed by the definitions of this crate.
#![tactic(auto)]

mod error;
pub mod laws;
mod signs;
mod text;
mod word;

pub use closed_type::{ClosedArg, ClosedType};
pub use error::TypeError;
pub use text::shown;
pub use word::resolve;
