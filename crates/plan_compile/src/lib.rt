//! The flat form of a schema: its constructors' items, inputs and outputs as lists.
#![tactic(auto)]

mod compile;
mod items;
mod names;
mod numbers;
mod results;
mod shown;
mod types;
mod words;

pub use compile::{CompiledSchema, compile_constructors};
pub use shown::numbered;
