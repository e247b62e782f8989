//! The commands: a table of verbs with their slots, and what each answers for words and the bytes of its files.
#![tactic(auto)]

mod build;
mod check;
mod commands;
mod form;
mod hash;
pub mod laws;
mod prove;
mod read;
mod slot;
mod tidy;
mod view;

pub use commands::Verb;
pub use form::Form;
pub use slot::Slot;
