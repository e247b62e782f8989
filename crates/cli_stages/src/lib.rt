//! The stages of a command: each refuses or gives something.
#![tactic(auto)]

pub mod bag;
pub mod built;
pub mod cell;
mod kinds;
pub mod laws;
pub mod named_type;
mod path_words;
pub mod proof;
pub mod proving;
pub mod rebuilt;
pub mod schema;
mod schema_text;
mod stop;
mod tags;
pub mod text;

pub use stop::Stop;
