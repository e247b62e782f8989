//! A message with any number of entries in its dictionary, to run the program on.
#![tactic(auto)]

mod keys;
mod message;
mod schema;

pub use message::{message_text, path_word};
pub use schema::message_schema;
