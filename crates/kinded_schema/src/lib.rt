//! What a schema is in which nothing is refused: each name is looked up, each number has its form, and each variable is
//! known where it is used. Definitions, and laws that a schema without a refusal meets them.
#![tactic(auto)]

pub mod laws;
