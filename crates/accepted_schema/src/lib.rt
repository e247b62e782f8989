//! Accepted schemas: what is asked of a schema beyond its text, and the first refusal by tags and leads.
#![tactic(auto)]

pub mod laws;
