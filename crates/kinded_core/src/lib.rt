//! What the rules on the kinds of a schema, and its guard, give its core forms: laws.
#![tactic(auto)]

pub mod laws;
