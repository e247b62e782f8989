//! From the declarations of a schema to their core forms: what each name stands for where it is used. Definitions, and
//! laws of them.
#![tactic(auto)]

pub mod laws;
