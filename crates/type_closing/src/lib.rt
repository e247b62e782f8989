//! From the words for types on a command line to closed types. The language is that of the TON documentation on TL-B;
//! what a word may not hold, and the order of refusals, are fixed by the definitions of this crate.
#![tactic(auto)]

mod close;
mod fault;
pub mod laws;
mod named;

pub use close::close_word;
pub use fault::{Fault, fault_in};
