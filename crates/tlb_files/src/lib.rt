//! Files as a whole over a shelf, and a text in pieces over a sink.
#![tactic(auto)]

mod load;
mod put;

pub use load::{File, LoadError, load_all};
pub use put::put_all;
pub use tlb_edge::{Failed, Shelf, Sink};
pub use tlb_memory::NoMemory;
