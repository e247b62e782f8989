//! The files that a program reads and the output that it writes: as traits, in memory, and real.
#![tactic(auto)]

mod real;
mod shelf;
mod sink;

pub use real::{RealShelf, RealSink};
pub use shelf::{Failed, MemShelf, Shelf, SureShelf};
pub use sink::{MemSink, Sink, SureSink};
pub use tlb_memory::NoMemory;
