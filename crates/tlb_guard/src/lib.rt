//! The guard of a TL-B schema: no type leads back to itself before anything is taken.
#![tactic(auto)]

mod cycles;
mod edges;
mod empty;
mod exposed;
mod exposures;
pub mod laws;
mod least;
mod rules;
mod scope;
mod types;
mod users;

pub use cycles::first_unguarded;
pub use edges::Unguarded;
pub use types::Types;
