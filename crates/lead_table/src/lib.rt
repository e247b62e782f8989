//! The tags and the leads of the constructors of a TL-B schema. The leads of each declared type are computed once, along
//! the chains of types that begin with one another.
#![tactic(auto)]

mod chain;
mod first;
mod heads;
mod leads;
mod members;
mod table;
mod tag;

pub use first::First;
pub use heads::Head;
pub use table::{LeadTable, lead_table};
