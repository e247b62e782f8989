//! Distinct cells, each with one number.
#![tactic(auto)]

mod id;
mod intern;
pub mod laws;
mod node;
mod order;
mod pool;

pub use id::NodeId;
pub use node::PoolNode;
pub use pool::Pool;
