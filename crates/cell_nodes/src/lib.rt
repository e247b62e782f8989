//! Shared cells, seen as trees.
#![tactic(auto)]

mod builder;
mod cell;
mod children;
mod data;
mod exotic;
pub mod laws;
mod layouts;
mod marks;
mod slice;
mod tree;

pub use builder::{CellBuilder, PushError};
pub use cell::{Cell, CellError};
pub use layouts::exotic_kind;
pub use slice::{CellSlice, RefSlice};
pub use tree::{Hidden, Kind, Mode, Tree};
