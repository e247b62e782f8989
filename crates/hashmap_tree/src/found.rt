//! What a walk gives.
use bit_slice::BitString;
use cell_nodes::{CellSlice, Hidden};

/// The contents of leaves by key, hidden parts by prefix, and what is left.
#[derive(Drop)]
pub struct Walk<'a> {
    pub pairs: Vec<(BitString, CellSlice<'a>)>,
    pub unknown: Vec<(BitString, Hidden)>,
    /// What follows the first edge; where that is a leaf, the slice that its value begins.
    pub rest: CellSlice<'a>,
    /// Whether the first edge is itself a leaf. Its slice then goes on past the value.
    pub inline: bool,
}

/// What was found so far.
#[derive(Drop)]
pub(crate) struct Found<'a> {
    pub(crate) pairs: Vec<(BitString, CellSlice<'a>)>,
    pub(crate) unknown: Vec<(BitString, Hidden)>,
}

/// Why a content is no dictionary.
#[derive(Clone, Copy, Debug, PartialEq, Eq)]
pub enum WalkCause {
    Exotic,
    ShortBits,
    Label,
    ShortRefs,
    Leftover,
}

/// Why a walk stopped.
#[derive(Drop)]
pub enum WalkError {
    /// At the edge with these key bits before its label.
    Stuck(BitString, WalkCause),
    NoMemory,
}
