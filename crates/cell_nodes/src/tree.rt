//! Trees, which contracts see in place of cells.
use bit_slice::BitString;
use sqlite_items::Items;

/// The kind of a cell.
#[derive(Clone, Copy, PartialEq, Eq, Debug)]
pub enum Kind {
    Ordinary,
    Pruned,
    Library,
    Proof,
    Update,
}

/// How a cell is read.
#[derive(Clone, Copy, PartialEq, Eq, Debug)]
pub enum Mode {
    /// Without hidden parts.
    Whole,
    /// With pruned branches in the place of some parts.
    Partial,
    /// Without hidden parts, and with labels of every form in dictionaries.
    Lax,
}

/// The hash and the depth of a hidden part.
#[derive(Clone, Copy, PartialEq, Eq, Debug)]
pub struct Hidden {
    pub hash: [u8; 32],
    pub depth: u16,
}

/// A tree. No value of it is made: it is what contracts see of a `Cell`.
#[derive(Drop)]
pub struct Tree {
    pub kind: Kind,
    pub bits: BitString,
    pub children: Items<Tree>,
}
