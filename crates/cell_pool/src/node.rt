//! The nodes of a pool.
ghost use Rattle.std.specs.Prelude.{◌≡◌, ◌≤◌, length, ◌↔◌, IsTrue};
ghost use Rattle.cell_nodes.specs.declared.tree.Tree.{out-Tree};
ghost use Rattle.cell_nodes.specs.Tree.{mask};
ghost use Rattle.cell_pool.specs.Nodes.{node_tree, node_numbers, SameContent};

use crate::id::NodeId;
use bit_slice::BitSlice;
use cell_nodes::{Cell, Kind};

/// A node: the cell that it stands for, the numbers of its children, and its link in the chain of its bucket.
#[derive(Drop)]
pub struct PoolNode {
    pub(crate) cell: Cell,
    pub(crate) children: Vec<NodeId>,
    pub(crate) next: u32,
}

impl PoolNode {
    pub fn kind(&self) -> Kind
        ensures { result ≡ (out-Tree (node_tree self.now)).kind }
    {
        self.cell.kind()
    }

    pub fn bits(&self) -> BitSlice<'_>
        ensures { result ≡ (out-Tree (node_tree self.now)).bits }
    {
        self.cell.bits()
    }

    pub fn mask(&self) -> u8
        ensures value { result ≡ mask (node_tree self.now) }
        ensures bound { result ≤ 7 }
    {
        self.cell.mask()
    }

    /// How many children there are.
    pub fn refs(&self) -> u32
        ensures value { result ≡ length (out-Tree (node_tree self.now)).children }
        ensures bound { result ≤ 4 }
    {
        self.cell.refs()
    }

    /// The numbers of the children, from the left.
    pub fn children(&self) -> &[NodeId]
        ensures { result.now ≡ node_numbers self.now }
    {
        self.children.as_slice()
    }

    /// Whether the node has the kind and the bits of the cell, and these children.
    pub(crate) fn is_node_of(&self, cell: &Cell, children: &[NodeId]) -> bool
        ensures { IsTrue result ↔ (SameContent (node_tree self.now) cell.now × (node_numbers self.now ≡ children.now)) }
    {
        same_content(&self.cell, cell) && same_numbers(self.children.as_slice(), children)
    }
}

fn same_content(a: &Cell, b: &Cell) -> bool
    ensures { IsTrue result ↔ SameContent a.now b.now }
{
    a.kind() == b.kind() && a.bits().same(b.bits())
}

fn same_numbers(a: &[NodeId], b: &[NodeId]) -> bool
    ensures { IsTrue result ↔ (a.now ≡ b.now) }
{
    a == b
}
