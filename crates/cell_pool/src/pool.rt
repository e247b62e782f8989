//! Distinct cells, each with one number.
ghost use Rattle.std.specs.List.{All};
ghost use Rattle.std.specs.Prelude.{◌≡◌, ◌≤◌, ◌<◌, ◌+◌, ◌^◌, ◌++◌, ◌∷◌, [], ℕ, false, length, map, reverse, take};
ghost use Rattle.std.specs.Prelude.{slice_get, Some, IfOk, IfSome, OnOk, OnErr, MatchOption};
ghost use Rattle.cell_nodes.specs.declared.tree.Tree.{Tree, out-Tree};
ghost use Rattle.cell_nodes.specs.Good.{AllGood};
ghost use Rattle.cell_nodes.specs.Tree.{unfolded};
ghost use Rattle.cell_pool.specs.Post.{stands, place, post};
ghost use Rattle.cell_pool.specs.Listing.{added, AllStand, IsOrdered, IsPartly};
ghost use Rattle.cell_pool.specs.Visited.{trees_at};
ghost use Rattle.cell_pool.specs.Nodes.{node_tree, node_numbers, numbers_in, bucket, mark, AllSmall, Follows};

use crate::id::NodeId;
use crate::intern::add;
use crate::node::PoolNode;
use crate::order::order_of;
use cell_nodes::Cell;
use std::alloc::{AllocError, Global};
use std::marker::Model;
use tlb_memory::NoMemory;

/// How many buckets there are: as many as the cells of the largest tree.
const BUCKETS: usize = 262_144;

/// The number of the first four bytes of the cell's hash.
fn mark_of(cell: &Cell) -> u32
    ensures { result ≡ mark cell.now }
{
    let hash = cell.hash(3);
    hash[0] as u32 * 16_777_216 + hash[1] as u32 * 65_536 + hash[2] as u32 * 256 + hash[3] as u32
}

/// The bucket of the cell, of so many.
fn bucket_of(cell: &Cell, count: usize) -> usize
    requires { 0 < count }
    ensures value { result ≡ bucket count cell.now }
    ensures bound { result < count }
{
    mark_of(cell) as usize % count
}

fn push_node(nodes: &mut Vec<PoolNode>, node: PoolNode) -> Result<(), NoMemory>
    ensures ok { OnOk result (nodes.new.items ≡ nodes.old.items ++ node ∷ []) }
    ensures err { OnErr result (nodes.new.items ≡ nodes.old.items) }
{
    nodes.push(node).map_err(AllocError::from)?;
    Ok(())
}

/// Distinct cells, each after its children, seen as the list of their trees. The number of a node is its place.
#[derive(Drop)]
pub struct Pool {
    alloc: Global,
    nodes: Vec<PoolNode>,
    heads: Vec<u32>,
}

impl Model for Pool {
    ghost use Rattle.std.specs.Prelude.{List};
    ghost use Rattle.cell_nodes.specs.declared.tree.Tree.{Tree};

    ghost Value = { List Tree };

    ghost use Rattle.cell_nodes.specs.contracts.tree.Tree as tree_type;
    ghost use Rattle.std.specs.Coded.{codes, coded_list};

    ghost coded = { coded_list (Prim.hlevel (codes, tree_type.the_row.coded)) };

    ghost use Rattle.cell_pool.specs.Nodes.{trees_of, IsPool};

    ghost view = { λ p. trees_of p.nodes.items };

    ghost invariant = { λ p. IsPool p.nodes.items p.heads.items };
}

impl Pool {
    /// A pool without nodes.
    pub fn new(alloc: Global) -> Result<Pool, NoMemory>
        ensures { IfOk result (λ p. p ≡ []) }
    {
        Pool::with_buckets(alloc, BUCKETS)
    }

    fn with_buckets(alloc: Global, count: usize) -> Result<Pool, NoMemory>
        requires { 0 < count }
        ensures { IfOk result (λ p. p ≡ []) }
    {
        let heads = vec![in alloc; 0u32; count]?;
        Ok(Pool {
            alloc,
            nodes: Vec::new(alloc),
            heads,
        })
    }

    /// How many nodes there are.
    pub fn count(&self) -> u32
        ensures { result ≡ length self.now }
    {
        self.nodes.len() as u32
    }

    /// The node of that number.
    pub fn get(&self, id: NodeId) -> &PoolNode
        requires { id < length self.now }
        ensures tree { slice_get self.now id ≡ Some (node_tree result.now) }
        ensures numbers { node_numbers result.now ≡ map (place self.now) (out-Tree (node_tree result.now)).children }
    {
        &self.nodes[id.number() as usize]
    }

    /// Adds the distinct subtrees of the cell that have no node yet, each after its children, and gives the number of
    /// the cell's own node. Equal trees have equal numbers. The walk goes down the whole unfolded tree.
    pub fn intern(&mut self, cell: &Cell) -> Result<NodeId, NoMemory>
        requires small { unfolded cell.now ≤ 262144 }
        requires room { length self.old < 2 ^ 31 }
        ensures added { OnOk result (self.new ≡ added self.old cell.now) }
        ensures meaning { IfOk result (λ id. slice_get self.new id ≡ Some cell.now) }
        ensures number { IfOk result (λ id. id ≡ place self.new cell.now) }
        // Some of its subtrees were added, and not the cell's own tree.
        ensures partly { OnErr result (IsPartly self.old self.new cell.now) }
        // The numbers that were there mean what they meant.
        ensures kept { take (length self.old) self.new ≡ self.old }
        ensures few { length self.new ≤ length self.old + unfolded cell.now }
    {
        add(self, cell)
    }

    /// The numbers of the distinct subtrees of the node's tree, in the reverse of the order in which a walk from left
    /// to right completes them: the order of the cells of a bag.
    pub fn order(&self, alloc: Global, root: NodeId) -> Result<Vec<NodeId>, NoMemory>
        requires { root < length self.now }
        ensures numbers { IfOk result
            (λ v. IfSome (slice_get self.now root) (λ t. v.items ≡ map (place self.now) (reverse (post t)))) }
        ensures meaning { IfOk result
            (λ v. IfSome (slice_get self.now root) (λ t. trees_at self.now v.items ≡ reverse (post t))) }
        ensures there { IfOk result (λ v. All (λ n. n < length self.now) v.items) }
    {
        order_of(self, alloc, root)
    }

    pub(crate) fn alloc(&self) -> Global {
        self.alloc
    }

    /// A law: the trees are good.
    pub fn good(&self)
        ensures { AllGood self.now }
    {
        let _ = &self.nodes;
    }

    /// A law: each tree unfolds to at most 262,144 cells.
    pub fn small(&self)
        ensures { AllSmall self.now }
    {
        let _ = &self.nodes;
    }

    /// A law: equal trees have equal numbers.
    pub fn distinct(&self)
        ensures { (t : Tree) (i j : ℕ) → slice_get self.now i ≡ Some t → slice_get self.now j ≡ Some t → i ≡ j }
    {
        let _ = &self.nodes;
    }

    /// A law: the trees are distinct, and the children of each stand before it.
    pub fn ordered(&self)
        ensures { IsOrdered self.now }
    {
        let _ = &self.nodes;
    }

    /// The number of the node that has the kind and the bits of the cell and these children.
    pub(crate) fn find(&self, cell: &Cell, children: &[NodeId]) -> Option<NodeId>
        requires numbers { children.now ≡ numbers_in self.now cell.now }
        requires stand { AllStand self.now (out-Tree cell.now).children }
        ensures { MatchOption result (stands self.now cell.now ≡ false) (λ id. slice_get self.now id ≡ Some cell.now) }
    {
        let mut link = self.heads[bucket_of(cell, self.heads.len())];
        'chain: while link > 0 {
            let node = &self.nodes[link as usize - 1];
            if node.is_node_of(cell, children) {
                return Some(NodeId::new(link - 1));
            }
            link = node.next;
        }
        None
    }

    /// Adds a node, as the first of the chain of its bucket.
    pub(crate) fn push(&mut self, cell: Cell, children: Vec<NodeId>) -> Result<(), NoMemory>
        requires { Follows self.old cell children.items }
        ensures ok { OnOk result (self.new ≡ self.old ++ cell ∷ []) }
        ensures err { OnErr result (self.new ≡ self.old) }
    {
        cell.good();
        let bucket = bucket_of(&cell, self.heads.len());
        let next = self.heads[bucket];
        let node = PoolNode {
            cell,
            children,
            next,
        };
        push_node(&mut self.nodes, node)?;
        self.heads[bucket] = self.nodes.len() as u32;
        Ok(())
    }
}
