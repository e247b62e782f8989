//! A shared node.
ghost use Rattle.std.specs.Prelude.{◌≡◌, ◌≤◌, ◌<◌, ◌-◌, ◌^◌, ◌↔◌, length, slice_get, map, Some, None};
ghost use Rattle.std.specs.Prelude.{IfOk, OnOk, IsErrOf, IfSome, MatchOption, IsTrue};
ghost use Rattle.std.specs.Option.{option_copied};
ghost use Rattle.cell_nodes.specs.declared.tree.Tree.{out-Tree};
ghost use Rattle.cell_nodes.specs.declared.tree.Kind.TheVariants.{Ordinary, Pruned as PrunedKind};
ghost use Rattle.cell_nodes.specs.Layout.{exotic_kind, has_layout};
ghost use Rattle.cell_nodes.specs.Levels.{level_of, levels};
ghost use Rattle.cell_nodes.specs.Tree.{tree_of, mask, depth, hash, mark_at, marks, shift, mask_of, depth_of, unfolded};
ghost use Rattle.cell_nodes.specs.Tree.{capped, deepest, IsShallow};
ghost use Rattle.cell_nodes.specs.Good.{IsGood};
ghost use Rattle.cell_nodes.specs.HiddenParts.{hidden};
ghost use Rattle.cell_nodes.specs.declared.cell.CellError.TheVariants.{NoMemory as OutOfMemory};

use crate::children::{all_good, share_all, unfolded_over};
use crate::layouts::{exotic_kind, set_bits};
use crate::marks::{has_next, node_depths, node_marks, node_mask};
use crate::slice::{CellSlice, RefSlice};
use crate::tree::{Hidden, Kind};
use bit_slice::{BitSlice, BitString};
use cell_hash::ChildMark;
use sqlite_items::at;
use std::alloc::Global;
use std::marker::Model;
use std::rc::Rc;
use tlb_memory::NoMemory;

/// The greatest depth of a cell, at any level.
pub(crate) const DEEPEST: u16 = 1024;

/// Why a cell was not made.
#[derive(Clone, Copy, Debug, PartialEq, Eq)]
pub enum CellError {
    /// A depth at some level would be above 1024.
    TooDeep,
    /// No exotic cell has such bits and references.
    BadExotic,
    NoMemory,
}

impl From<NoMemory> for CellError {
    ghost from_gives = { λ _ e. e ≡ OutOfMemory };

    fn from(_: NoMemory) -> CellError {
        CellError::NoMemory
    }
}

/// A shared node, seen as the tree below it. Cells share their children, and nothing is copied.
#[cycle(cell)]
#[derive(Drop)]
pub struct Cell {
    node: Rc<Node>,
}

#[cycle(cell)]
#[derive(Drop)]
struct Node {
    kind: Kind,
    bits: BitString,
    children: Vec<Cell>,
    mask: u8,
    /// The depth and the hash at level 0, and at the levels above it that the mask has.
    lowest: ChildMark,
    above: Vec<ChildMark>,
    unfolded: u32,
}

impl Model for Cell {
    ghost use Rattle.std.specs.Prelude.{◌≡◌};
    ghost use Rattle.cell_nodes.specs.declared.tree.Tree.{Tree};

    ghost Value = { Tree };

    ghost use Rattle.cell_nodes.specs.contracts.tree.Tree as tree_type;
    ghost use Rattle.std.specs.Coded.{codes};

    ghost coded = { Prim.hlevel (codes, tree_type.the_row.coded) };

    ghost use Rattle.cell_nodes.specs.Tree.{unfolded};
    ghost use Rattle.cell_nodes.specs.Kept.{tree_in, IsKept};

    ghost view = { λ a. tree_in a.node.value };

    ghost invariant = { λ a. IsKept a.node.value };

    ghost use Rattle.std.proofs.Common.{arith};
    ghost use Rattle.cell_nodes.specs.Equations.{most_le-unfolded};

    ghost size = { unfolded };

    ghost size_decreases = { λ a h.
        omega (arith, most_le-unfolded a.node.value.kind a.node.value.bits a.node.value.children.items) };
}

impl Cell {
    #[tactic(auto, using(crate::proofs::Parts::parts))]
    pub fn kind(&self) -> Kind
        ensures { result ≡ (out-Tree self.now).kind }
    {
        self.node.kind
    }

    #[tactic(auto, using(crate::proofs::Parts::parts))]
    pub fn bits(&self) -> BitSlice<'_>
        ensures { result ≡ (out-Tree self.now).bits }
    {
        self.node.bits.slice()
    }

    pub fn mask(&self) -> u8
        ensures value { result ≡ mask self.now }
        ensures bound { result ≤ 7 }
    {
        self.node.mask
    }

    /// The place of the mask's highest set bit, from 1 to 3, or 0 for the mask 0.
    pub fn level(&self) -> u32
        ensures value { result ≡ level_of (mask self.now) }
        ensures bound { result ≤ 3 }
    {
        let mask = self.mask();
        if has_next(mask, 2) {
            3
        } else if has_next(mask, 1) {
            2
        } else if has_next(mask, 0) {
            1
        } else {
            0
        }
    }

    /// The depth and the hash at level `i`.
    pub(crate) fn mark(&self, i: u32) -> ChildMark
        requires { i ≤ 3 }
        ensures { result ≡ mark_at i (marks self.now) }
    {
        let place = set_bits(i, self.node.mask);
        if place == 0 {
            self.node.lowest
        } else {
            self.node.above[place as usize - 1]
        }
    }

    /// The depth at level `i`.
    pub fn depth(&self, i: u32) -> u16
        requires { i ≤ 3 }
        ensures value { result ≡ depth self.now i }
        ensures bound { result ≤ 1024 }
    {
        self.good();
        self.mark(i).depth
    }

    /// The hash at level `i`.
    pub fn hash(&self, i: u32) -> [u8; 32]
        requires { i ≤ 3 }
        ensures { result ≡ hash self.now i }
    {
        self.mark(i).hash
    }

    /// How many references there are.
    #[tactic(auto, using(crate::proofs::Parts::parts))]
    pub fn refs(&self) -> u32
        ensures value { result ≡ length (out-Tree self.now).children }
        ensures bound { result ≤ 4 }
    {
        self.node.children.len() as u32
    }

    /// Reference `i`. `None` where there is none.
    #[tactic(auto, using(crate::proofs::Parts::parts))]
    pub fn child(&self, i: u32) -> Option<&Cell>
        ensures { option_copied result ≡ slice_get (out-Tree self.now).children i }
    {
        at(self.node.children.as_slice(), i as usize)
    }

    /// The number of cells of the unfolded tree, or 262,145 where there are more.
    pub fn unfolded(&self) -> u32
        ensures value { result ≡ capped (unfolded self.now) }
        ensures bound { result ≤ 262145 }
    {
        self.node.unfolded
    }

    /// All bits and references.
    #[tactic(auto, using(crate::proofs::Parts::parts))]
    pub fn content(&self) -> CellSlice<'_>
        ensures bits { result.bits ≡ (out-Tree self.now).bits }
        ensures refs { result.refs ≡ (out-Tree self.now).children }
    {
        CellSlice {
            bits: self.node.bits.slice(),
            refs: RefSlice::of(self.node.children.as_slice()),
        }
    }

    /// What a pruned branch stores, where its mask is 1.
    fn hidden_part(&self) -> Option<Hidden>
        requires { (out-Tree self.now).kind ≡ PrunedKind }
        ensures { result ≡ hidden self.now }
    {
        if self.node.mask != 1 {
            return None;
        }
        Some(Hidden {
            hash: self.node.lowest.hash,
            depth: self.node.lowest.depth,
        })
    }

    /// What a pruned branch of mask 1 stores. `None` for every other cell.
    pub fn hidden(&self) -> Option<Hidden>
        ensures { result ≡ hidden self.now }
    {
        match self.node.kind {
            Kind::Ordinary => None,
            Kind::Pruned => self.hidden_part(),
            Kind::Library => None,
            Kind::Proof => None,
            Kind::Update => None,
        }
    }

    /// The same cell once more. `NoMemory` where the count of its holders is at its end.
    pub fn share(&self) -> Result<Cell, NoMemory>
        ensures { IfOk result (λ c. c ≡ self.now) }
    {
        let node = self.node.clone()?;
        Ok(Cell { node })
    }

    /// A law: the tree of a cell is good.
    pub fn good(&self)
        ensures { IsGood self.now }
    {
        let _ = &self.node;
    }

    /// The mask that the cell of that kind, with these bits and children, has once it is made.
    pub fn mask_of(kind: Kind, bits: BitSlice<'_>, children: &[Cell]) -> u8
        requires { IsTrue (has_layout kind bits (length children.now)) }
        ensures value { result ≡ mask (tree_of kind bits.entry children.now) }
        ensures bound { result ≤ 7 }
    {
        node_mask(kind, bits, children)
    }

    /// An ordinary cell. It shares the children.
    pub fn ordinary(alloc: Global, bits: BitString, children: &[Cell]) -> Result<Cell, CellError>
        requires few { length children.now ≤ 4 }
        ensures made { IfOk result (λ c. c ≡ tree_of Ordinary bits children.now) }
        ensures shallow { OnOk result (IsShallow (tree_of Ordinary bits children.now)) }
        ensures too_deep { IsErrOf result CellError.TooDeep ↔ (1024 < deepest (tree_of Ordinary bits children.now)) }
        ensures no_layout { ¬ IsErrOf result CellError.BadExotic }
    {
        Cell::of_kind(alloc, Kind::Ordinary, bits, children)
    }

    /// The exotic cell that the first 8 bits name. It shares the children.
    pub fn exotic(alloc: Global, bits: BitString, children: &[Cell]) -> Result<Cell, CellError>
        ensures made { IfOk result
            (λ c. IfSome (exotic_kind bits (length children.now)) (λ kind. c ≡ tree_of kind bits children.now)) }
        ensures shallow { OnOk result
            (IfSome (exotic_kind bits (length children.now)) (λ kind. IsShallow (tree_of kind bits children.now))) }
        ensures bad_exotic { IsErrOf result CellError.BadExotic ↔ exotic_kind bits (length children.now) ≡ None }
        ensures too_deep { IsErrOf result CellError.TooDeep
            ↔ MatchOption (exotic_kind bits (length children.now)) ⊥
            (λ kind. 1024 < deepest (tree_of kind bits children.now)) }
    {
        if children.len() > 4 {
            return Err(CellError::BadExotic);
        }
        match exotic_kind(bits.slice(), children.len() as u32) {
            None => Err(CellError::BadExotic),
            Some(kind) => Cell::of_kind(alloc, kind, bits, children),
        }
    }

    /// The cell of that kind, for bits and children that have its layout. It shares the children.
    pub fn of_kind(
        alloc: Global,
        kind: Kind,
        bits: BitString,
        children: &[Cell],
    ) -> Result<Cell, CellError>
        requires few { length children.now ≤ 4 }
        requires layout { IsTrue (has_layout kind bits (length children.now)) }
        ensures made { IfOk result (λ c. c ≡ tree_of kind bits children.now) }
        ensures shallow { OnOk result (IsShallow (tree_of kind bits children.now)) }
        ensures too_deep { IsErrOf result CellError.TooDeep ↔ (1024 < deepest (tree_of kind bits children.now)) }
        ensures no_layout { ¬ IsErrOf result CellError.BadExotic }
    {
        let mask = node_mask(kind, bits.slice(), children);
        let depths = node_depths(kind, bits.slice(), mask, children);
        if depths[0].max(depths[1]).max(depths[2]).max(depths[3]) > DEEPEST {
            return Err(CellError::TooDeep);
        }
        let cell = Cell::of_parts(alloc, kind, bits, children, mask, depths)?;
        Ok(cell)
    }

    /// The cell of that kind, for bits and children that have its layout and stay within the greatest depth.
    pub(crate) fn of_shallow(
        alloc: Global,
        kind: Kind,
        bits: BitString,
        children: &[Cell],
    ) -> Result<Cell, NoMemory>
        requires few { length children.now ≤ 4 }
        requires layout { IsTrue (has_layout kind bits (length children.now)) }
        requires shallow { IsShallow (tree_of kind bits children.now) }
        ensures { IfOk result (λ c. c ≡ tree_of kind bits children.now) }
    {
        let mask = node_mask(kind, bits.slice(), children);
        let depths = node_depths(kind, bits.slice(), mask, children);
        Cell::of_parts(alloc, kind, bits, children, mask, depths)
    }

    /// The cell of that kind, from its mask and its depths.
    fn of_parts(
        alloc: Global,
        kind: Kind,
        bits: BitString,
        children: &[Cell],
        mask: u8,
        depths: [u16; 4],
    ) -> Result<Cell, NoMemory>
        requires few { length children.now ≤ 4 }
        requires layout { IsTrue (has_layout kind bits (length children.now)) }
        requires mask { mask ≡ mask_of kind bits (map marks children.now) }
        requires low { mask < 2 ^ (3 - shift kind) }
        requires depths { depths ≡ map (depth_of kind bits (map marks children.now)) levels }
        requires shallow { IsShallow (tree_of kind bits children.now) }
        ensures { IfOk result (λ c. c ≡ tree_of kind bits children.now) }
    {
        all_good(children);
        let _count = bits.slice().len();
        let unfolded = unfolded_over(children);
        let (lowest, above) = node_marks(alloc, kind, bits.slice(), mask, depths, children)?;
        let children = share_all(alloc, children)?;
        let node = Node {
            kind,
            bits,
            children,
            mask,
            lowest,
            above,
            unfolded,
        };
        match Rc::new(alloc, node) {
            Ok(node) => Ok(Cell { node }),
            Err(_) => Err(NoMemory),
        }
    }
}
