//! What is left of a cell, borrowed.
ghost use Rattle.std.specs.Prelude.{◌≡◌, ◌≤◌, [], ◌∷◌, length, MatchOption};
ghost use Rattle.cell_nodes.specs.Good.{AllGood};

use crate::cell::Cell;
use crate::children::all_good;
use bit_slice::BitSlice;
use std::marker::Model;

/// At most four borrowed references, seen as a list of trees.
#[derive(Drop)]
pub struct RefSlice<'a> {
    refs: &'a [Cell],
}

impl<'a> Model for RefSlice<'a> {
    ghost use Rattle.std.specs.Prelude.{List, ◌≤◌, length};
    ghost use Rattle.cell_nodes.specs.declared.tree.Tree.{Tree};

    ghost Value = { List Tree };

    ghost use Rattle.cell_nodes.specs.contracts.tree.Tree as tree_type;
    ghost use Rattle.std.specs.Coded.{codes, coded_list};

    ghost coded = { coded_list (Prim.hlevel (codes, tree_type.the_row.coded)) };

    ghost view = { λ s. s.refs.now };

    ghost invariant = { λ s. length s.refs.now ≤ 4 };
}

impl<'a> RefSlice<'a> {
    pub(crate) fn of(refs: &'a [Cell]) -> RefSlice<'a>
        requires { length refs.now ≤ 4 }
        ensures { result ≡ refs.now }
    {
        RefSlice { refs }
    }

    /// The same references once more.
    pub fn again(&self) -> RefSlice<'a>
        ensures { result ≡ self.now }
    {
        RefSlice { refs: self.refs }
    }

    /// How many references there are.
    pub fn len(&self) -> u32
        ensures value { result ≡ length self.now }
        ensures bound { result ≤ 4 }
    {
        self.refs.len() as u32
    }

    /// The first reference and the rest. `None` where there is none.
    pub fn first(&self) -> Option<(&'a Cell, RefSlice<'a>)>
        ensures { MatchOption result (self.now ≡ []) (λ p. self.now ≡ p.0.now ∷ p.1) }
    {
        match self.refs.split_first() {
            None => None,
            Some((first, rest)) => Some((first, RefSlice { refs: rest })),
        }
    }

    /// A law: the tree of each reference is good.
    pub fn good(&self)
        ensures { AllGood self.now }
    {
        all_good(self.refs);
    }
}

/// The bits and the references of a cell, or those that are left of it.
#[derive(Drop)]
pub struct CellSlice<'a> {
    pub bits: BitSlice<'a>,
    pub refs: RefSlice<'a>,
}
