//! A cell that is built from its bits and references.
ghost use Rattle.std.specs.Prelude.{◌≡◌, ◌≢◌, ◌≤◌, ◌<◌, ◌+◌, ◌^◌, ◌++◌, ◌∷◌, [], ◌↔◌, length, IfOk, OnOk};
ghost use Rattle.std.specs.Prelude.{OnErr};
ghost use Rattle.std.specs.Prelude.{IsErrOf, vec_capacity};
ghost use Rattle.bit_slice.specs.Bits.{spelled, InSignedRange, signed_spelled};
ghost use Rattle.cell_nodes.specs.declared.tree.Kind.TheVariants.{Ordinary};
ghost use Rattle.cell_nodes.specs.Good.{AllGood};
ghost use Rattle.cell_nodes.specs.HeldLaws.{AreBelow};
ghost use Rattle.cell_nodes.specs.Tree.{deepest, tree_of};

use crate::cell::{Cell, DEEPEST};
use crate::children::all_good;
use crate::slice::{CellSlice, RefSlice};
use crate::tree::Kind;
use bit_slice::{BitSlice, BitWriter};
use std::alloc::{AllocError, Global};
use std::marker::Model;
use tlb_memory::NoMemory;

/// Why a push was refused.
#[derive(Clone, Copy, Debug, PartialEq, Eq)]
pub enum PushError {
    /// More than 1023 bits, or a fifth reference.
    Full,
    /// The child has the greatest depth at some level.
    TooDeep,
}

/// Bits and references, with room for all that a cell holds. A refused push changes nothing.
#[derive(Drop)]
pub struct CellBuilder {
    writer: BitWriter,
    refs: Vec<Cell>,
}

impl Model for CellBuilder {
    ghost use Rattle.cell_nodes.specs.Held.{Held};

    ghost Value = { Held };

    ghost use Rattle.cell_nodes.specs.contracts.tree.Tree as tree_type;
    ghost use Rattle.std.specs.Coded.{codes};

    ghost coded = { Prim.hlevel (codes, tree_type.the_row.coded) };

    ghost use Rattle.std.specs.Prelude.{vec_capacity};
    ghost use Rattle.cell_nodes.specs.HeldLaws.{IsRoomy};

    ghost view = { λ b. record { bits = b.writer; refs = b.refs.items } };

    ghost invariant = { λ b. IsRoomy b.refs.items (vec_capacity b.refs) };
}

/// The greatest depth of the cell at any level.
fn deepest(cell: &Cell) -> u16
    ensures value { result ≡ deepest cell.now }
    ensures bound { result ≤ 1024 }
{
    cell.depth(0)
        .max(cell.depth(1))
        .max(cell.depth(2))
        .max(cell.depth(3))
}

/// Adds the cell, for which there is room.
fn push_cell(refs: &mut Vec<Cell>, cell: Cell)
    requires { length refs.old.items < vec_capacity refs.old }
    ensures items { refs.new.items ≡ refs.old.items ++ cell ∷ [] }
    ensures room { vec_capacity refs.old ≤ vec_capacity refs.new }
{
    let _ = refs.push(cell);
}

impl CellBuilder {
    /// Takes the room for all bits and references. Pushes take no memory.
    pub fn new(alloc: Global) -> Result<CellBuilder, NoMemory>
        ensures { IfOk result (λ b. (b.bits ≡ []) × (b.refs ≡ [])) }
    {
        let writer = BitWriter::new(alloc)?;
        let refs = Vec::with_capacity(alloc, 4)?;
        Ok(CellBuilder { writer, refs })
    }

    /// Adds the bits of `s`.
    pub fn push_bits(&mut self, s: BitSlice<'_>) -> Result<(), PushError>
        ensures ok { OnOk result ((self.new.bits ≡ self.old.bits ++ s.entry) × (self.new.refs ≡ self.old.refs)) }
        ensures err { OnErr result (self.new ≡ self.old) }
        ensures full { IsErrOf result PushError.Full ↔ (1023 < length self.old.bits + length s.entry) }
        ensures not_deep { ¬ IsErrOf result PushError.TooDeep }
    {
        match self.writer.push_bits(s) {
            Ok(()) => Ok(()),
            Err(_) => Err(PushError::Full),
        }
    }

    /// Adds the lowest `n` bits of `value`, the most significant first.
    pub fn push_number(&mut self, value: u128, n: u32) -> Result<(), PushError>
        requires wide { n ≤ 128 }
        requires fits { value < 2 ^ n }
        ensures ok { OnOk result
            ((self.new.bits ≡ self.old.bits ++ spelled n value) × (self.new.refs ≡ self.old.refs)) }
        ensures err { OnErr result (self.new ≡ self.old) }
        ensures full { IsErrOf result PushError.Full ↔ (1023 < length self.old.bits + n) }
        ensures not_deep { ¬ IsErrOf result PushError.TooDeep }
    {
        match self.writer.push_number(value, n) {
            Ok(()) => Ok(()),
            Err(_) => Err(PushError::Full),
        }
    }

    /// Adds the `n` bits of `value` in two's complement.
    pub fn push_signed(&mut self, value: i128, n: u32) -> Result<(), PushError>
        requires wide { n ≤ 128 }
        requires range { InSignedRange n value }
        ensures ok { OnOk result
            ((self.new.bits ≡ self.old.bits ++ signed_spelled n value) × (self.new.refs ≡ self.old.refs)) }
        ensures err { OnErr result (self.new ≡ self.old) }
        ensures full { IsErrOf result PushError.Full ↔ (1023 < length self.old.bits + n) }
        ensures not_deep { ¬ IsErrOf result PushError.TooDeep }
    {
        match self.writer.push_signed(value, n) {
            Ok(()) => Ok(()),
            Err(_) => Err(PushError::Full),
        }
    }

    /// Adds a reference. A refused child is dropped.
    pub fn push_ref(&mut self, child: Cell) -> Result<(), PushError>
        ensures ok { OnOk result ((self.new.bits ≡ self.old.bits) × (self.new.refs ≡ self.old.refs ++ child ∷ [])) }
        ensures err { OnErr result (self.new ≡ self.old) }
        ensures full { IsErrOf result PushError.Full ↔ (length self.old.refs ≡ 4) }
        ensures too_deep { IsErrOf result PushError.TooDeep ↔ ((length self.old.refs < 4) × (deepest child ≡ 1024)) }
    {
        if self.refs.len() == 4 {
            return Err(PushError::Full);
        }
        if deepest(&child) == DEEPEST {
            return Err(PushError::TooDeep);
        }
        push_cell(&mut self.refs, child);
        Ok(())
    }

    /// All bits and references so far.
    pub fn content(&self) -> CellSlice<'_>
        ensures bits { result.bits ≡ self.now.bits }
        ensures refs { result.refs ≡ self.now.refs }
    {
        CellSlice {
            bits: self.writer.slice(),
            refs: RefSlice::of(self.refs.as_slice()),
        }
    }

    /// A law: what is held is within the limits of an ordinary cell.
    pub fn within(&self)
        ensures short { length self.now.bits ≤ 1023 }
        ensures few { length self.now.refs ≤ 4 }
        ensures good { AllGood self.now.refs }
        ensures below { AreBelow self.now.refs }
    {
        let _length = self.writer.len();
        all_good(self.refs.as_slice());
    }

    /// The ordinary cell.
    pub fn finish(self, alloc: Global) -> Result<Cell, NoMemory>
        ensures { IfOk result (λ c. c ≡ tree_of Ordinary self.bits self.refs) }
    {
        let CellBuilder { writer, refs } = self;
        Cell::of_shallow(alloc, Kind::Ordinary, writer.finish(), refs.as_slice())
    }
}
