//! The constructors of exotic cells.
ghost use Rattle.std.specs.Prelude.{◌≡◌, ◌≤◌, ◌<◌, ◌-◌, ◌+◌, ◌%◌, ◌^◌, ◌↔◌, map, IfOk, OnOk, IsErrOf};
ghost use Rattle.cell_nodes.specs.Constructed.{library_of, proof_of, pruned_of, stub, update_of};
ghost use Rattle.cell_nodes.specs.Levels.{levels_in};
ghost use Rattle.cell_nodes.specs.Tree.{deepest, mark_at, marks, mask, IsShallow};

use crate::cell::{Cell, CellError, DEEPEST};
use crate::data::{library_data, proof_data, pruned_data, update_data};
use crate::marks::{has_next, low_bits, push_mark};
use crate::tree::Kind;
use cell_hash::ChildMark;
use std::alloc::Global;
use tlb_memory::NoMemory;

/// The hashes and the depths at level 0 and at the levels up to `level` that the mask has.
fn marks_within(alloc: Global, cell: &Cell, level: u32) -> Result<Vec<ChildMark>, NoMemory>
    requires { level ≤ 2 }
    ensures { IfOk result (λ v. v.items ≡ map (λ j. mark_at j (marks cell.now)) (levels_in level (mask cell.now))) }
{
    let mut found = Vec::new(alloc);
    push_mark(&mut found, cell.mark(0))?;
    'levels: for i in 0..level {
        add_level(&mut found, cell, i)?;
    }
    Ok(found)
}

/// Adds the hash and the depth at the level after level `i`, where the mask has it.
fn add_level(found: &mut Vec<ChildMark>, cell: &Cell, i: u32) -> Result<(), NoMemory>
    requires level { i ≤ 2 }
    requires before { found.old.items ≡ map (λ j. mark_at j (marks cell.now)) (levels_in i (mask cell.now)) }
    ensures { OnOk result
        (found.new.items ≡ map (λ j. mark_at j (marks cell.now)) (levels_in (i + 1) (mask cell.now))) }
{
    let mask = cell.mask();
    if !has_next(mask, i) {
        return Ok(());
    }
    push_mark(found, cell.mark(i + 1))
}

/// The mask of the pruned branch that stands for a cell of that mask below so many proofs.
fn stub_mask(mask: u8, level: u32) -> u8
    requires { level ≤ 2 }
    ensures { result ≡ mask % 2 ^ level + 2 ^ level }
{
    low_bits(mask, level) + (1u8 << level)
}

impl Cell {
    /// The pruned branch of mask 1 with that hash and depth.
    pub fn pruned(alloc: Global, hash: &[u8; 32], depth: u16) -> Result<Cell, CellError>
        ensures made { IfOk result (λ c. c ≡ pruned_of hash.now depth) }
        ensures too_deep { IsErrOf result CellError.TooDeep ↔ (1024 < depth) }
        ensures no_layout { ¬ IsErrOf result CellError.BadExotic }
    {
        if depth > DEEPEST {
            return Err(CellError::TooDeep);
        }
        let pair = ChildMark { depth, hash: *hash };
        let bits = pruned_data(alloc, 1, &[pair])?;
        let cell = Cell::of_shallow(alloc, Kind::Pruned, bits, &[])?;
        Ok(cell)
    }

    /// The library cell with that hash.
    pub fn library(alloc: Global, hash: &[u8; 32]) -> Result<Cell, NoMemory>
        ensures { IfOk result (λ c. c ≡ library_of hash.now) }
    {
        let bits = library_data(alloc, hash)?;
        Cell::of_shallow(alloc, Kind::Library, bits, &[])
    }

    /// The Merkle proof over the child, whose hash and depth at level 0 it stores. It shares the child.
    pub fn proof(alloc: Global, child: &Cell) -> Result<Cell, CellError>
        ensures made { IfOk result (λ c. c ≡ proof_of child.now) }
        ensures shallow { OnOk result (IsShallow (proof_of child.now)) }
        ensures too_deep { IsErrOf result CellError.TooDeep → 1024 < deepest (proof_of child.now) }
        ensures no_layout { ¬ IsErrOf result CellError.BadExotic }
    {
        let bits = proof_data(alloc, &child.mark(0))?;
        Cell::of_kind(alloc, Kind::Proof, bits, &[child.share()?])
    }

    /// The Merkle update from the old cell to the new one, whose hashes and depths at level 0 it stores. It shares
    /// both.
    pub fn update(alloc: Global, old: &Cell, new: &Cell) -> Result<Cell, CellError>
        ensures made { IfOk result (λ c. c ≡ update_of old.now new.now) }
        ensures shallow { OnOk result (IsShallow (update_of old.now new.now)) }
        ensures too_deep { IsErrOf result CellError.TooDeep → 1024 < deepest (update_of old.now new.now) }
        ensures no_layout { ¬ IsErrOf result CellError.BadExotic }
    {
        let bits = update_data(alloc, &old.mark(0), &new.mark(0))?;
        Cell::of_kind(alloc, Kind::Update, bits, &[old.share()?, new.share()?])
    }

    /// The pruned branch that stands for a cell below `level - 1` proofs: its mask is of that level.
    pub fn pruned_at(alloc: Global, of: &Cell, level: u32) -> Result<Cell, NoMemory>
        requires some { 1 ≤ level }
        requires within { level ≤ 3 }
        ensures { IfOk result (λ c. c ≡ stub of.now (level - 1)) }
    {
        of.good();
        let pairs = marks_within(alloc, of, level - 1)?;
        let mask = stub_mask(of.mask(), level - 1);
        let bits = pruned_data(alloc, mask, pairs.as_slice())?;
        Cell::of_shallow(alloc, Kind::Pruned, bits, &[])
    }
}
