//! The references that a cell is left with.
ghost use Rattle.std.specs.Prelude.{◌≡◌, ◌≢◌, ◌∷◌, ◌++◌, ◌<◌, ◌⊎◌, [], IfOk, IsErrOf, OnOk, length};
ghost use Rattle.cell_nodes.specs.Constructed.{stub};
ghost use Rattle.cell_nodes.specs.Tree.{deepest};
ghost use Rattle.cell_nodes.specs.declared.tree.Tree.{out-Tree};
ghost use Rattle.pruning.specs.Cut.{cell_with};

use bit_slice::BitString;
use cell_nodes::{Cell, CellError, RefSlice};
use sqlite_items::Items;
use std::alloc::{AllocError, Global};
use tlb_memory::NoMemory;

/// Why a value's references are not found.
#[derive(Clone, Copy, Debug, PartialEq, Eq)]
pub(crate) enum CutError {
    /// The value is no reading of the cell.
    Unread,
    NoMemory,
}

impl From<NoMemory> for CutError {
    ghost use Rattle.std.specs.Prelude.{◌≡◌};
    ghost use Rattle.pruned_proof.specs.declared.cutting.CutError.TheVariants as errors;

    ghost from_gives = { λ _ e. e ≡ errors.NoMemory };

    fn from(_: NoMemory) -> CutError {
        CutError::NoMemory
    }
}

impl From<AllocError> for CutError {
    ghost use Rattle.std.specs.Prelude.{◌≡◌};
    ghost use Rattle.pruned_proof.specs.declared.cutting.CutError.TheVariants as errors;

    ghost from_gives = { λ _ e. e ≡ errors.NoMemory };

    fn from(_: AllocError) -> CutError {
        CutError::NoMemory
    }
}

/// The outputs of a value, most often none or its own number.
#[derive(Drop)]
pub(crate) enum Outputs {
    Empty,
    One(u32),
    Several(Items<u32>),
}

/// The references of a cell that no value has taken yet, and what stands in the place of the others.
#[derive(Drop)]
pub(crate) struct Cutting<'a> {
    left: RefSlice<'a>,
    made: Vec<Cell>,
}

impl<'a> Cutting<'a> {
    pub(crate) fn of(alloc: Global, cell: &'a Cell) -> Cutting<'a>
        ensures left { result.left ≡ (out-Tree cell.entry.now).children }
        ensures made { result.made.items ≡ [] }
    {
        Cutting {
            left: cell.content().refs,
            made: Vec::new(alloc),
        }
    }

    /// Takes the next reference.
    pub(crate) fn next(&mut self) -> Result<&'a Cell, CutError>
        ensures ok { IfOk result (λ c. self.old.left ≡ c.now ∷ self.new.left) }
        ensures made { self.new.made.items ≡ self.old.made.items }
        ensures none { IsErrOf result CutError.Unread → self.old.left ≡ [] }
    {
        match self.left.first() {
            None => Err(CutError::Unread),
            Some((cell, left)) => {
                self.left = left;
                Ok(cell)
            }
        }
    }

    /// Puts a cell in the place of the reference that was taken.
    pub(crate) fn put(&mut self, cell: Cell) -> Result<(), CutError>
        ensures ok { OnOk result (self.new.made.items ≡ self.old.made.items ++ cell ∷ []) }
        ensures left { self.new.left ≡ self.old.left }
        ensures err { ¬ IsErrOf result CutError.Unread }
    {
        self.made.push(cell).map_err(AllocError::from)?;
        Ok(())
    }

    /// Leaves the cell in its place.
    pub(crate) fn keep(&mut self, cell: &Cell) -> Result<(), CutError>
        ensures ok { OnOk result (self.new.made.items ≡ self.old.made.items ++ cell.now ∷ []) }
        ensures left { self.new.left ≡ self.old.left }
        ensures err { ¬ IsErrOf result CutError.Unread }
    {
        self.put(cell.share()?)
    }

    /// Puts the pruned branch that stands for the cell in its place.
    pub(crate) fn hide(&mut self, alloc: Global, cell: &Cell) -> Result<(), CutError>
        ensures ok { OnOk result (self.new.made.items ≡ self.old.made.items ++ stub cell.now 0 ∷ []) }
        ensures left { self.new.left ≡ self.old.left }
        ensures err { ¬ IsErrOf result CutError.Unread }
    {
        self.put(Cell::pruned_at(alloc, cell, 1)?)
    }

    /// Leaves all references in their place.
    pub(crate) fn keep_all(&mut self) -> Result<(), CutError>
        ensures ok { OnOk result
            ((self.new.left ≡ []) × (self.new.made.items ≡ self.old.made.items ++ self.old.left)) }
        ensures err { ¬ IsErrOf result CutError.Unread }
    {
        'refs: while let Some((cell, left)) = self.left.first() {
            self.keep(cell)?;
            self.left = left;
        }
        Ok(())
    }

    /// The ordinary cell with the bits of this one, where all references are taken.
    pub(crate) fn finish(self, alloc: Global, cell: &Cell) -> Result<Cell, CutError>
        ensures ok { IfOk result (λ c. (self.entry.left ≡ []) × (c ≡ cell_with cell.now self.entry.made.items)) }
        ensures unread { IsErrOf result CutError.Unread
            → (self.entry.left ≢ []) ⊎ (4 < length self.entry.made.items)
            ⊎ (1024 < deepest (cell_with cell.now self.entry.made.items)) }
    {
        let Cutting { left, made } = self;
        if left.len() != 0 || made.len() > 4 {
            return Err(CutError::Unread);
        }
        let bits = BitString::from_slice(alloc, cell.bits())?;
        match Cell::ordinary(alloc, bits, made.as_slice()) {
            Ok(cell) => Ok(cell),
            Err(CellError::NoMemory) => Err(CutError::NoMemory),
            Err(CellError::TooDeep) | Err(CellError::BadExotic) => Err(CutError::Unread),
        }
    }
}
