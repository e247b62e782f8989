//! Why a file holds no bag of cells.
use std::alloc::AllocError;
use tlb_memory::NoMemory;

/// Why a file is no bag of cells that is accepted. Places and lengths count bytes from 0, of the text in the
/// hexadecimal form and of the raw bytes elsewhere. Cells are named by their numbers in the bag, from 0.
#[derive(Clone, Copy, Debug, PartialEq, Eq)]
pub enum BagError {
    /// The text has an odd number of bytes, which is reported, or its byte at the place is no digit.
    BadHex(u64),
    /// The text is no padded standard base64.
    BadBase64,
    /// The file doesn't begin as a bag in one of the three forms.
    BadMagic,
    /// The bytes, of that length, end early.
    Truncated(u64),
    /// The field of the header at the place has a wrong value.
    BadHeader(u64),
    /// There are so many cells, more than 262,144.
    TooManyCells(u64),
    /// There are so many roots, more than 1.
    ManyRoots(u64),
    /// So many cells are absent.
    AbsentCells(u64),
    /// The bag ends at the place, and bytes follow.
    Trailing(u64),
    /// The sum that is kept, and the sum of the bytes before it.
    BadSum(u32, u32),
    /// The cell stores hashes.
    StoredHashes(u64),
    /// The cell has more than 4 references, ends early, or has data that aren't completed.
    BadCell(u64),
    /// The cell refers to no later cell.
    BackReference(u64),
    /// The cell is exotic, and has the layout of no exotic cell.
    BadExotic(u64),
    /// The mask that is reported of the cell isn't its own.
    BadMask(u64),
    /// A depth of the cell is above 1024.
    TooDeep(u64),
    /// The unfolded tree of the root has more than 262,144 cells.
    Sprawl,
    NoMemory,
}

impl From<AllocError> for BagError {
    ghost use Rattle.std.specs.Prelude.{◌≡◌};
    ghost use Rattle.bag_cells.specs.declared.error.BagError.TheVariants as errors;

    ghost from_gives = { λ _ e. e ≡ errors.NoMemory };

    fn from(_: AllocError) -> BagError {
        BagError::NoMemory
    }
}

impl From<NoMemory> for BagError {
    ghost use Rattle.std.specs.Prelude.{◌≡◌};
    ghost use Rattle.bag_cells.specs.declared.error.BagError.TheVariants as errors;

    ghost from_gives = { λ _ e. e ≡ errors.NoMemory };

    fn from(_: NoMemory) -> BagError {
        BagError::NoMemory
    }
}
