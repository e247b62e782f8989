//! Bags of cells: the files in which trees of cells are kept. The format is that of the TON documentation, "Bag of
//! cells".
#![tactic(auto)]

ghost use Rattle.std.specs.Prelude.{◌≡◌, ◌≤◌, ℕ, List, slice_index, ⊤};
ghost use Rattle.cell_nodes.specs.declared.tree.Tree.{Tree};
ghost use Rattle.cell_nodes.specs.Tree.{unfolded};
ghost use Rattle.bag_cells.specs.Bag.{BagHolds, BagRefused, IfAnswered};
ghost use Rattle.bag_cells.specs.declared.error.BagError.{BagError as Refusal};

mod bytes;
mod cells;
mod error;
mod form;
mod header;
pub mod laws;
mod raw;
mod trees;
mod write;

use cell_nodes::Cell;
pub use error::BagError;
use form::{raw_of_base64, raw_of_hex, trimmed};
use raw::read_raw;
use std::alloc::Global;
pub use write::write_bag;

fn first_byte(file: &[u8]) -> u8
    ensures { result ≡ slice_index file.now 0 }
{
    if file.is_empty() { 0 } else { file[0] }
}

// The cell that a file holds, or the file's refusal.
fn read(alloc: Global, file: &[u8]) -> Result<Cell, BagError>
    ensures { IfAnswered result (λ c. BagHolds file.now c) (λ e. BagRefused file.now e) }
{
    let first = first_byte(file);
    if first == 0xb5 {
        return read_raw(alloc, file);
    }
    if first == b'b' || first == b'B' {
        let raw = raw_of_hex(alloc, trimmed(file))?;
        return read_raw(alloc, raw.as_slice());
    }
    if first == b't' {
        let raw = raw_of_base64(alloc, trimmed(file))?;
        return read_raw(alloc, raw.as_slice());
    }
    Err(BagError::BadMagic)
}

/// Reads the cell that a file holds as a bag of cells with one root: its raw bytes, their hexadecimal digits, or
/// their padded standard base64 (RFC 4648, section 4). White space at the end of the two texts is passed over. The
/// index and the cache bit are not read. Equal cells and cells that the root doesn't reach are accepted.
pub fn read_bag(alloc: Global, file: &[u8]) -> Result<Cell, BagError>
    // What is answered holds of the file.
    ensures holds { IfAnswered result (λ c. BagHolds file.now c) (λ e. BagRefused file.now e) }
    // The tree that the file holds is answered, unless out of memory.
    ensures tree { (t : Tree) → BagHolds file.now t → IfAnswered result (λ c. c ≡ t) (λ _. ⊥) }
    // The refusal of the file is answered, unless out of memory.
    ensures refused { (e : Refusal) → BagRefused file.now e → IfAnswered result (λ _. ⊥) (λ found. found ≡ e) }
    // The unfolded tree has at most 262,144 cells.
    ensures small { IfAnswered result (λ c. unfolded c ≤ 262144) (λ _. ⊤) }
{
    read(alloc, file)
}
