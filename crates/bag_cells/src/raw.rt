//! The reading of raw bytes.
ghost use Rattle.std.specs.Prelude.{◌≡◌, Some, None};
ghost use Rattle.bag_cells.specs.Trees.{sprawl_refusal};
ghost use Rattle.bag_cells.specs.Bag.{IfAnswered, refusal};
ghost use Rattle.bag_cells.specs.Known.{HasHeader, AreTrees, IsAccepted, IsRootTree};

use crate::cells::starts_of;
use crate::error::BagError;
use crate::header::{Header, header_of};
use crate::trees::cells_of;
use cell_nodes::Cell;
use std::alloc::Global;

// The root cell, where its unfolded tree isn't too large.
#[tactic(auto, unfolding(crate::specs::Trees::sprawl_refusal))]
fn root_cell(raw: &[u8], header: Header, cells: &[Cell]) -> Result<Cell, BagError>
    requires header { HasHeader raw.now header }
    requires trees { AreTrees raw.now cells.now }
    ensures { IfAnswered result (λ c. IsRootTree raw.now c) (λ e. sprawl_refusal raw.now ≡ Some e) }
{
    let _ = raw;
    let root = &cells[header.cells - 1 - header.root];
    if root.unfolded() > 262_144 {
        return Err(BagError::Sprawl);
    }
    let root = root.share()?;
    Ok(root)
}

/// The cell that the raw bytes of a bag hold.
pub(crate) fn read_raw(alloc: Global, raw: &[u8]) -> Result<Cell, BagError>
    ensures { IfAnswered result (λ c. IsAccepted raw.now c) (λ e. refusal raw.now ≡ Some e) }
{
    let header = header_of(raw)?;
    let starts = starts_of(alloc, raw, header)?;
    let cells = cells_of(alloc, raw, header, starts.as_slice())?;
    root_cell(raw, header, cells.as_slice())
}
