//! The stage of a bag.
ghost use Rattle.std.specs.Prelude.{◌≡◌, ◌≢◌, false};
ghost use Rattle.cli_stages.specs.Bag.{Bag};
ghost use Rattle.cli_stages.specs.Stage.{Answers};

use crate::Stop;
use bag_cells::{BagError, read_bag};
use cell_nodes::Cell;
use cli_refusals::Refusal;
use std::alloc::Global;

fn is_no_memory(error: BagError) -> bool
    ensures { result ≡ false → error ≢ BagError.NoMemory }
{
    match error {
        BagError::NoMemory => true,
        _ => false,
    }
}

/// The tree that the file holds.
pub fn bag(alloc: Global, file: &[u8]) -> Result<Cell, Stop>
    ensures { Answers (Bag file.now) (λ tree. tree) result }
{
    match read_bag(alloc, file) {
        Ok(tree) => Ok(tree),
        Err(error) if is_no_memory(error) => Err(Stop::NoMemory),
        Err(error) => Err(Stop::Refused(Refusal::Bag(error))),
    }
}
