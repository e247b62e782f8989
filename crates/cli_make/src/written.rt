//! The written bag of a cell.
ghost use Rattle.std.specs.Prelude.{◌≡◌, ◌≤◌, IfOk};
ghost use Rattle.cell_nodes.specs.Tree.{unfolded};
ghost use Rattle.cli_make.specs.View.{IsWritten};

use bag_cells::write_bag;
use cell_nodes::Cell;
use cell_pool::Pool;
use std::alloc::Global;
use tlb_memory::NoMemory;

/// A cell, its bag, and how many distinct cells the bag lists.
#[derive(Drop)]
pub(crate) struct Written {
    pub cell: Cell,
    pub cells: u32,
    pub bag: Vec<u8>,
}

/// Writes the bag of a cell.
pub(crate) fn write(alloc: Global, cell: Cell) -> Result<Written, NoMemory>
    requires { unfolded cell ≤ 262144 }
    ensures written { IfOk result IsWritten }
    ensures cell { IfOk result (λ w. w.cell ≡ cell) }
{
    let mut pool = Pool::new(alloc)?;
    let root = pool.intern(&cell)?;
    let cells = pool.count();
    let bag = write_bag(alloc, &pool, root)?;
    Ok(Written { cell, cells, bag })
}
