//! Reads the bag of a file, writes the bag of the tree that it holds, reads that one, and prints a line
//! `LEVEL HASH DEPTH` for each level of the root cell. The last word is the name of the file.
#![tactic(auto)]

ghost use Rattle.std.specs.Prelude.{◌≤◌};
ghost use Rattle.bag_cells.specs.Bag.{BagHolds, BagRefused, IfAnswered};

use bag_cells::{BagError, read_bag, write_bag};
use cell_nodes::Cell;
use cell_pool::Pool;
use std::alloc::Global;
use std::{env, fs, io};

// The cell that a file holds, read from the bag that is written for it.
fn read_again(alloc: Global, file: &[u8]) -> Result<Cell, BagError>
    ensures { IfAnswered result (λ c. BagHolds file.now c) (λ e. BagRefused file.now e) }
{
    let cell = read_bag(alloc, file)?;
    let mut pool = Pool::new(alloc)?;
    let root = pool.intern(&cell)?;
    let bag = write_bag(alloc, &pool, root)?;
    read_bag(alloc, bag.as_slice())
}

fn main(rt: HostRuntime) -> io::Result<()> {
    let words: Vec<String> = env::args(&rt)?.collect(rt.alloc())?;
    let Some(name) = words.as_slice().last() else {
        return Ok(());
    };
    let file = fs::read(&rt, name.as_str())?;
    let Ok(cell) = read_again(rt.alloc(), file.as_slice()) else {
        return println!(rt; "refused");
    };
    for level in 0..cell.level() + 1 {
        print!(rt; "{level} ")?;
        for byte in cell.hash(level) {
            print!(rt; "{byte:02x}")?;
        }
        println!(rt; " {}", cell.depth(level))?;
    }
    Ok(())
}
