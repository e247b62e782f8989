//! `hash BAG`
ghost use Rattle.std.specs.Prelude.{◌≡◌, ◌≤◌, IfOk};
ghost use Rattle.cell_nodes.specs.Levels.{level_of};
ghost use Rattle.cell_nodes.specs.Tree.{mask};
ghost use Rattle.cli_stages.specs.Stage.{Answers};
ghost use Rattle.cli_commands.specs.Hash.{Hashes, level_line, level_lines};
ghost use Rattle.cli_commands.specs.View.{text_by};

use cell_nodes::Cell;
use cli_stages::Stop;
use cli_stages::bag::bag;
use std::alloc::Global;
use tlb_memory::NoMemory;

// The line of one level: its number, the hash and the depth.
fn level_line(alloc: Global, cell: &Cell, level: u32) -> Result<Vec<u8>, NoMemory>
    requires { level ≤ 3 }
    ensures { IfOk result (λ text. text.items ≡ level_line cell.now level) }
{
    let hash = hex::encode(alloc, cell.hash(level))?;
    let depth = cell.depth(level);
    let line = format!(in alloc; "{level} {hash} {depth}\n")?;
    Ok(line.into_bytes())
}

// The lines of a cell's levels, from 0 to its own.
fn level_lines(alloc: Global, cell: &Cell) -> Result<Vec<u8>, NoMemory>
    ensures { IfOk result (λ text. text.items ≡ level_lines cell.now (level_of (mask cell.now))) }
{
    let mut lines = level_line(alloc, cell, 0)?;
    'levels: for level in 0..cell.level() {
        lines.extend_from_slice(&level_line(alloc, cell, level + 1)?)?;
    }
    Ok(lines)
}

/// The hash and the depth of the bag's root, a line for each level.
pub fn hash(alloc: Global, file: &[u8]) -> Result<Vec<u8>, Stop>
    ensures { Answers (Hashes file.now) text_by result }
{
    let root = bag(alloc, file)?;
    let text = level_lines(alloc, &root)?;
    Ok(text)
}
