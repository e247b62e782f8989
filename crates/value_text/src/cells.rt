//! Cells that are written.
ghost use Rattle.std.specs.Prelude.{◌≡◌, ◌++◌, [], ◌∷◌, OnOk, map};
ghost use Rattle.value_text.specs.Text.{body, cell, kind_mark, more};
ghost use Rattle.value_text.specs.Tokens.{mark, written};

use crate::marks::{put_bits, put_byte};
use cell_nodes::{Cell, Kind, RefSlice};
use std::alloc::Global;
use tlb_memory::NoMemory;
use typed_value::RestPart;

// A `!` for an exotic cell.
fn put_kind(text: &mut Vec<u8>, kind: Kind) -> Result<(), NoMemory>
    ensures { OnOk result (text.new.items ≡ text.old.items ++ written (kind_mark kind)) }
{
    if kind != Kind::Ordinary {
        put_byte(text, b'!')?;
    }
    Ok(())
}

/// A cell: its bits and its references in parentheses, behind a `!` where it is exotic.
#[cycle(cell)]
#[tactic(auto, using(crate::proofs::CellSteps::steps))]
pub(crate) fn put_cell(alloc: Global, text: &mut Vec<u8>, shown: &Cell) -> Result<(), NoMemory>
    ensures { OnOk result (text.new.items ≡ text.old.items ++ written (cell shown.now)) }
{
    put_kind(text, shown.kind())?;
    let content = shown.content();
    put_byte(text, b'(')?;
    put_bits(alloc, text, content.bits)?;
    put_children(alloc, text, content.refs)?;
    put_byte(text, b')')?;
    Ok(())
}

// References, each behind a comma.
#[cycle(cell)]
#[tactic(auto, using(crate::proofs::CellSteps::steps))]
fn put_children(alloc: Global, text: &mut Vec<u8>, refs: RefSlice<'_>) -> Result<(), NoMemory>
    ensures { OnOk result (text.new.items ≡ text.old.items ++ written (more (map cell refs.entry))) }
{
    match refs.first() {
        None => Ok(()),
        Some((first, rest)) => {
            put_byte(text, b',')?;
            put_cell(alloc, text, first)?;
            put_children(alloc, text, rest)?;
            Ok(())
        }
    }
}

/// A `%`, and bits and references in parentheses.
pub(crate) fn put_rest(alloc: Global, text: &mut Vec<u8>, shown: &RestPart) -> Result<(), NoMemory>
    ensures { let b = body shown.now.bits (map cell shown.now.refs) in
        OnOk result (text.new.items ≡ text.old.items ++ written (mark 37 ∷ b)) }
{
    put_byte(text, b'%')?;
    put_byte(text, b'(')?;
    put_bits(alloc, text, shown.bits.slice())?;
    put_cells(alloc, text, shown.refs.as_slice())?;
    put_byte(text, b')')?;
    Ok(())
}

fn put_cells(alloc: Global, text: &mut Vec<u8>, cells: &[Cell]) -> Result<(), NoMemory>
    ensures { OnOk result (text.new.items ≡ text.old.items ++ written (more (map cell cells.now))) }
{
    'cells: for shown in cells {
        put_byte(text, b',')?;
        put_cell(alloc, text, shown)?;
    }
    Ok(())
}
