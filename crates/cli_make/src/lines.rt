//! The lines of `make`.
ghost use Rattle.std.specs.Prelude.{◌≡◌, IfOk};
ghost use Rattle.typed_value.specs.View.{value as value_view};
ghost use Rattle.cli_make.specs.Lines.{AreLines, IsTextAt, at_line as line_at, root_line as line_of_root, size_line as line_of_size};
ghost use Rattle.cli_make.specs.View.{IsWritten};
ghost use Rattle.cli_stages.specs.View.{shown_by};

use crate::written::Written;
use proof_view::Viewed;
use std::alloc::Global;
use tlb_memory::NoMemory;
use typed_value::Value;
use value_text::{parse_path, print};

fn root_line(alloc: Global, hash: [u8; 32]) -> Result<Vec<u8>, NoMemory>
    ensures { IfOk result (λ text. text.items ≡ line_of_root hash) }
{
    let digits = hex::encode(alloc, hash)?;
    let line = format!(in alloc; "root {digits}\n")?;
    Ok(line.into_bytes())
}

fn size_line(alloc: Global, name: &str, written: &Written) -> Result<Vec<u8>, NoMemory>
    requires { IsWritten written.now }
    ensures { IfOk result (λ text. text.items ≡ line_of_size name.now written.now.cell) }
{
    let cells = written.cells;
    let size = written.bag.len();
    let line = format!(in alloc; "{name} cells {cells} bytes {size}\n")?;
    Ok(line.into_bytes())
}

// The text of what the word's path leads to.
fn text_at(alloc: Global, word: &str, value: &Value) -> Result<Vec<u8>, NoMemory>
    ensures { IfOk result (λ text. IsTextAt word.now (value_view value.now) text.items) }
{
    match parse_path(alloc, word) {
        Ok(path) => match value.at(&path) {
            Some(found) => print(alloc, found),
            None => Ok(Vec::new(alloc)),
        },
        // The word writes a path.
        Err(_) => Err(NoMemory),
    }
}

// That text, on a line.
fn at_line(alloc: Global, text: &[u8]) -> Result<Vec<u8>, NoMemory>
    ensures { IfOk result (λ line. line.items ≡ line_at text.now) }
{
    let mut line = Vec::from_slice(alloc, b"at ")?;
    line.extend_from_slice(text)?;
    line.extend_from_slice(b"\n")?;
    Ok(line)
}

/// The lines of a cell, of a proof of it, of what the proof shows, and of the word's path.
pub(crate) fn lines(
    alloc: Global,
    word: &str,
    message: &Written,
    proof: &Written,
    viewed: &Viewed,
) -> Result<Vec<u8>, NoMemory>
    requires message { IsWritten message.now }
    requires proof { IsWritten proof.now }
    ensures { IfOk result (λ text. AreLines word.now message.now.cell proof.now.cell (shown_by viewed.now) text.items) }
{
    let mut lines = root_line(alloc, viewed.hash)?;
    lines.extend_from_slice(&size_line(alloc, "bag", message)?)?;
    lines.extend_from_slice(&size_line(alloc, "proof", proof)?)?;
    let found = text_at(alloc, word, &viewed.value)?;
    lines.extend_from_slice(&at_line(alloc, &found)?)?;
    Ok(lines)
}
