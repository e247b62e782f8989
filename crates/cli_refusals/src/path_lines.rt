//! The words of a path to an item or a field.
ghost use Rattle.std.specs.Prelude.{◌≡◌, ◌++◌, ◌∷◌, [], OnOk};
ghost use Rattle.cli_refusals.specs.Lines.{dotted};

use field_path::{FieldPath, Part};
use std::alloc::Global;
use tlb_memory::NoMemory;

// Adds a shown part of a path, after a dot.
fn add_part(alloc: Global, text: &mut Vec<u8>, part: &Part) -> Result<(), NoMemory>
    ensures { OnOk result (text.new.items ≡ text.old.items ++ dotted (part.now ∷ [])) }
{
    text.extend_from_slice(b".")?;
    match part {
        Part::Named(name) => text.extend_from_slice(name.text())?,
        Part::Check(place) => {
            let check = format!(in alloc; "{{{place}}}")?;
            text.extend_from_slice(check.as_bytes())?;
        }
        Part::Tag => text.extend_from_slice(b"$")?,
        Part::Result => text.extend_from_slice(b"=")?,
    }
    Ok(())
}

/// Adds each part, after a dot.
pub fn add_path(alloc: Global, text: &mut Vec<u8>, path: &FieldPath) -> Result<(), NoMemory>
    ensures { OnOk result (text.new.items ≡ text.old.items ++ dotted path.now.parts) }
{
    'parts: for part in path.parts.as_slice() {
        add_part(alloc, text, part)?;
    }
    Ok(())
}
