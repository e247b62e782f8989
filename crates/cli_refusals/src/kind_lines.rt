//! The words of a refusal by the kinds.
ghost use Rattle.std.specs.Prelude.{◌≡◌, ◌≢◌, IfOk};
ghost use Rattle.tlb_kinds.specs.declared.error.KindError.TheVariants as kinds;
ghost use Rattle.cli_refusals.specs.Lines.{item_text, kind_cause, spaced};

use crate::path_lines::add_path;
use std::alloc::Global;
use tlb_kinds::{KindError, Spot};
use tlb_memory::NoMemory;

// The type, the constructor and the item.
fn item_words(alloc: Global, spot: &Spot) -> Result<Vec<u8>, NoMemory>
    ensures { IfOk result (λ text. text.items ≡ item_text spot.now) }
{
    let mut text = Vec::from_slice(alloc, spot.type_name.text())?;
    text.extend_from_slice(b".")?;
    text.extend_from_slice(spot.constructor.text())?;
    add_path(alloc, &mut text, &spot.item)?;
    Ok(text)
}

fn placed(alloc: Global, cause: &[u8], spot: &Spot) -> Result<Vec<u8>, NoMemory>
    ensures { IfOk result (λ text. text.items ≡ spaced cause.now (item_text spot.now)) }
{
    let mut text = Vec::from_slice(alloc, cause)?;
    text.extend_from_slice(b" ")?;
    text.extend_from_slice(&item_words(alloc, spot)?)?;
    Ok(text)
}

/// The cause and the place of a schema's refusal by its kinds or its guard.
pub fn kind_words(alloc: Global, error: &KindError) -> Result<Vec<u8>, NoMemory>
    ensures words { IfOk result (λ text. text.items ≡ kind_cause error.now) }
    ensures memory { IfOk result (λ _. error.now ≢ kinds.NoMemory) }
{
    match error {
        KindError::UnknownType(spot) => placed(alloc, b"UnknownType", spot),
        KindError::UnknownName(spot) => placed(alloc, b"UnknownName", spot),
        KindError::Arity(spot) => placed(alloc, b"Arity", spot),
        KindError::KindMismatch(spot) => placed(alloc, b"KindMismatch", spot),
        KindError::OutputUnderRef(spot) => placed(alloc, b"OutputUnderRef", spot),
        KindError::NotLinear(spot) => placed(alloc, b"NotLinear", spot),
        KindError::TwiceNamed(spot) => placed(alloc, b"TwiceNamed", spot),
        KindError::Undetermined(spot) => placed(alloc, b"Undetermined", spot),
        KindError::TooWide(spot) => placed(alloc, b"TooWide", spot),
        KindError::Reserved(spot) => placed(alloc, b"Reserved", spot),
        KindError::Unguarded(spot) => placed(alloc, b"Unguarded", spot),
        KindError::NoMemory => Err(NoMemory),
    }
}
