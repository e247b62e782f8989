//! The words of a refusal by the tags.
ghost use Rattle.std.specs.Prelude.{◌≡◌, ◌≢◌, IfOk};
ghost use Rattle.tag_ambiguity.specs.declared.error.TagError.TheVariants as tags;
ghost use Rattle.cli_refusals.specs.Lines.{tag_cause};

use crate::lines::spaced;
use std::alloc::Global;
use tag_ambiguity::TagError;
use tlb_memory::NoMemory;

/// The cause of a schema's refusal by its tags, and the constructors.
pub fn tag_words(alloc: Global, error: &TagError) -> Result<Vec<u8>, NoMemory>
    ensures words { IfOk result (λ text. text.items ≡ tag_cause error.now) }
    ensures memory { IfOk result (λ _. error.now ≢ tags.NoMemory) }
{
    match error {
        TagError::TagTooLong(of, constructor) => {
            let mut place = Vec::from_slice(alloc, of.text())?;
            place.extend_from_slice(b".")?;
            place.extend_from_slice(constructor.text())?;
            spaced(alloc, b"TagTooLong", &place)
        }
        TagError::Ambiguous(of, first, second) => {
            let of = spaced(alloc, b"Ambiguous", of.text())?;
            let first = spaced(alloc, &of, first.text())?;
            spaced(alloc, &first, second.text())
        }
        TagError::NoMemory => Err(NoMemory),
    }
}
