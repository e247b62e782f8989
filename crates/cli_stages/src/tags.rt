//! The stage of a schema's tags and leads.
ghost use Rattle.std.specs.Prelude.{◌≡◌, ◌≢◌, false};
ghost use Rattle.tlb_syntax.specs.View.{schema as schema_view};
ghost use Rattle.cli_stages.specs.Stage.{Answers};
ghost use Rattle.cli_stages.specs.Tags.{Tags};

use crate::Stop;
use cli_refusals::{Refusal, SchemaCause};
use std::alloc::Global;
use tag_ambiguity::{Accepted, TagError, separate};
use tlb_kinds::Kinded;

fn is_no_memory(error: &TagError) -> bool
    ensures { result ≡ false → error.now ≢ TagError.NoMemory }
{
    match error {
        TagError::NoMemory => true,
        _ => false,
    }
}

/// The schema with its tags and leads, where its tags are short and its constructors are told apart.
pub fn tags(alloc: Global, kinded: Kinded) -> Result<Accepted, Stop>
    ensures { Answers (Tags (schema_view kinded)) schema_view result }
{
    match separate(alloc, kinded) {
        Ok(accepted) => Ok(accepted),
        Err(error) => {
            if is_no_memory(&error) {
                return Err(Stop::NoMemory);
            }
            Err(Stop::Refused(Refusal::Schema(SchemaCause::Tags(error))))
        }
    }
}
