//! The stage of a schema's text.
ghost use Rattle.std.specs.Prelude.{◌≡◌, ◌≢◌, ◌≤◌, false, length, IfOk};
ghost use Rattle.tlb_syntax.specs.Limits.{IsWithinLimits};
ghost use Rattle.tlb_syntax.specs.View.{schema as schema_view};
ghost use Rattle.cli_stages.specs.SchemaText.{SchemaText};
ghost use Rattle.cli_stages.specs.Stage.{Answers};

use crate::Stop;
use cli_refusals::{Refusal, SchemaCause};
use std::alloc::Global;
use tlb_grammar::{GrammarError, Schema, read_schema};

fn is_no_memory(error: GrammarError) -> bool
    ensures { result ≡ false → error ≢ GrammarError.NoMemory }
{
    match error {
        GrammarError::NoMemory => true,
        _ => false,
    }
}

/// The schema that the text writes.
pub fn schema_text(alloc: Global, text: &[u8]) -> Result<Schema, Stop>
    requires { length text.now ≤ 1048576 }
    ensures given { Answers (SchemaText text.now) schema_view result }
    ensures limits { IfOk result (λ tree. IsWithinLimits (schema_view tree)) }
{
    match read_schema(alloc, text) {
        Ok(tree) => Ok(tree),
        Err(error) if is_no_memory(error) => Err(Stop::NoMemory),
        Err(error) => Err(Stop::Refused(Refusal::Schema(SchemaCause::Text(error)))),
    }
}
