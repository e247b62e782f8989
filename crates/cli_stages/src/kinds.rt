//! The stage of a schema's kinds and its guard.
ghost use Rattle.std.specs.Prelude.{◌≡◌, ◌≢◌, false};
ghost use Rattle.tlb_syntax.specs.Limits.{IsWithinLimits};
ghost use Rattle.tlb_syntax.specs.View.{schema as schema_view};
ghost use Rattle.cli_stages.specs.Kinds.{Kinds};
ghost use Rattle.cli_stages.specs.Stage.{Answers};

use crate::Stop;
use cli_refusals::{Refusal, SchemaCause};
use std::alloc::Global;
use tlb_grammar::Schema;
use tlb_kinds::{KindError, Kinded, kind_check};

fn is_no_memory(error: &KindError) -> bool
    ensures { result ≡ false → error.now ≢ KindError.NoMemory }
{
    match error {
        KindError::NoMemory => true,
        _ => false,
    }
}

/// The schema without the declarations that are passed over, where it has no refusal by its kinds or its guard.
pub fn kinds(alloc: Global, tree: Schema) -> Result<Kinded, Stop>
    requires { IsWithinLimits (schema_view tree) }
    ensures { Answers (Kinds (schema_view tree)) schema_view result }
{
    match kind_check(alloc, tree) {
        Ok(kinded) => Ok(kinded),
        Err(error) => {
            if is_no_memory(&error) {
                return Err(Stop::NoMemory);
            }
            Err(Stop::Refused(Refusal::Schema(SchemaCause::Kinds(error))))
        }
    }
}
