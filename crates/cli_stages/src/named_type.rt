//! The stage of a type word.
ghost use Rattle.std.specs.Prelude.{◌≡◌, ◌≢◌, ◌≤◌, false, length};
ghost use Rattle.tlb_syntax.specs.View.{schema as schema_view};
ghost use Rattle.cli_stages.specs.Stage.{Answers};
ghost use Rattle.cli_stages.specs.TypeWord.{TypeWord};
ghost use Rattle.cli_stages.specs.View.{type_by};

use crate::Stop;
use cli_refusals::Refusal;
use field_plan::{ClosedType, Plan, resolve};
use std::alloc::Global;
use type_word::{TypeError, shown};

/// A closed type, and the canonical text that it is shown by.
#[derive(Drop)]
pub struct ShownType {
    pub closed: ClosedType,
    pub text: Vec<u8>,
}

fn is_no_memory(error: &TypeError) -> bool
    ensures { result ≡ false → error.now ≢ TypeError.NoMemory }
{
    match error {
        TypeError::NoMemory => true,
        _ => false,
    }
}

/// The closed type that the word names in the plan's schema.
pub fn named_type(alloc: Global, plan: &Plan, word: &str) -> Result<ShownType, Stop>
    requires { length word.now ≤ 1048576 }
    ensures { Answers (TypeWord word.now (schema_view plan.now.0)) type_by result }
{
    match resolve(alloc, plan, word) {
        Err(error) => {
            if is_no_memory(&error) {
                return Err(Stop::NoMemory);
            }
            Err(Stop::Refused(Refusal::TypeWord(error)))
        }
        Ok(closed) => match shown(alloc, word) {
            Ok(text) => Ok(ShownType { closed, text }),
            // A word that names a type has a text.
            Err(_) => Err(Stop::NoMemory),
        },
    }
}
