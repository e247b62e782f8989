//! The stage of a value's text.
ghost use Rattle.std.specs.Prelude.{◌≡◌};
ghost use Rattle.typed_value.specs.View.{value};
ghost use Rattle.cli_refusals.specs.Refusal.{value_text as refused_text};
ghost use Rattle.cli_stages.specs.Stage.{Answers, IfRefused};
ghost use Rattle.cli_stages.specs.ValueText.{ValueText};

use crate::Stop;
use cli_refusals::Refusal;
use std::alloc::Global;
use typed_value::Value;
use value_grammar::Cause;
use value_parse::{TextError, parse};

fn refused(cause: Cause, place: u64) -> Stop
    ensures { IfRefused (λ r. r ≡ refused_text cause place) result }
{
    Stop::Refused(Refusal::Text(cause, place))
}

/// The value that the file writes.
pub fn value_text(alloc: Global, file: &[u8]) -> Result<Value, Stop>
    ensures { Answers (ValueText file.now) value result }
{
    match parse(alloc, file) {
        Ok(value) => Ok(value),
        Err(TextError::Syntax(place)) => Err(refused(Cause::Syntax, place)),
        Err(TextError::Range(place)) => Err(refused(Cause::Range, place)),
        Err(TextError::KeyOrder(place)) => Err(refused(Cause::KeyOrder, place)),
        Err(TextError::DeepText(place)) => Err(refused(Cause::DeepText, place)),
        Err(TextError::BulkText(place)) => Err(refused(Cause::BulkText, place)),
        Err(TextError::NoMemory) => Err(Stop::NoMemory),
    }
}
