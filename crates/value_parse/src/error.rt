//! Why a text writes no value.
ghost use Rattle.std.specs.Prelude.{◌≡◌};
ghost use Rattle.value_grammar.specs.Steps as steps;
ghost use Rattle.value_parse.specs.Answer.{Moves, error_of};

use crate::state::Open;
use std::alloc::AllocError;
use thiserror::Error;
use tlb_memory::NoMemory;
use value_grammar::Cause;

/// Why a text writes no value. The number is the place in the text, a byte's offset from 0.
#[derive(Clone, Copy, Debug, PartialEq, Eq, Error)]
pub enum TextError {
    /// No value goes on with what stands there, or the text ends too soon.
    #[error("no value goes on at byte {0}")]
    Syntax(u64),
    /// A number, bits or a hidden part past its limit; or a cell that there is none of, by its `(`.
    #[error("out of range at byte {0}")]
    Range(u64),
    /// The bits of an entry that do not come after the entry before, or that it begins.
    #[error("out of order at byte {0}")]
    KeyOrder(u64),
    /// What opens the value level 2,305 or the cell level 1,026; or the `(` of a cell whose depth exceeds 1,024.
    #[error("too deep at byte {0}")]
    DeepText(u64),
    /// The 1,048,577th value, or the 262,145th cell.
    #[error("one value or cell too many at byte {0}")]
    BulkText(u64),
    /// Out of memory; the text may write a value or not.
    #[error("no memory")]
    NoMemory,
}

impl From<NoMemory> for TextError {
    ghost use Rattle.std.specs.Prelude.{◌≡◌};
    ghost use Rattle.value_parse.specs.declared.error.TextError.TheVariants.{NoMemory};

    ghost from_gives = { λ _ e. e ≡ NoMemory };

    fn from(_: NoMemory) -> TextError {
        TextError::NoMemory
    }
}

impl From<AllocError> for TextError {
    ghost use Rattle.std.specs.Prelude.{◌≡◌};
    ghost use Rattle.value_parse.specs.declared.error.TextError.TheVariants.{NoMemory};

    ghost from_gives = { λ _ e. e ≡ NoMemory };

    fn from(_: AllocError) -> TextError {
        TextError::NoMemory
    }
}

/// The refusal by a cause and a place.
pub(crate) fn refusal(cause: Cause, place: u64) -> TextError
    ensures { result ≡ error_of cause place }
{
    match cause {
        Cause::Syntax => TextError::Syntax(place),
        Cause::Range => TextError::Range(place),
        Cause::KeyOrder => TextError::KeyOrder(place),
        Cause::DeepText => TextError::DeepText(place),
        Cause::BulkText => TextError::BulkText(place),
    }
}

/// No value goes on there.
pub(crate) fn no_go(place: u64) -> Result<Open, TextError>
    ensures { Moves result (steps.no_go place) }
{
    Err(TextError::Syntax(place))
}
