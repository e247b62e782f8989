//! Refusals.
use bit_slice::Name;
use std::alloc::AllocError;
use thiserror::Error;
use tlb_memory::NoMemory;

/// Why a word is no type of a schema.
#[derive(Debug, Drop, Error)]
pub enum TypeError {
    /// The byte, from 0, at which the word's grammar refuses it, or of a token that a word for a type may not hold.
    #[error("a word for a type does not go on at byte {0}")]
    TypeSyntax(u64),
    /// The name that is no type.
    #[error("a name is no type")]
    UnknownType(Name),
    /// The type that has another number of parameters.
    #[error("the arguments are others than the parameters of the type")]
    Arity(Name),
    /// The type that has outputs.
    #[error("a type has outputs")]
    Output(Name),
    /// The type whose argument is at fault, if the fault stands in one.
    #[error("a type or a number stands where the other is due")]
    KindMismatch(Option<Name>),
    #[error("a number is too large")]
    TooWide,
    /// The closed type has more than 4,096 nodes.
    #[error("the type is too large")]
    BigType,
    #[error("no memory")]
    NoMemory,
}

impl From<NoMemory> for TypeError {
    ghost use Rattle.std.specs.Prelude.{◌≡◌};
    ghost use Rattle.type_word.specs.declared.error.TypeError.TheVariants as errors;

    ghost from_gives = { λ _ e. e ≡ errors.NoMemory };

    fn from(_: NoMemory) -> TypeError {
        TypeError::NoMemory
    }
}

impl From<AllocError> for TypeError {
    ghost use Rattle.std.specs.Prelude.{◌≡◌};
    ghost use Rattle.type_word.specs.declared.error.TypeError.TheVariants as errors;

    ghost from_gives = { λ _ e. e ≡ errors.NoMemory };

    fn from(_: AllocError) -> TypeError {
        TypeError::NoMemory
    }
}
