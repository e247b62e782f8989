//! Refusals.
ghost use Rattle.std.specs.Prelude.{◌≡◌};
ghost use Rattle.tlb_kinds.specs.Spots.{refusal as refusal_of};

use crate::spot::Spot;
use kind_declarations::Cause;
use std::alloc::AllocError;
use thiserror::Error;
use tlb_memory::NoMemory;

/// Why a schema is refused, and at which item.
#[derive(Debug, Drop, Error)]
pub enum KindError {
    #[error("a name is no type")]
    UnknownType(Spot),
    #[error("a name is no number")]
    UnknownName(Spot),
    #[error("the parameters are others than those of the type")]
    Arity(Spot),
    #[error("a type, a number or an output is_at_position where another of them is expected")]
    KindMismatch(Spot),
    #[error("a type with outputs is_at_position under ^")]
    OutputUnderRef(Spot),
    #[error("a number is not linear")]
    NotLinear(Spot),
    #[error("a name or a number is given twice")]
    TwiceNamed(Spot),
    #[error("a variable is not known")]
    Undetermined(Spot),
    #[error("a number is too large")]
    TooWide(Spot),
    #[error("a name is reserved")]
    Reserved(Spot),
    /// The type leads back to itself before anything is taken.
    #[error("a type is not guarded")]
    Unguarded(Spot),
    #[error("no memory")]
    NoMemory,
}

impl From<NoMemory> for KindError {
    ghost use Rattle.std.specs.Prelude.{◌≡◌};
    ghost use Rattle.tlb_kinds.specs.declared.error.KindError.TheVariants as errors;

    ghost from_gives = { λ _ e. e ≡ errors.NoMemory };

    fn from(_: NoMemory) -> KindError {
        KindError::NoMemory
    }
}

impl From<AllocError> for KindError {
    ghost use Rattle.std.specs.Prelude.{◌≡◌};
    ghost use Rattle.tlb_kinds.specs.declared.error.KindError.TheVariants as errors;

    ghost from_gives = { λ _ e. e ≡ errors.NoMemory };

    fn from(_: AllocError) -> KindError {
        KindError::NoMemory
    }
}

/// The refusal for a cause at a place.
pub fn refusal_for(cause: Cause, spot: Spot) -> KindError
    ensures { result ≡ refusal_of cause spot }
{
    match cause {
        Cause::Reserved => KindError::Reserved(spot),
        Cause::UnknownType => KindError::UnknownType(spot),
        Cause::UnknownName => KindError::UnknownName(spot),
        Cause::Arity => KindError::Arity(spot),
        Cause::KindMismatch => KindError::KindMismatch(spot),
        Cause::OutputUnderRef => KindError::OutputUnderRef(spot),
        Cause::NotLinear => KindError::NotLinear(spot),
        Cause::TwiceNamed => KindError::TwiceNamed(spot),
        Cause::Undetermined => KindError::Undetermined(spot),
        Cause::TooWide => KindError::TooWide(spot),
    }
}
