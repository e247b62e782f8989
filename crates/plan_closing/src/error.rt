//! Refusals.
use std::alloc::AllocError;
use tlb_memory::NoMemory;

/// Why a type of a plan has no closed type, the first cause first.
#[derive(Clone, Copy, Debug, PartialEq, Eq)]
pub enum CloseError {
    /// A number of it, or a part of one, exceeds 2^32 − 1; or a variable of it is not set, or there is a record in it.
    Overflow,
    /// It would have more than 4,096 nodes.
    BigType,
    NoMemory,
}

impl From<AllocError> for CloseError {
    ghost use Rattle.std.specs.Prelude.{◌≡◌};
    ghost use Rattle.plan_closing.specs.declared.error.CloseError.TheVariants as errors;

    ghost from_gives = { λ _ e. e ≡ errors.NoMemory };

    fn from(_: AllocError) -> CloseError {
        CloseError::NoMemory
    }
}

impl From<NoMemory> for CloseError {
    ghost use Rattle.std.specs.Prelude.{◌≡◌};
    ghost use Rattle.plan_closing.specs.declared.error.CloseError.TheVariants as errors;

    ghost from_gives = { λ _ e. e ≡ errors.NoMemory };

    fn from(_: NoMemory) -> CloseError {
        CloseError::NoMemory
    }
}
